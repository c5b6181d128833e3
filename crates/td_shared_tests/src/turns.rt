//! Two connections, one message after the other.

use crate::connection::{Connection, is_given, is_noted};
use crate::opening::{Server, opened};
use crate::rows::{ASKED_ELSEWHERE, AT_TWO_CONNECTIONS};
use std::alloc::Global;
use std::process::Abort;
use std::sync::Wait;
use std::test::Fail;
use td_cdr::Memory;
use td_desk::SharedDesk;
use td_shared::{KeptSharedJournal, SharedJournal};

/// The first word of a line, and what stands behind it.
fn cut(line: &str) -> (&str, &str) {
    line.split_once(' ').unwrap_or((line, ""))
}

/// Whether a message comes over a connection and is answered as a line says.
fn plays<'d, R: Wait>(
    rt: &R,
    alloc: Global,
    server: &mut Server,
    connection: &mut Connection<'d>,
    line: &str,
) -> Result<bool, Fail> {
    let (message, reply) = cut(line);
    let sent = hex::decode(alloc, message.as_bytes())?;
    let given = hex::decode(alloc, reply.as_bytes())?;
    Ok(is_given(
        rt,
        alloc,
        server,
        connection,
        sent.as_slice(),
        given.as_slice(),
    )?)
}

/// The first line that isn't answered as it says: the number of its connection, the message and its reply.
fn first_wrong<'d, 'l, R: Wait>(
    rt: &R,
    alloc: Global,
    server: &mut Server,
    first: &mut Connection<'d>,
    second: &mut Connection<'d>,
    lines: &'l str,
) -> Result<&'l str, Fail> {
    for line in lines.lines() {
        let (number, rest) = cut(line);
        let right = if number == "1" {
            plays(rt, alloc, server, first, rest)?
        } else {
            plays(rt, alloc, server, second, rest)?
        };
        if !right {
            return Ok(line);
        }
    }
    Ok("")
}

/// The same of a server with seven offers, where this is noted of the messages of each connection.
fn first_wrong_of<'l, R: Wait>(
    rt: &R,
    alloc: Global,
    lines: &'l str,
    noted: [&[Option<u64>]; 2],
) -> Result<&'l str, Fail> {
    let mut server = opened(alloc, 7)?;
    let (desk, mut pass) = SharedDesk::open(alloc)?;
    let other = desk.split(&mut pass)?;
    let mut first = Connection {
        desk: &desk,
        pass,
        noted: KeptSharedJournal::empty(alloc),
    };
    let mut second = Connection {
        desk: &desk,
        pass: other,
        noted: KeptSharedJournal::empty(alloc),
    };
    let wrong = first_wrong(rt, alloc, &mut server, &mut first, &mut second, lines)?;
    if wrong.is_empty() && !(is_noted(&first, noted[0]) && is_noted(&second, noted[1])) {
        return Ok("the journals");
    }
    Ok(wrong)
}

/// A draw and an item put on the desk, and then four calls of it.
#[test]
fn two_connections_drain_an_iterator(rt: HostRuntime) -> Result<(), Fail> {
    let noted = [
        [None, Some(3), Some(5)].as_slice(),
        [Some(2), Some(4)].as_slice(),
    ];
    let wrong = first_wrong_of(&rt, rt.alloc(), AT_TWO_CONNECTIONS, noted)?;
    assert!(rt; wrong.is_empty(), "at {wrong}");
    Ok(())
}

/// Each call of the desk is noted, whatever it finds.
#[test]
fn an_iterator_is_asked_over_another_connection(rt: HostRuntime) -> Result<(), Fail> {
    let noted = [
        [None, Some(11)].as_slice(),
        [
            Some(2),
            Some(3),
            Some(4),
            Some(5),
            Some(6),
            Some(7),
            Some(8),
            Some(9),
            Some(10),
            Some(12),
            Some(13),
            Some(14),
        ]
        .as_slice(),
    ];
    let wrong = first_wrong_of(&rt, rt.alloc(), ASKED_ELSEWHERE, noted)?;
    assert!(rt; wrong.is_empty(), "at {wrong}");
    Ok(())
}
