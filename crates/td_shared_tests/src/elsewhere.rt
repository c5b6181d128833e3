//! The client's program asks a server by another name than its file's, so that the iterator of the reply is elsewhere
//! for it: it is asked over a second connection.

use crate::connection::{Connection, replies};
use crate::opening::{Server, opened};
use std::alloc::Global;
use std::process::Abort;
use std::sync::Wait;
use std::test::Fail;
use td_cdr::{List, Memory, Octets};
use td_cli_program::client_run;
use td_desk::SharedDesk;
use td_out::MemSink;
use td_shared::{KeptSharedJournal, SharedJournal};
use td_wire::MemWire;

/// The words of a query for at most two offers in the reply. The file says that the trader is reached at `h`.
const WORDS: &[&str] = &[
    "query",
    "--how-many",
    "2",
    "ref:,localhost,9,A/L",
    "P",
    "TRUE",
    "first",
];

/// What is printed of each offer up to the digits of its object's number.
const OFFER: &[u8] =
    b"offer IOR:000000000000000a49444c3a503a312e30000000000000010000000000000012000100000000000268000009000000027\
    03";

fn words(alloc: Global) -> Result<Vec<String>, Memory> {
    let mut words = Vec::new(alloc);
    for word in WORDS {
        words.push(String::from_str(alloc, word)?)?;
    }
    Ok(words)
}

/// What is printed: all offers, in order.
fn lines(alloc: Global) -> Result<Vec<u8>, Memory> {
    let mut lines = Vec::new(alloc);
    for number in b"1234567" {
        lines.extend_from_slice(OFFER)?;
        lines.extend_from_slice(&[*number, b'\n'])?;
    }
    lines.extend_from_slice(b"limits\ntotal 7\n")?;
    Ok(lines)
}

/// A wire whose first connection gives the first bytes, and whose second gives the others.
fn wire(alloc: Global, found: &[u8], given: &[u8]) -> Result<MemWire, Memory> {
    let mut answers = List::new(alloc);
    answers.push(Octets::from_slice(alloc, found)?)?;
    answers.push(Octets::from_slice(alloc, given)?)?;
    Ok(MemWire::new(alloc, answers, List::new(alloc)))
}

/// What the client writes over a connection, counted from 0, where its connections give these bytes and then end.
fn written(
    alloc: Global,
    words: &[String],
    found: &[u8],
    given: &[u8],
    connection: usize,
) -> Result<Vec<u8>, Memory> {
    let mut wire = wire(alloc, found, given)?;
    let mut sink = MemSink::new(alloc, List::new(alloc));
    let mut faults = MemSink::new(alloc, List::new(alloc));
    let _ = client_run(alloc, words, &mut wire, &mut sink, &mut faults);
    let mut bytes = Vec::new(alloc);
    if let Some(written) = wire.written(connection) {
        bytes.extend_from_slice(written)?;
    }
    Ok(bytes)
}

/// Whether the client prints all offers where its connections give these bytes.
fn prints_all(alloc: Global, words: &[String], found: &[u8], given: &[u8]) -> Result<bool, Memory> {
    let mut wire = wire(alloc, found, given)?;
    let mut sink = MemSink::new(alloc, List::new(alloc));
    let mut faults = MemSink::new(alloc, List::new(alloc));
    let status = client_run(alloc, words, &mut wire, &mut sink, &mut faults);
    let lines = lines(alloc)?;
    Ok(status == 0 && sink.written() == lines.as_slice() && faults.written().is_empty())
}

/// Whether the client prints all offers: the query comes over the first connection, and `next_n` and `destroy` of its
/// iterator over the second.
fn drains<'d, R: Wait>(
    rt: &R,
    alloc: Global,
    server: &mut Server,
    first: &mut Connection<'d>,
    second: &mut Connection<'d>,
) -> Result<bool, Memory> {
    let words = words(alloc)?;
    let query = written(alloc, words.as_slice(), b"", b"", 0)?;
    let found = replies(rt, alloc, server, first, query.as_slice())?;
    let next = written(alloc, words.as_slice(), found.as_slice(), b"", 1)?;
    let mut given = replies(rt, alloc, server, second, next.as_slice())?;
    let both = written(
        alloc,
        words.as_slice(),
        found.as_slice(),
        given.as_slice(),
        1,
    )?;
    let last = both.as_slice().get(next.len()..).unwrap_or(b"");
    let gone = replies(rt, alloc, server, second, last)?;
    given.extend_from_slice(gone.as_slice())?;
    prints_all(alloc, words.as_slice(), found.as_slice(), given.as_slice())
}

/// The same over a new desk.
fn drains_all<R: Wait>(rt: &R, alloc: Global) -> Result<bool, Memory> {
    let mut server = opened(alloc, 7)?;
    let (desk, mut pass) = SharedDesk::open(alloc)?;
    let other = desk.split(&mut pass)?;
    let mut first = Connection {
        desk: &desk,
        pass,
        noted: KeptSharedJournal::empty(alloc),
    };
    let mut second = Connection {
        desk: &desk,
        pass: other,
        noted: KeptSharedJournal::empty(alloc),
    };
    drains(rt, alloc, &mut server, &mut first, &mut second)
}

#[test]
fn by_another_name_every_offer_is_given(rt: HostRuntime) -> Result<(), Fail> {
    assert!(rt; drains_all(&rt, rt.alloc())?);
    Ok(())
}
