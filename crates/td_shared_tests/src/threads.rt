//! Connections on threads of their own, which share an answer.

ghost use Rattle.td_cell.specs.Passes.{Belongs, IsOpening};

use crate::connection::Connection;
use crate::many::{QUERY, copies, given};
use std::alloc::{AllocError, Global};
use std::process::Abort;
use std::sync::Wait;
use std::test::Fail;
use std::thread;
use std::thread::Threads;
use td_cdr::Memory;
use td_desk::{DeskPass, SharedDesk};
use td_shared::{KeptSharedJournal, SharedJournal};

/// A request for the next 50 offers of the first iterator.
const NEXT: &str = "\
    47494f50010000000000002c00000000000000020100000000000005412f492f31000000000000076e6578745f6e\
    00000000000000000032";

/// A connection, and what it was given.
#[derive(Drop)]
struct Reader<'d> {
    connection: Connection<'d>,
    given: Vec<u8>,
}

/// A connection that asks for the offers of an iterator until it is empty.
fn drain<'d, R: Wait>(rt: &R, alloc: Global, reader: Reader<'d>, sent: &[u8]) -> Reader<'d> {
    let Reader {
        mut connection,
        given: none,
    } = reader;
    match given(rt, alloc, 0, &mut connection, sent) {
        Ok(given) => {
            drop(none);
            Reader { connection, given }
        }
        Err(_) => Reader {
            connection,
            given: none,
        },
    }
}

/// One connection more.
fn new_reader<'d>(
    alloc: Global,
    desk: &'d SharedDesk,
    pass: &mut DeskPass,
) -> Result<Reader<'d>, Memory>
    requires { Belongs pass.old desk.now.cell × IsOpening pass.old }
    ensures { Belongs pass.new desk.now.cell × IsOpening pass.new }
{
    let split = desk.split(pass)?;
    Ok(Reader {
        connection: Connection {
            desk,
            pass: split,
            noted: KeptSharedJournal::empty(alloc),
        },
        given: Vec::new(alloc),
    })
}

/// So many connections.
fn readers<'d>(
    alloc: Global,
    desk: &'d SharedDesk,
    pass: &mut DeskPass,
    count: usize,
) -> Result<Vec<Reader<'d>>, Memory>
    requires { Belongs pass.old desk.now.cell × IsOpening pass.old }
{
    let mut readers = Vec::with_capacity(alloc, count)?;
    for _ in 0..count {
        let reader = new_reader(alloc, desk, pass)?;
        readers.push(reader)?;
    }
    Ok(readers)
}

/// What each connection is given on a thread of its own.
fn drain_on_threads<'d, R: Threads + Wait + Sync>(
    rt: &R,
    alloc: Global,
    readers: Vec<Reader<'d>>,
    sent: &[u8],
) -> Result<Vec<Reader<'d>>, AllocError> {
    thread::map_vec(
        rt,
        readers,
        &|reader: Reader| -> Reader { drain(rt, alloc, reader, sent) },
    )
}

/// The offers of replies, by the numbers in the keys of their objects, each behind `p`.
fn numbers(alloc: Global, given: &[u8]) -> Result<Vec<usize>, Memory> {
    let mut numbers = Vec::new(alloc);
    let mut number: Option<usize> = None;
    for byte in given {
        match number {
            Some(n) if byte.is_ascii_digit() => {
                let digit = byte.saturating_sub(b'0');
                number = Some(n.saturating_mul(10).saturating_add(usize::from(digit)));
            }
            Some(n) => {
                numbers.push(n)?;
                number = None;
            }
            None => {
                if *byte == b'p' {
                    number = Some(0);
                }
            }
        }
    }
    Ok(numbers)
}

/// Marks the numbers. Whether each is greater than the one before, and was unmarked.
fn marks(marked: &mut [bool], numbers: &[usize]) -> bool {
    let mut last = 0;
    let mut good = true;
    for number in numbers {
        good &= *number > last;
        last = *number;
        match marked.get_mut(last) {
            Some(mark) => {
                good &= !*mark;
                *mark = true;
            }
            None => good = false,
        }
    }
    good
}

/// Whether the offers from 3 on were given, each once, and each connection's in the order of the answer.
fn are_all(alloc: Global, readers: &[Reader<'_>], last: usize) -> Result<bool, Memory> {
    let mut marked = Vec::from_elem(alloc, false, last.saturating_add(1))?;
    let mut good = true;
    for reader in readers {
        let numbers = numbers(alloc, reader.given.as_slice())?;
        good &= marks(marked.as_mut_slice(), numbers.as_slice());
    }
    let count = marked.iter().filter(|mark| **mark).count();
    Ok(good && count == last.saturating_sub(2))
}

/// So many connections that drain one iterator, each on a thread of its own.
fn on_threads<R: Threads + Wait + Sync>(
    rt: &R,
    alloc: Global,
    count: usize,
    offers: u32,
) -> Result<bool, Fail> {
    let (desk, mut pass) = SharedDesk::open(alloc)?;
    let mut readers = readers(alloc, &desk, &mut pass, count.saturating_add(1))?;
    let Some(mut first) = readers.pop() else {
        return Ok(false);
    };
    let query = copies(alloc, QUERY, 1)?;
    let answer = given(rt, alloc, offers, &mut first.connection, query.as_slice())?;
    let sent = copies(alloc, NEXT, 210)?;
    let drained = drain_on_threads(rt, alloc, readers, sent.as_slice())?;
    Ok(!answer.is_empty() && are_all(alloc, drained.as_slice(), offers as usize)?)
}

#[test]
fn two_connections_share_an_answer(rt: HostRuntime) -> Result<(), Fail> {
    assert!(rt; on_threads(&rt, rt.alloc(), 2, 7)?);
    Ok(())
}

#[test]
fn eight_connections_share_an_answer(rt: HostRuntime) -> Result<(), Fail> {
    assert!(rt; on_threads(&rt, rt.alloc(), 8, 10002)?);
    Ok(())
}
