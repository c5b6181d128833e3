//! Both kinds of server, on threads.

ghost use Rattle.std.specs.Prelude.{◌≡◌, length, IfOk};

use crate::ended::EndedSessions;
use crate::greetings::serve_greetings;
use crate::tickets::{Noted, Roll, serve_tickets};
use std::alloc::Global;
use std::sync::{Mutex, Wait};
use std::test::Fail;
use std::thread::Threads;
use td_accept::{Accept, MemAccept, NoGate, Visitor};
use td_cdr::{List, Memory, Octets};
use td_out::{ChaChaWords, Failed, MemSink, MemSource, Words};
use td_wire::MemWire;

type Guest = Visitor<MemSource, MemSink, MemWire, ChaChaWords>;

/// A visitor whose first write fails or not.
fn guest(alloc: Global, failing: bool) -> Result<Guest, Memory> {
    let mut faults = List::new(alloc);
    if failing {
        faults.push(1)?;
    }
    Ok(Visitor {
        source: MemSource::new(
            Octets::from_vec(Vec::new(alloc)),
            List::new(alloc),
            List::new(alloc),
        ),
        sink: MemSink::new(alloc, faults),
        wire: MemWire::new(alloc, List::new(alloc), List::new(alloc)),
        words: ChaChaWords::new(),
    })
}

/// An acceptor that is bound and gives so many visitors. The first write of every third one fails.
fn door(
    alloc: Global,
    count: u64,
) -> Result<MemAccept<MemSource, MemSink, MemWire, ChaChaWords>, Memory> {
    let mut visitors = List::new(alloc);
    for index in 0..count {
        visitors.push(guest(alloc, index % 3 == 2)?)?;
    }
    Ok(MemAccept::new(alloc, visitors, List::new(alloc)))
}

/// 32 bytes of 5.
fn seed(alloc: Global) -> Result<Octets, Memory>
    ensures { IfOk result (λ seed. length seed ≡ 32) }
{
    Octets::from_slice(alloc, &[5; 32])
}

/// The first word that comes after a seeding of the session of this number.
fn first_word(number: u64) -> u64 {
    let mut words = ChaChaWords::new();
    words.seed(&[5; 32], number);
    words.next()
}

/// Whether each of so many numbers stands among these once.
fn are_each_once(numbers: &[u64], from: u64, count: u64) -> bool {
    numbers.len() as u64 == count
        && (from..from.saturating_add(count)).all(|number| numbers.contains(&number))
}

/// The numbers of the sessions.
fn numbers<E>(alloc: Global, ended: &EndedSessions<Guest, E>) -> Result<Vec<u64>, Memory> {
    let mut numbers = Vec::new(alloc);
    for (number, _, _, _) in ended.sessions.as_slice() {
        if numbers.push(*number).is_err() {
            drop(numbers);
            return Err(Memory);
        }
    }
    Ok(numbers)
}

/// Serves so many visitors over a roll, and answers whether each session was handed on once, with the first word of its
/// own stream, and whether each ticket was drawn once.
fn each_draws_once<R: Threads + Wait + Sync>(
    rt: &R,
    alloc: Global,
    count: u64,
) -> Result<bool, Memory> {
    let roll = Roll {
        next: Mutex::new(0),
    };
    let mut accept = door(alloc, count)?;
    let seed = seed(alloc)?;
    if accept.bind(b"here", 1).is_err() {
        return Ok(false);
    }
    let noted = Noted::new(alloc);
    let (stop, noted) = serve_tickets(rt, alloc, &roll, &seed, &mut accept, &NoGate, noted);
    let Noted {
        highest,
        own,
        ended,
    } = noted;
    let served = stop.is_ok() && highest == count.saturating_sub(1);
    let drawn = are_each_once(own.as_slice(), 0, count);
    drop(own);
    let numbers = numbers(alloc, &ended)?;
    let handed = are_each_once(numbers.as_slice(), 1, count);
    drop(numbers);
    let words = ended
        .sessions
        .as_slice()
        .iter()
        .all(|(number, _, _, word)| *word == first_word(*number));
    Ok(served && drawn && handed && words)
}

/// Whether the greeting was written, or its write failed as it was to.
fn is_greeted(number: u64, visitor: &Guest, kept: &Result<usize, Failed>) -> bool {
    let written = visitor.sink.written();
    match kept {
        Ok(count) => number % 3 != 0 && *count == 5 && written == b"hello".as_slice(),
        Err(Failed) => number % 3 == 0 && written.is_empty(),
    }
}

/// Serves so many visitors that are greeted, and answers whether each was greeted once and handed on.
fn each_is_greeted<R: Threads + Wait>(rt: &R, alloc: Global, count: u64) -> Result<bool, Memory> {
    let greeting = List::from_slice(alloc, b"hello")?;
    let mut accept = door(alloc, count)?;
    let seed = seed(alloc)?;
    let mut ended = EndedSessions::new(alloc);
    if accept.bind(b"here", 1).is_err() {
        return Ok(false);
    }
    let served = serve_greetings(
        rt,
        alloc,
        &greeting,
        &seed,
        &mut accept,
        &NoGate,
        &mut ended,
    )
    .is_ok();
    let numbers = numbers(alloc, &ended)?;
    let handed = are_each_once(numbers.as_slice(), 1, count);
    drop(numbers);
    let greeted = ended.sessions.as_slice().iter().all(|(number, visitor, _, kept)| is_greeted(
        *number, visitor, kept,
    ));
    Ok(served && handed && greeted)
}

#[test]
fn each_session_draws_a_ticket_of_its_own(rt: HostRuntime) -> Result<(), Fail> {
    for count in [0, 1, 70] {
        assert!(rt; each_draws_once(&rt, rt.alloc(), count)?);
    }
    Ok(())
}

#[test]
fn each_visitor_is_greeted_once(rt: HostRuntime) -> Result<(), Fail> {
    for count in [0, 4, 70] {
        assert!(rt; each_is_greeted(&rt, rt.alloc(), count)?);
    }
    Ok(())
}
