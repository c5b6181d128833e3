//! Two sessions of which the first one waits in the midst of its own until the second one is answered.

use crate::messages::{
    FOUND, FOUND_BOTH, FOUND_NONE, IDENTIFIED, LINKED, PASSED_BACK, PASSED_ON, PRINTERS, QUERY,
    THEIRS,
};
use crate::overlap::{Overlap, Waiting};
use std::alloc::Global;
use std::sync::Wait;
use std::test::Fail;
use std::thread::Threads;
use td_accept::{Gate, Limited, MemAccept, Visitor};
use td_cdr::{List, Memory, Octets, Text};
use td_journal::KeptJournal;
use td_listen::serve;
use td_out::{MemSink, MemSource, MemTexts, MemWords};
use td_servant::Entry;
use td_session::End;
use td_sessions::KeepEnded;
use td_walk::TraceItem;
use td_wire::MemWire;

/// How often a session looks whether it may go on.
const LOOKS: u64 = 10_000_000;

/// Where session 1 waits.
#[derive(Clone, Copy, PartialEq, Eq)]
enum Place {
    /// At each read of its requests.
    Request,
    /// At each read of its peer's answer.
    Peer,
}

/// Two visitors of a server.
#[derive(Clone, Copy)]
struct Pair {
    file: &'static [u8],
    waits_at: Place,
    /// What the first one's peer gives it.
    peer: &'static [u8],
    /// What is written to that peer, where it is called.
    asked: Option<&'static [u8]>,
    sends: [&'static [u8]; 2],
    answers: [&'static [u8]; 2],
    /// The second one's query is a repeat of the first mark.
    repeats: bool,
}

/// Both ask for the printers.
const QUERIES: Pair = Pair {
    file: PRINTERS,
    waits_at: Place::Request,
    peer: b"",
    asked: None,
    sends: [QUERY, QUERY],
    answers: [FOUND, FOUND],
    repeats: false,
};

/// The first one's query goes on to the trader B. That one calls back with the query as it was passed on, and answers
/// with its own offer once the server has answered.
const REENTRANCE: Pair = Pair {
    file: LINKED,
    waits_at: Place::Peer,
    peer: THEIRS,
    asked: Some(PASSED_ON),
    sends: [IDENTIFIED, PASSED_BACK],
    answers: [FOUND_BOTH, FOUND_NONE],
    repeats: true,
};

type Guest<'a> = Visitor<Waiting<'a, MemSource>, MemSink, Waiting<'a, MemWire>, MemWords>;

type Guests<'a> = MemAccept<Waiting<'a, MemSource>, MemSink, Waiting<'a, MemWire>, MemWords>;

/// A session as it was handed on: its number, its visitor, how it ended, that its visitor was limited, its journal.
type Session<'a> = (u64, Guest<'a>, End, Option<Limited>, KeptJournal);

/// A wire whose first connection gives these bytes.
fn wire(alloc: Global, gives: &[u8]) -> Result<MemWire, Memory> {
    let mut answers = List::new(alloc);
    answers.push(Octets::from_slice(alloc, gives)?)?;
    Ok(MemWire::new(alloc, answers, List::new(alloc)))
}

/// A visitor that sends this. It waits where the pair says so if it is the first one.
fn guest<'a>(
    alloc: Global,
    pair: &Pair,
    sends: &[u8],
    first: bool,
    overlap: &'a Overlap,
) -> Result<Guest<'a>, Memory> {
    let wire = wire(alloc, pair.peer)?;
    let bytes = Octets::from_slice(alloc, sends)?;
    Ok(Visitor {
        source: Waiting {
            inner: MemSource::new(bytes, List::new(alloc), List::new(alloc)),
            waits: first && pair.waits_at == Place::Request,
            overlap,
        },
        sink: MemSink::new(alloc, List::new(alloc)),
        wire: Waiting {
            inner: wire,
            waits: first && pair.waits_at == Place::Peer,
            overlap,
        },
        words: MemWords::new(List::new(alloc)),
    })
}

fn guests<'a>(alloc: Global, pair: &Pair, overlap: &'a Overlap) -> Result<Guests<'a>, Memory> {
    let [first, second] = pair.sends;
    let mut all = List::new(alloc);
    all.push(guest(alloc, pair, first, true, overlap)?)?;
    all.push(guest(alloc, pair, second, false, overlap)?)?;
    Ok(MemAccept::new(alloc, all, List::new(alloc)))
}

fn texts(alloc: Global, file: &[u8]) -> Result<MemTexts, Memory> {
    let mut files = List::new(alloc);
    let name = Text::from_slice(alloc, b"file")?;
    files.push((name, Octets::from_slice(alloc, file)?))?;
    Ok(MemTexts::new(files, List::new(alloc)))
}

fn words(alloc: Global) -> Result<Vec<String>, Memory> {
    let mut all = Vec::new(alloc);
    for word in ["listen", "file"] {
        all.push(String::from_str(alloc, word)?)?;
    }
    Ok(all)
}

/// Whether both visitors are answered as said, the second one while the first one waits.
fn overlaps<R: Threads + Wait + Sync>(rt: &R, alloc: Global, pair: &Pair) -> bool {
    let overlap = Overlap::new(LOOKS);
    match guests(alloc, pair, &overlap) {
        Ok(mut accept) => {
            let served = serves(rt, alloc, pair, &mut accept, &overlap);
            drop(accept);
            served && overlap.came_through()
        }
        Err(_) => false,
    }
}

fn serves<'a, R: Threads + Wait + Sync>(
    rt: &R,
    alloc: Global,
    pair: &Pair,
    accept: &mut Guests<'a>,
    overlap: &Overlap,
) -> bool {
    match KeepEnded::new(alloc) {
        Ok(mut ended) => {
            let served = serves_into(rt, alloc, pair, accept, overlap, &mut ended);
            let answered = are_answered(&ended, pair);
            drop(ended);
            served && answered
        }
        Err(_) => false,
    }
}

/// Whether the server has no visitor left.
fn serves_into<'a, R: Threads + Wait + Sync>(
    rt: &R,
    alloc: Global,
    pair: &Pair,
    accept: &mut Guests<'a>,
    overlap: &Overlap,
    ended: &mut KeepEnded<Guest<'a>, KeptJournal>,
) -> bool {
    let Ok(args) = words(alloc) else {
        return false;
    };
    let Ok(mut files) = texts(alloc, pair.file) else {
        drop(args);
        return false;
    };
    let mut faults = MemSink::new(alloc, List::new(alloc));
    let status = serve(
        rt,
        alloc,
        args.as_slice(),
        &mut files,
        accept,
        overlap,
        &mut faults,
        ended,
    );
    status == 0
}

/// Whether there are two sessions, each of which was served.
fn are_answered<'a>(ended: &KeepEnded<Guest<'a>, KeptJournal>, pair: &Pair) -> bool {
    let sessions = ended.sessions().as_slice();
    for session in sessions {
        if !was_served(session, pair) {
            return false;
        }
    }
    sessions.len() == 2
}

/// Whether the session was closed by a thread of its own, and its visitor answered.
fn was_served<'a>(session: &Session<'a>, pair: &Pair) -> bool {
    let (number, visitor, end, limited, journal) = session;
    let answered = match *number {
        1 => is_first(visitor, pair),
        2 => is_second(visitor, journal, pair),
        _ => false,
    };
    answered && limited.is_none() && *end == End::Closed
}

/// Whether the first visitor has its answer, and its peer was asked.
fn is_first<'a>(visitor: &Guest<'a>, pair: &Pair) -> bool {
    let [first, _] = pair.answers;
    visitor.sink.written() == first && visitor.wire.inner.written(0) == pair.asked
}

/// Whether the second visitor has its answer, to a repeat where it is one.
fn is_second<'a>(visitor: &Guest<'a>, journal: &KeptJournal, pair: &Pair) -> bool {
    let [_, second] = pair.answers;
    visitor.sink.written() == second && is_repeat(journal.entries()) == pair.repeats
}

/// Whether the one Request was a query that is a repeat of the first mark of the first trader.
fn is_repeat(entries: &[Entry]) -> bool {
    match entries {
        [Entry::Walk(trace)] => is_repeat_alone(trace.items.as_slice()),
        _ => false,
    }
}

fn is_repeat_alone(items: &[TraceItem]) -> bool {
    match items {
        [TraceItem::Repeat { trader, mark, .. }] => *trader == 0 && *mark == 1,
        _ => false,
    }
}

/// Session 2 is served while session 1 waits for bytes of its visitor.
#[test]
fn a_visitor_that_sends_nothing_holds_nobody_up(rt: HostRuntime) -> Result<(), Fail> {
    assert!(rt; overlaps(&rt, rt.alloc(), &QUERIES));
    Ok(())
}

/// The peer of session 1 calls the server while session 1 waits for its answer.
#[test]
fn a_peer_that_calls_back_is_answered(rt: HostRuntime) -> Result<(), Fail> {
    assert!(rt; overlaps(&rt, rt.alloc(), &REENTRANCE));
    Ok(())
}

/// Sessions one after the other, whichever comes first, don't come through.
#[test]
fn one_lock_round_each_session_is_noticed(rt: HostRuntime) -> Result<(), Fail> {
    let overlap = Overlap::new(1_000);
    overlap.enter(1);
    overlap.wait();
    overlap.leave(1);
    overlap.enter(2);
    overlap.leave(2);
    assert!(rt; !overlap.came_through());
    let overlap = Overlap::new(1_000);
    overlap.enter(2);
    overlap.leave(2);
    overlap.enter(1);
    overlap.wait();
    overlap.leave(1);
    assert!(rt; !overlap.came_through());
    Ok(())
}
