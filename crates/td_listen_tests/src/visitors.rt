//! A server in memory: its words, its file, its visitors, and what it is to do.

use crate::messages::{
    ABSENT, BATCHES, BROKEN, DESCRIBED, EXPORT, EXPORT_AND_DESCRIBE, EXPORTED, FOUND, FOUND_NONE,
    FOUND_THREE, IN_BATCHES, NEXT, PRINTERS, QUERY, RING, RING_OFFERS, RING_QUERY,
};
use std::alloc::Global;
use std::sync::Wait;
use std::thread::Threads;
use td_accept::{Gate, Limited, MemAccept, Visitor};
use td_cdr::{List, Memory, Octets, Text};
use td_journal::KeptJournal;
use td_listen::serve;
use td_out::{MemSink, MemSource, MemTexts, MemWords};
use td_session::End;
use td_sessions::KeepEnded;
use td_trader::{Solo, Traders};
use td_wire::MemWire;

/// A visitor that lies in memory.
type Guest = Visitor<MemSource, MemSink, MemWire, MemWords>;

/// An acceptor of such visitors.
type Guests = MemAccept<MemSource, MemSink, MemWire, MemWords>;

/// A session as it was handed on: its number, its visitor, how it ended, that its visitor was limited, its journal.
type Session = (u64, Guest, End, Option<Limited>, KeptJournal);

/// What the visitors ask for.
#[derive(Clone, Copy, PartialEq, Eq)]
pub enum Story {
    /// Each for the printers.
    Queries,
    /// The first one exports a printer, and the others ask for all.
    Export,
    /// The first one takes the printers in two batches, and the others ask for the second one alone.
    Batches,
    /// Each exports a printer, and then has it described.
    Describe,
    /// Each asks the first one of three traders in a ring, under one identifier.
    Ring,
}

/// What one visitor sends, and what it is answered.
#[derive(Clone, Copy)]
struct Visit {
    sends: &'static [u8],
    answer: &'static [u8],
    /// How many requests it sends.
    requests: usize,
}

impl Story {
    /// What the visitor of this number does.
    fn visit(self, number: u64) -> Visit {
        let (sends, answer, requests) = match self {
            Story::Queries => (QUERY, FOUND, 1),
            Story::Export if number == 1 => (EXPORT, EXPORTED, 1),
            Story::Export => (QUERY, FOUND_THREE, 1),
            Story::Batches if number == 1 => (IN_BATCHES, BATCHES, 2),
            Story::Batches => (NEXT, ABSENT, 1),
            Story::Describe => (EXPORT_AND_DESCRIBE, DESCRIBED, 2),
            Story::Ring if number == 1 => (RING_QUERY, RING_OFFERS, 1),
            Story::Ring => (RING_QUERY, FOUND_NONE, 1),
        };
        Visit {
            sends,
            answer,
            requests,
        }
    }

    /// How many changes the first trader has seen in the end.
    fn changes(self) -> u64 {
        match self {
            Story::Export | Story::Describe => 1,
            _ => 0,
        }
    }

    /// How many traders there are.
    fn traders(self) -> usize {
        if self == Story::Ring { 3 } else { 1 }
    }
}

/// A server: its words, its visitors, and the calls of its acceptor and of its faults sink that fail; its status, its
/// line, and whether its acceptor is bound once, to the address of the file.
#[derive(Clone, Copy)]
pub struct Case<'a> {
    pub words: &'a [&'a str],
    pub story: Story,
    pub visitors: u64,
    pub accepts_failing: &'a [u64],
    pub writes_failing: &'a [u64],
    pub status: u8,
    pub line: &'a [u8],
    pub bound: bool,
    /// Up to which number each session has a thread of its own and none beyond does, where that is sure.
    pub threads: Option<u64>,
}

/// A server that serves so many visitors of this story.
pub const fn serving<'a>(words: &'a [&'a str], story: Story, visitors: u64) -> Case<'a> {
    Case {
        words,
        story,
        visitors,
        accepts_failing: &[],
        writes_failing: &[],
        status: 0,
        line: b"",
        bound: true,
        threads: if visitors <= 64 { Some(64) } else { None },
    }
}

fn texts(alloc: Global) -> Result<MemTexts, Memory> {
    let mut files = List::new(alloc);
    for (name, text) in [("printers", PRINTERS), ("ring", RING), ("broken", BROKEN)] {
        let name = Text::from_slice(alloc, name.as_bytes())?;
        files.push((name, Octets::from_slice(alloc, text)?))?;
    }
    Ok(MemTexts::new(files, List::new(alloc)))
}

fn words(alloc: Global, words: &[&str]) -> Result<Vec<String>, Memory> {
    let mut all = Vec::new(alloc);
    for word in words {
        all.push(String::from_str(alloc, word)?)?;
    }
    Ok(all)
}

fn guest(alloc: Global, sends: &[u8]) -> Result<Guest, Memory> {
    let bytes = Octets::from_slice(alloc, sends)?;
    Ok(Visitor {
        source: MemSource::new(bytes, List::new(alloc), List::new(alloc)),
        sink: MemSink::new(alloc, List::new(alloc)),
        wire: MemWire::new(alloc, List::new(alloc), List::new(alloc)),
        words: MemWords::new(List::new(alloc)),
    })
}

fn all_guests(alloc: Global, case: &Case) -> Result<List<Guest>, Memory> {
    let mut all = List::new(alloc);
    for before in 0..case.visitors {
        all.push(guest(alloc, case.story.visit(before + 1).sends)?)?;
    }
    Ok(all)
}

fn guests(alloc: Global, case: &Case) -> Result<Guests, Memory> {
    let failing = List::from_slice(alloc, case.accepts_failing)?;
    Ok(MemAccept::new(alloc, all_guests(alloc, case)?, failing))
}

/// Whether the server does as said through this gate.
pub fn goes<G: Gate, R: Threads + Wait + Sync>(
    rt: &R,
    alloc: Global,
    case: &Case,
    gate: &G,
) -> bool {
    match guests(alloc, case) {
        Ok(mut accept) => {
            let answered = goes_with(rt, alloc, case, gate, &mut accept);
            let bound = is_bound(&accept);
            drop(accept);
            answered && bound == case.bound
        }
        Err(_) => false,
    }
}

/// The same over this acceptor, wherever it is bound.
fn goes_with<G: Gate, R: Threads + Wait + Sync>(
    rt: &R,
    alloc: Global,
    case: &Case,
    gate: &G,
    accept: &mut Guests,
) -> bool {
    match KeepEnded::new(alloc) {
        Ok(mut ended) => {
            let answered = answers(rt, alloc, case, gate, accept, &mut ended);
            let whole = has_ended(&ended, case);
            drop(ended);
            answered && whole
        }
        Err(_) => false,
    }
}

/// Whether `listen` has this status and leaves this line.
fn answers<G: Gate, R: Threads + Wait + Sync>(
    rt: &R,
    alloc: Global,
    case: &Case,
    gate: &G,
    accept: &mut Guests,
    ended: &mut KeepEnded<Guest, KeptJournal>,
) -> bool {
    match words(alloc, case.words) {
        Ok(args) => {
            let good = answers_words(rt, alloc, case, args.as_slice(), gate, accept, ended);
            drop(args);
            good
        }
        Err(_) => false,
    }
}

/// The same with these words.
fn answers_words<G: Gate, R: Threads + Wait + Sync>(
    rt: &R,
    alloc: Global,
    case: &Case,
    args: &[String],
    gate: &G,
    accept: &mut Guests,
    ended: &mut KeepEnded<Guest, KeptJournal>,
) -> bool {
    match texts(alloc) {
        Ok(mut files) => {
            let good = answers_over(rt, alloc, case, args, &mut files, gate, accept, ended);
            drop(files);
            good
        }
        Err(_) => false,
    }
}

/// The same over these files.
fn answers_over<G: Gate, R: Threads + Wait + Sync>(
    rt: &R,
    alloc: Global,
    case: &Case,
    args: &[String],
    files: &mut MemTexts,
    gate: &G,
    accept: &mut Guests,
    ended: &mut KeepEnded<Guest, KeptJournal>,
) -> bool {
    match List::from_slice(alloc, case.writes_failing) {
        Ok(failing) => {
            let mut faults = MemSink::new(alloc, failing);
            let status = serve(rt, alloc, args, files, accept, gate, &mut faults, ended);
            let good = status == case.status && faults.written() == case.line;
            drop(faults);
            good
        }
        Err(_) => false,
    }
}

/// Whether the acceptor was bound once, to the file's address.
fn is_bound(accept: &Guests) -> bool {
    match accept.addresses() {
        [address] => address.host.as_slice() == b"h".as_slice() && address.port == 9,
        _ => false,
    }
}

/// Whether all that is to be was handed on: each session and the traders where the status is 0, and otherwise no
/// traders. Each session that was handed on was served, whatever came behind it.
fn has_ended(ended: &KeepEnded<Guest, KeptJournal>, case: &Case) -> bool {
    let sessions = ended.sessions().as_slice();
    if !were_served(sessions, case) {
        return false;
    }
    if case.status != 0 {
        return ended.closed().is_none();
    }
    are_numbered(sessions, case.visitors) && have_come_to(ended.closed(), case.story)
}

/// Whether there is a session of each number up to this one, and no other.
fn are_numbered(sessions: &[Session], count: u64) -> bool {
    for before in 0..count {
        if !has_number(sessions, before + 1) {
            return false;
        }
    }
    sessions.len() as u64 == count
}

fn has_number(sessions: &[Session], number: u64) -> bool {
    for session in sessions {
        if session.0 == number {
            return true;
        }
    }
    false
}

fn were_served(sessions: &[Session], case: &Case) -> bool {
    for session in sessions {
        if !was_served(session, case) {
            return false;
        }
    }
    true
}

/// Whether the session was closed, with the replies to its requests and an entry in its journal for each of them. Its
/// visitor was limited where it had no thread of its own.
fn was_served(session: &Session, case: &Case) -> bool {
    let (number, visitor, end, limited, journal) = session;
    let visit = case.story.visit(*number);
    let as_told = match case.threads {
        Some(last) => limited.is_some() == (*number > last),
        None => true,
    };
    as_told
        && *end == End::Closed
        && visitor.sink.written() == visit.answer
        && journal.entries().len() == visit.requests
}

/// Whether the traders of the story were handed on, with its changes.
fn have_come_to(closed: Option<&Solo>, story: Story) -> bool {
    match closed {
        Some(solo) => {
            let count = solo.count();
            count > 0 && count == story.traders() && solo.point(0) == story.changes()
        }
        None => false,
    }
}
