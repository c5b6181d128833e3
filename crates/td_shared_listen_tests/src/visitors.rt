//! Visitors of a server in memory.

use crate::messages::{BROKEN, FIRST_FIVE, LAST_TWO, NEXT, OFFERS, QUERY_AND_NEXT};
use std::alloc::Global;
use std::sync::Wait;
use std::sync::atomic::{AtomicU64, Ordering};
use std::test::Fail;
use std::thread::Threads;
use td_accept::{Gate, Limited, MemAccept, Visitor};
use td_cdr::{List, Memory, Octets, Text};
use td_out::{MemSink, MemSource, MemTexts, MemWords};
use td_session::End;
use td_shared::{KeptSharedJournal, SharedEntry};
use td_shared_listen::listen_sharing;
use td_shared_sessions::KeepEnded;
use td_wire::MemWire;

/// A visitor that lies in memory.
pub(crate) type Guest = Visitor<MemSource, MemSink, MemWire, MemWords>;

/// An acceptor of such visitors.
pub(crate) type Guests = MemAccept<MemSource, MemSink, MemWire, MemWords>;

/// A session as it was handed on: its number, its visitor, how it ended, that its visitor was limited, and its
/// journal.
type Session = (u64, Guest, End, Option<Limited>, KeptSharedJournal);

/// The words of a line.
fn words(alloc: Global, line: &str) -> Result<Vec<String>, Memory> {
    let mut words = Vec::new(alloc);
    for word in line.split(' ') {
        words.push(String::from_str(alloc, word)?)?;
    }
    Ok(words)
}

/// The files `offers` and `broken`.
fn texts(alloc: Global) -> Result<MemTexts, Memory> {
    let mut files = List::new(alloc);
    for (name, text) in [("offers", OFFERS), ("broken", BROKEN)] {
        let name = Text::from_slice(alloc, name.as_bytes())?;
        files.push((name, Octets::from_slice(alloc, text)?))?;
    }
    Ok(MemTexts::new(files, List::new(alloc)))
}

/// A visitor that sends these bytes.
pub(crate) fn guest(alloc: Global, sends: &[u8]) -> Result<Guest, Memory> {
    let bytes = Octets::from_slice(alloc, sends)?;
    Ok(Visitor {
        source: MemSource::new(bytes, List::new(alloc), List::new(alloc)),
        sink: MemSink::new(alloc, List::new(alloc)),
        wire: MemWire::new(alloc, List::new(alloc), List::new(alloc)),
        words: MemWords::new(List::new(alloc)),
    })
}

/// How a server is to end: its status, its line, and whether its acceptor is bound once, to the address of its file.
#[derive(Clone, Copy)]
pub(crate) struct Reported {
    pub status: u8,
    pub line: &'static [u8],
    pub bound: bool,
}

/// Whether a server with these words ends so.
pub(crate) fn ends<G: Gate, R: Threads + Wait + Sync>(
    rt: &R,
    alloc: Global,
    line: &str,
    gate: &G,
    content: Reported,
    accept: &mut Guests,
    ended: &mut KeepEnded<Guest, KeptSharedJournal>,
) -> Result<bool, Memory> {
    let args = words(alloc, line)?;
    let mut files = texts(alloc)?;
    let mut faults = MemSink::new(alloc, List::new(alloc));
    let status = listen_sharing(
        rt,
        alloc,
        args.as_slice(),
        &mut files,
        accept,
        gate,
        &mut faults,
        ended,
    );
    Ok(
        status == content.status
            && faults.written() == content.line
            && is_bound(accept) == content.bound,
    )
}

/// Whether the acceptor was bound once, to the host `h`, port 9.
fn is_bound(accept: &Guests) -> bool {
    match accept.addresses() {
        [address] => address.host.as_slice() == b"h".as_slice() && address.port == 9,
        _ => false,
    }
}

/// A gate that holds session 2 up until session 1 has left.
#[derive(Drop)]
struct InTurn {
    has_left: AtomicU64,
}

impl Gate for InTurn {
    fn enter(&self, session: u64) {
        if session == 2 {
            for _ in 0..100_000_000 {
                if self.has_left.load(Ordering::SeqCst) == 1 {
                    return;
                }
                std::thread::yield_now();
            }
        }
    }

    fn leave(&self, session: u64) {
        if session == 1 {
            self.has_left.store(1, Ordering::SeqCst);
        }
    }
}

/// The place of a call in the desk's history; none of a message that the traders served.
fn place_of(entry: &SharedEntry) -> Option<u64> {
    match entry {
        SharedEntry::Desk(place) => Some(*place),
        SharedEntry::Session(_) => None,
    }
}

/// Whether a session was closed, with this answer, and so much was noted of its messages, in order.
fn was_served(session: &Session, answer: &[u8], places: &[Option<u64>]) -> bool {
    let (_, visitor, end, _, journal) = session;
    let noted = journal.entries();
    *end == End::Closed
        && visitor.sink.written() == answer
        && noted.len() == places.len()
        && noted
            .iter()
            .zip(places.iter())
            .all(|(entry, place)| place_of(entry) == *place)
}

/// Whether the second of two visitors is given the offers that are left of the first one's iterator.
fn goes_on<R: Threads + Wait + Sync>(rt: &R, alloc: Global) -> Result<bool, Memory> {
    let mut guests = List::new(alloc);
    guests.push(guest(alloc, QUERY_AND_NEXT)?)?;
    guests.push(guest(alloc, NEXT)?)?;
    let mut accept = MemAccept::new(alloc, guests, List::new(alloc));
    let gate = InTurn {
        has_left: AtomicU64::new(0),
    };
    let mut ended = KeepEnded::new(alloc)?;
    let content = Reported {
        status: 0,
        line: b"",
        bound: true,
    };
    let line = "listen offers shared";
    let served = ends(rt, alloc, line, &gate, content, &mut accept, &mut ended)?;
    Ok(served && have_gone_on(&ended))
}

/// On the desk a number was drawn and the iterator put there; then there were two calls of it.
fn have_gone_on(ended: &KeepEnded<Guest, KeptSharedJournal>) -> bool {
    let sessions = ended.shared_sessions().as_slice();
    sessions.len() == 2
        && sessions.iter().all(|session| match session.0 {
            1 => was_served(session, FIRST_FIVE, &[None, Some(2)]),
            _ => was_served(session, LAST_TWO, &[Some(3)]),
        })
        && ended.closed().is_some()
}

#[test]
fn an_iterator_outlives_its_connection(rt: HostRuntime) -> Result<(), Fail> {
    assert!(rt; goes_on(&rt, rt.alloc())?);
    Ok(())
}
