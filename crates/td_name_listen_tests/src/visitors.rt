//! Visitors of a server in memory.

use crate::messages::{BIND, BOUND, GO_ROUND, GONE_ROUND, LETTER, MADE, MAKE, RESOLVE, RESOLVED};
use std::alloc::Global;
use std::sync::Wait;
use std::sync::atomic::{AtomicU64, Ordering};
use std::test::Fail;
use std::thread::Threads;
use td_accept::{Gate, Limited, MemAccept, NoGate, Visitor};
use td_cdr::{List, Memory, Octets};
use td_name_listen::listen_names;
use td_name_session::End;
use td_name_sessions::KeepEnded;
use td_names::NameAct;
use td_naming::{NameChange, Naming};
use td_out::{MemSink, MemSource, MemWords};
use td_wire::MemWire;

/// A visitor that lies in memory.
pub(crate) type Guest = Visitor<MemSource, MemSink, MemWire, MemWords>;

/// An acceptor of such visitors.
pub(crate) type Guests = MemAccept<MemSource, MemSink, MemWire, MemWords>;

/// A session as it was handed on: its number, its visitor, how it ended, that its visitor was limited, and its
/// journal.
type Session = (u64, Guest, End, Option<Limited>, List<u64>);

/// The words of a line.
pub(crate) fn words(alloc: Global, line: &str) -> Result<Vec<String>, Memory> {
    let mut words = Vec::new(alloc);
    for word in line.split(' ') {
        words.push(String::from_str(alloc, word)?)?;
    }
    Ok(words)
}

/// A visitor that sends these bytes.
pub(crate) fn guest(alloc: Global, sends: &[u8]) -> Result<Guest, Memory> {
    let bytes = Octets::from_slice(alloc, sends)?;
    Ok(Visitor {
        source: MemSource::new(bytes, List::new(alloc), List::new(alloc)),
        sink: MemSink::new(alloc, List::new(alloc)),
        wire: MemWire::new(alloc, List::new(alloc), List::new(alloc)),
        words: MemWords::new(List::new(alloc)),
    })
}

/// How a server is to end: its status, its line, and whether its acceptor is bound once, to `here`, port 1.
#[derive(Clone, Copy)]
pub(crate) struct Reported {
    pub status: u8,
    pub line: &'static [u8],
    pub bound: bool,
}

/// Whether a server with these words ends so.
pub(crate) fn ends<G: Gate, R: Threads + Wait + Sync>(
    rt: &R,
    alloc: Global,
    line: &str,
    gate: &G,
    content: Reported,
    accept: &mut Guests,
    ended: &mut KeepEnded<Guest>,
) -> Result<bool, Memory> {
    let args = words(alloc, line)?;
    let mut faults = MemSink::new(alloc, List::new(alloc));
    let status = listen_names(rt, alloc, args.as_slice(), accept, gate, &mut faults, ended);
    Ok(
        status == content.status
            && faults.written() == content.line
            && is_bound(accept) == content.bound,
    )
}

/// Whether the acceptor was bound once, to `here`, port 1.
fn is_bound(accept: &Guests) -> bool {
    match accept.addresses() {
        [address] => address.host.as_slice() == b"here".as_slice() && address.port == 1,
        _ => false,
    }
}

/// The server at `here`, port 1, that serves all.
const SERVES: Reported = Reported {
    status: 0,
    line: b"",
    bound: true,
};

/// A gate that holds session 2 up until session 1 has left.
#[derive(Drop)]
struct InTurn {
    has_left: AtomicU64,
}

impl Gate for InTurn {
    fn enter(&self, session: u64) {
        if session == 2 {
            for _ in 0..100_000_000 {
                if self.has_left.load(Ordering::SeqCst) == 1 {
                    return;
                }
                std::thread::yield_now();
            }
        }
    }

    fn leave(&self, session: u64) {
        if session == 1 {
            self.has_left.store(1, Ordering::SeqCst);
        }
    }
}

/// Whether a session was closed, with this answer and these points.
fn was_served(session: &Session, answer: &[u8], points: &[u64]) -> bool {
    let (_, visitor, end, _, journal) = session;
    *end == End::Closed && visitor.sink.written() == answer && journal.as_slice() == points
}

/// Whether names go round for the second of two visitors, as the first has bound them.
fn goes_round<R: Threads + Wait + Sync>(rt: &R, alloc: Global) -> Result<bool, Memory> {
    let mut guests = List::new(alloc);
    guests.push(guest(alloc, MAKE)?)?;
    guests.push(guest(alloc, GO_ROUND)?)?;
    let mut accept = MemAccept::new(alloc, guests, List::new(alloc));
    let gate = InTurn {
        has_left: AtomicU64::new(0),
    };
    let mut ended = KeepEnded::new(alloc)?;
    let served = ends(
        rt,
        alloc,
        "listen names here 1",
        &gate,
        SERVES,
        &mut accept,
        &mut ended,
    )?;
    Ok(served && have_gone_round(&ended))
}

fn have_gone_round(ended: &KeepEnded<Guest>) -> bool {
    let sessions = ended.names_sessions().as_slice();
    sessions.len() == 2
        && sessions.iter().all(|session| match session.0 {
            1 => was_served(session, MADE, &[0, 1, 2]),
            _ => was_served(session, GONE_ROUND, &[3, 3]),
        })
        && changes(ended.closed_naming()) == Some(3)
}

/// How many changes the contexts have that were handed on.
fn changes(contexts: Option<&Naming>) -> Option<u64> {
    contexts.map(|contexts| contexts.point())
}

#[test]
fn names_go_round_over_two_connections(rt: HostRuntime) -> Result<(), Fail> {
    assert!(rt; goes_round(&rt, rt.alloc())?);
    Ok(())
}

/// A message whose name has this letter.
fn lettered(alloc: Global, message: &[u8], letter: u8) -> Result<Vec<u8>, Memory> {
    let mut lettered = Vec::from_slice(alloc, message)?;
    if let Some(at) = lettered.get_mut(LETTER) {
        *at = letter;
    }
    Ok(lettered)
}

/// A visitor that binds a name of its own, and resolves it.
fn binder(alloc: Global, letter: u8) -> Result<Guest, Memory> {
    let mut sends = lettered(alloc, BIND, letter)?;
    let resolve = lettered(alloc, RESOLVE, letter)?;
    sends.extend_from_slice(resolve.as_slice())?;
    guest(alloc, sends.as_slice())
}

/// What each of them is answered.
fn answer(alloc: Global) -> Result<Vec<u8>, Memory> {
    let mut answer = Vec::from_slice(alloc, BOUND)?;
    answer.extend_from_slice(RESOLVED)?;
    Ok(answer)
}

/// Whether each of eight visitors binds a name of its own and resolves it, and no two made one change.
fn each_binds<R: Threads + Wait + Sync>(rt: &R, alloc: Global) -> Result<bool, Memory> {
    let mut guests = List::new(alloc);
    for letter in b"abcdefgh" {
        guests.push(binder(alloc, *letter)?)?;
    }
    let mut accept = MemAccept::new(alloc, guests, List::new(alloc));
    let mut ended = KeepEnded::new(alloc)?;
    let served = ends(
        rt,
        alloc,
        "listen names here 1",
        &NoGate,
        SERVES,
        &mut accept,
        &mut ended,
    )?;
    let answer = answer(alloc)?;
    Ok(served && have_bound(&ended, answer.as_slice()))
}

fn have_bound(ended: &KeepEnded<Guest>, answer: &[u8]) -> bool {
    let sessions = ended.names_sessions().as_slice();
    sessions.len() == 8
        && (1..=8u64).all(|number| has_number(sessions, number))
        && (0..8u64).all(|place| has_point(sessions, place))
        && sessions.iter().all(|session| has_bound(session, answer))
        && match ended.closed_naming() {
            Some(contexts) => binds_each(contexts.history()),
            None => false,
        }
}

fn has_number(sessions: &[Session], number: u64) -> bool {
    sessions.iter().any(|session| session.0 == number)
}

/// Whether a session's first Request stands in the history at this place.
fn has_point(sessions: &[Session], place: u64) -> bool {
    sessions
        .iter()
        .any(|session| session.4.as_slice().first() == Some(&place))
}

/// Whether a session has bound its name, and has seen it bound afterwards.
fn has_bound(session: &Session, answer: &[u8]) -> bool {
    match session.4.as_slice() {
        [bound, seen] => bound < seen && was_served(session, answer, &[*bound, *seen]),
        _ => false,
    }
}

/// Whether each of eight changes binds in the root.
fn binds_each(history: &[NameChange]) -> bool {
    history.len() == 8
        && history.iter().all(|change| change.context == 1
            && matches!(change.act, NameAct::Bind { .. }))
}

#[test]
fn eight_connections_bind_in_one_root(rt: HostRuntime) -> Result<(), Fail> {
    assert!(rt; each_binds(&rt, rt.alloc())?);
    Ok(())
}
