//! Sinks that are closed: each once, by the thread that served its session, before the session's gate is left.

ghost use Rattle.std.specs.Prelude.{Some};

use crate::messages::{PRINTERS, QUERY};
use std::alloc::Global;
use std::sync::Wait;
use std::sync::atomic::{AtomicU64, Ordering};
use std::thread::Threads;
use td_accept::{ClientSink, Gate, MemAccept, Visitor};
use td_cdr::{List, Memory, Octets, Text};
use td_journal::PastJournal;
use td_listen::serve;
use td_out::{Failed, MemSink, MemSource, MemTexts, MemWords, Sink};
use td_sessions::DropEnded;
use td_wire::MemWire;

/// A CloseConnection, and bytes behind it that are no message.
const CLOSE: &[u8] = b"GIOP\x01\0\0\x05\0\0\0\0more";

/// A header with another magic, and bytes behind it.
const BAD: &[u8] = b"GIOQ\x01\0\0\0\0\0\0Lmore";

/// A gate that counts the sessions which have left, and the sinks that were closed.
#[derive(Drop)]
struct CountingGate {
    closes: AtomicU64,
    leaves: AtomicU64,
    /// A session has left whose sink wasn't closed.
    early: AtomicU64,
}

impl Gate for CountingGate {
    fn enter(&self, _session: u64) {}

    fn leave(&self, _session: u64) {
        let before = self.leaves.fetch_add(1, Ordering::SeqCst);
        if self.closes.load(Ordering::SeqCst) <= before {
            self.early.store(1, Ordering::SeqCst);
        }
    }
}

impl CountingGate {
    fn new() -> CountingGate {
        CountingGate {
            closes: AtomicU64::new(0),
            leaves: AtomicU64::new(0),
            early: AtomicU64::new(0),
        }
    }

    /// Whether so many sessions have left, each with its sink closed before, and no sink was closed twice.
    fn closed_all(&self, sessions: u64) -> bool {
        self.leaves.load(Ordering::SeqCst) == sessions
            && self.closes.load(Ordering::SeqCst) == sessions
            && self.early.load(Ordering::SeqCst) == 0
    }
}

/// A sink in memory that tells a gate that it was closed.
#[derive(Drop)]
struct CountedSink<'a> {
    sink: MemSink,
    gate: &'a CountingGate,
}

impl<'a> Sink for CountedSink<'a> {
    ghost written = { λ s. Some s.sink.written };

    ghost faults = { λ s. s.sink.calls.faults };

    ghost same = { λ _ _. Unit {0} };

    ghost same_on = { λ _ _ _ _ _. tt };

    fn write(&mut self, piece: &[u8]) -> Result<usize, Failed> {
        self.sink.write(piece)
    }
}

impl<'a> ClientSink for CountedSink<'a> {
    ghost closed = { λ _. Unit {0} };

    ghost limited = { λ _. Unit {0} };

    fn close(&mut self) {
        self.gate.closes.fetch_add(1, Ordering::SeqCst);
    }

    fn limit(&mut self) {}
}

/// Visitors: how many, what each sends, and which calls of their sources and sinks fail.
#[derive(Clone, Copy)]
struct Crowd {
    visitors: u64,
    sends: &'static [u8],
    reads_failing: &'static [u64],
    writes_failing: &'static [u64],
}

/// One visitor who sends this.
const fn one(sends: &'static [u8]) -> Crowd {
    Crowd {
        visitors: 1,
        sends,
        reads_failing: &[],
        writes_failing: &[],
    }
}

/// An acceptor of such visitors.
type Guests<'a> = MemAccept<MemSource, CountedSink<'a>, MemWire, MemWords>;

fn guest<'a>(
    alloc: Global,
    crowd: &Crowd,
    gate: &'a CountingGate,
) -> Result<Visitor<MemSource, CountedSink<'a>, MemWire, MemWords>, Memory> {
    let bytes = Octets::from_slice(alloc, crowd.sends)?;
    let reads_failing = List::from_slice(alloc, crowd.reads_failing)?;
    let writes_failing = List::from_slice(alloc, crowd.writes_failing)?;
    Ok(Visitor {
        source: MemSource::new(bytes, List::new(alloc), reads_failing),
        sink: CountedSink {
            sink: MemSink::new(alloc, writes_failing),
            gate,
        },
        wire: MemWire::new(alloc, List::new(alloc), List::new(alloc)),
        words: MemWords::new(List::new(alloc)),
    })
}

fn guests<'a>(alloc: Global, crowd: &Crowd, gate: &'a CountingGate) -> Result<Guests<'a>, Memory> {
    let mut all = List::new(alloc);
    for _ in 0..crowd.visitors {
        all.push(guest(alloc, crowd, gate)?)?;
    }
    Ok(MemAccept::new(alloc, all, List::new(alloc)))
}

fn texts(alloc: Global) -> Result<MemTexts, Memory> {
    let mut files = List::new(alloc);
    let name = Text::from_slice(alloc, b"printers")?;
    files.push((name, Octets::from_slice(alloc, PRINTERS)?))?;
    Ok(MemTexts::new(files, List::new(alloc)))
}

fn words(alloc: Global) -> Result<Vec<String>, Memory> {
    let mut all = Vec::new(alloc);
    for word in ["listen", "printers"] {
        all.push(String::from_str(alloc, word)?)?;
    }
    Ok(all)
}

/// Whether a server closes the sinks of these visitors.
fn closes<R: Threads + Wait + Sync>(rt: &R, alloc: Global, crowd: &Crowd) -> bool {
    let gate = CountingGate::new();
    match guests(alloc, crowd, &gate) {
        Ok(mut accept) => {
            let served = serves(rt, alloc, &mut accept, &gate);
            drop(accept);
            served && gate.closed_all(crowd.visitors)
        }
        Err(_) => false,
    }
}

/// Whether a server has no visitor left.
fn serves<'a, R: Threads + Wait + Sync>(
    rt: &R,
    alloc: Global,
    accept: &mut Guests<'a>,
    gate: &CountingGate,
) -> bool {
    let Ok(args) = words(alloc) else {
        return false;
    };
    let Ok(mut files) = texts(alloc) else {
        drop(args);
        return false;
    };
    let mut faults = MemSink::new(alloc, List::new(alloc));
    let mut ended = DropEnded::<PastJournal>::new();
    let args_ref = args.as_slice();
    let status = serve(
        rt,
        alloc,
        args_ref,
        &mut files,
        accept,
        gate,
        &mut faults,
        &mut ended,
    );
    status == 0
}

/// The client's half-close, in front of a message, behind it and inside it.
#[test]
fn sinks_are_closed_where_the_client_has_ended(rt: HostRuntime) {
    let alloc = rt.alloc();
    let mut good = closes(&rt, alloc, &one(b""));
    good &= closes(&rt, alloc, &one(QUERY));
    good &= closes(&rt, alloc, &one(b"GIOP\x01\0"));
    assert!(rt; good);
}

#[test]
fn sinks_are_closed_where_the_client_stays(rt: HostRuntime) {
    let alloc = rt.alloc();
    let mut good = closes(&rt, alloc, &one(CLOSE));
    good &= closes(&rt, alloc, &one(BAD));
    assert!(rt; good);
}

/// The read or the write fails.
#[test]
fn sinks_are_closed_where_the_outside_fails(rt: HostRuntime) {
    let alloc = rt.alloc();
    let read = Crowd {
        reads_failing: &[1],
        ..one(QUERY)
    };
    let write = Crowd {
        writes_failing: &[1],
        ..one(QUERY)
    };
    let good = closes(&rt, alloc, &read) && closes(&rt, alloc, &write);
    assert!(rt; good);
}

#[test]
fn each_of_many_sinks_is_closed_once(rt: HostRuntime) {
    let many = Crowd {
        visitors: 70,
        ..one(QUERY)
    };
    assert!(rt; closes(&rt, rt.alloc(), &many));
}
