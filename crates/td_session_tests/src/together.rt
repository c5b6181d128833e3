//! Replies go out together, and never later than the client or a peer waits for them.

ghost use Rattle.std.specs.Prelude.{◌≡◌, None};

use crate::answering::{nobody, trader_outside};
use crate::cut_tests::{QUERY, repeated};
use crate::journal::is_noted;
use crate::linking::OUTSIDE;
use crate::opening::{Server, opened_server};
use crate::story::{PRINTERS, Streams, read_streams};
use std::alloc::Global;
use std::cell::Cell;
use std::test::Fail;
use td_cdr::{Boxed, List, Memory, Octets, Text};
use td_file::FileFault;
use td_journal::KeptJournal;
use td_ops::Query;
use td_out::{Failed, MemSink, MemSource, MemWords, Sink, Source};
use td_peers::MemPeers;
use td_session::{End, Room, serve_connection};
use td_value::{Any, Ior, TypeCode};
use td_walk::{PeerFault, Peers, SubAnswer};

/// What the client has so far.
#[derive(Clone, Copy)]
struct Got {
    /// How many bytes.
    bytes: usize,
    /// By how many writes, those that failed with them.
    writes: usize,
}

/// A sink in memory that counts what it takes.
#[derive(Drop)]
struct Tap<'c> {
    got: &'c Cell<Got>,
    sink: MemSink,
}

impl<'c> Sink for Tap<'c> {
    ghost written = { λ _. None };

    ghost faults = { λ t. t.sink.calls.faults };

    ghost same = { λ _ _. Unit {0} };

    ghost same_on = { λ _ _ _ _ _. tt };

    fn write(&mut self, piece: &[u8]) -> Result<usize, Failed> {
        let Got { bytes, writes } = self.got.get();
        let writes = writes.saturating_add(1);
        match self.sink.write(piece) {
            Ok(size) => {
                let bytes = bytes.saturating_add(size);
                self.got.set(Got { bytes, writes });
                Ok(size)
            }
            Err(fault) => {
                self.got.set(Got { bytes, writes });
                Err(fault)
            }
        }
    }
}

/// A source in memory. The client sends no second piece before it has so many bytes; read before, it fails.
#[derive(Drop)]
struct Supply<'c> {
    got: &'c Cell<Got>,
    source: MemSource,
    least: usize,
    has_read: bool,
    faults: u64,
}

impl<'c> Source for Supply<'c> {
    ghost left = { λ _. None };

    ghost faults = { λ s. s.faults };

    ghost same = { λ _ _. Unit {0} };

    ghost same_on = { λ _ _ _ _ _. tt };

    fn read(&mut self, into: &mut [u8]) -> Result<usize, Failed> {
        let waits = self.has_read && self.got.get().bytes < self.least;
        self.has_read = true;
        if waits {
            self.faults = self.faults.saturating_add(1);
            return Err(Failed);
        }
        match self.source.read(into) {
            Ok(size) => Ok(size),
            Err(fault) => {
                self.faults = self.faults.saturating_add(1);
                Err(fault)
            }
        }
    }
}

/// How many calls of peers are looked at.
const CALLS: usize = 5;

/// Peers by a script, and how many bytes the client has at each call.
#[derive(Drop)]
struct Watched<'c> {
    got: &'c Cell<Got>,
    peers: MemPeers,
    had: [usize; CALLS],
    called: usize,
}

impl<'c> Watched<'c> {
    ghost use Rattle.std.specs.Prelude.{◌≡◌};

    /// A call is made.
    fn look(&mut self)
        ensures { self.new.peers ≡ self.old.peers }
    {
        if self.called < CALLS {
            self.had[self.called] = self.got.get().bytes;
        }
        self.called = self.called.saturating_add(1);
    }
}

impl<'c> Peers for Watched<'c> {
    ghost calls = { λ w. w.peers.calls };

    ghost faults = { λ w. w.peers.faults };

    ghost same = { λ _ _. Unit {0} };

    ghost same_self = { λ _. tt };

    ghost same_on = { λ _ _ _ _ _. tt };

    fn query(&mut self, alloc: Global, target: &Ior, q: &Query) -> Result<SubAnswer, PeerFault> {
        self.look();
        self.peers.query(alloc, target, q)
    }

    fn eval_dp(
        &mut self,
        alloc: Global,
        evaluator: &Ior,
        name: &Text,
        returned: &TypeCode,
        extra: &Any,
    ) -> Result<Boxed<Any>, PeerFault> {
        self.look();
        self.peers.eval_dp(alloc, evaluator, name, returned, extra)
    }

    fn register_of(&mut self, alloc: Global, lookup: &Ior) -> Result<Ior, PeerFault> {
        self.look();
        self.peers.register_of(alloc, lookup)
    }

    fn resolve(
        &mut self,
        alloc: Global,
        register: &Ior,
        name: &List<Text>,
    ) -> Result<Ior, PeerFault> {
        self.look();
        self.peers.resolve(alloc, register, name)
    }

    fn tell_gifts(&self) {
        self.peers.tell_gifts();
    }
}

/// A client, and what comes of its session.
#[derive(Clone, Copy)]
struct Case {
    file: &'static str,
    /// What it sends, so many times, and what it would be answered.
    lines: &'static str,
    times: usize,
    /// The size of its first piece, and how many bytes it has before it sends the second.
    cut: usize,
    waits: usize,
    /// The write that fails, counted from 1.
    failing: u64,
    end: End,
    /// How many bytes are written, and by how many writes.
    wrote: usize,
    writes: usize,
    /// How many bytes the client has at each call of a peer.
    had: [usize; CALLS],
    journal: &'static str,
}

/// Where a session of this server, whose output this is, comes so.
fn comes_so(
    alloc: Global,
    server: Server,
    input: Vec<u8>,
    output: &[u8],
    case: &Case,
) -> Result<bool, Memory> {
    let Server {
        home,
        mut solo,
        peers,
    } = server;
    let got = Cell::new(Got {
        bytes: 0,
        writes: 0,
    });
    let mut source = Supply {
        got: &got,
        source: MemSource::new(
            Octets::from_vec(input),
            List::from_slice(alloc, &[case.cut])?,
            List::new(alloc),
        ),
        least: case.waits,
        has_read: false,
        faults: 0,
    };
    let mut sink = Tap {
        got: &got,
        sink: MemSink::new(alloc, List::from_slice(alloc, &[case.failing])?),
    };
    let mut peers = Watched {
        got: &got,
        peers,
        had: [0; CALLS],
        called: 0,
    };
    let mut room = Room::<KeptJournal>::new(alloc, home)?;
    let mut words = MemWords::new(List::new(alloc));
    let end = serve_connection(
        alloc,
        &mut solo,
        &mut room,
        &mut source,
        &mut sink,
        &mut peers,
        &mut words,
    );
    let wrote = output.get(..case.wrote) == Some(sink.sink.written());
    let noted = is_noted(room.journal(), case.journal);
    drop(room);
    Ok(
        end == case.end
            && wrote
            && noted
            && peers.had == case.had
            && got.get().writes == case.writes,
    )
}

/// Whether it comes so.
fn comes(alloc: Global, peers: MemPeers, case: &Case) -> Result<bool, FileFault> {
    let server = opened_server(alloc, case.file.as_bytes(), peers)?;
    match streams(alloc, case) {
        Ok(Streams { input, written }) => {
            comes_so(alloc, server, input, &written, case).map_err(|_| FileFault::Memory)
        }
        Err(_) => {
            drop(server);
            Err(FileFault::Memory)
        }
    }
}

/// The client's bytes, and all that it would be answered.
fn streams(alloc: Global, case: &Case) -> Result<Streams, Memory> {
    let Streams { input, written } = read_streams(alloc, case.lines)?;
    match (
        repeated(alloc, &input, case.times),
        repeated(alloc, &written, case.times),
    ) {
        (Ok(input), Ok(written)) => Ok(Streams { input, written }),
        _ => Err(Memory),
    }
}

/// Two queries at once, of 88 bytes, whose replies have 156.
const TWO: Case = Case {
    file: PRINTERS,
    lines: QUERY,
    times: 2,
    cut: 176,
    waits: 0,
    failing: 0,
    end: End::Closed,
    wrote: 312,
    writes: 1,
    had: [0; CALLS],
    journal: "A. A.",
};

#[test]
fn a_client_waits_for_no_reply(rt: HostRuntime) -> Result<(), Fail> {
    let alloc = rt.alloc();
    assert!(rt;
        comes(alloc, nobody(alloc), &TWO) == Ok(true),
        "both of a piece by one write"
    );
    let each = Case {
        cut: 88,
        waits: 156,
        writes: 2,
        ..TWO
    };
    assert!(rt;
        comes(alloc, nobody(alloc), &each) == Ok(true),
        "the second comes once the first is answered"
    );
    let half = Case { cut: 130, ..each };
    assert!(rt;
        comes(alloc, nobody(alloc), &half) == Ok(true),
        "half of the second stands behind the first"
    );
    let late = Case {
        waits: 157,
        end: End::ReadFault,
        wrote: 156,
        writes: 1,
        journal: "A.",
        ..half
    };
    assert!(rt;
        comes(alloc, nobody(alloc), &late) == Ok(true),
        "the source sees what the client has"
    );
    Ok(())
}

/// Seven Requests at once, of which the first, the fourth and the last three ask a peer.
fn asking() -> Case {
    Case {
        file: OUTSIDE.file,
        lines: OUTSIDE.lines,
        times: 1,
        cut: 8192,
        waits: 0,
        failing: 0,
        end: End::Closed,
        wrote: 522,
        writes: 5,
        had: [0, 247, 318, 420, 478],
        journal: OUTSIDE.journal,
    }
}

#[test]
fn replies_go_out_before_a_peer_is_asked(rt: HostRuntime) -> Result<(), Fail> {
    let alloc = rt.alloc();
    assert!(rt;
        comes(alloc, trader_outside(alloc)?, &asking()) == Ok(true),
        "those of all Requests before"
    );
    let fails = Case {
        failing: 3,
        end: End::WriteFault,
        wrote: 318,
        writes: 3,
        had: [0, 247, 318, 318, 0],
        journal: "?0 1 1 ?1 ?1 Ao.",
        ..asking()
    };
    assert!(rt;
        comes(alloc, trader_outside(alloc)?, &fails) == Ok(true),
        "where that fails the walk goes on, and nothing behind it"
    );
    Ok(())
}
