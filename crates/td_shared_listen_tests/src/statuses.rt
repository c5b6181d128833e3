//! The ends of a server that doesn't serve all visitors, with their statuses and lines.

use crate::messages::NEXT;
use crate::visitors::{Reported, ends, guest};
use std::alloc::Global;
use std::sync::Wait;
use std::test::Fail;
use std::thread::Threads;
use td_accept::{MemAccept, NoGate};
use td_cdr::{List, Memory};
use td_shared_sessions::KeepEnded;

/// Whether a server with these words and one visitor ends so, where these calls of its acceptor fail, and hands on so
/// many sessions at most, and no traders.
fn comes<R: Threads + Wait + Sync>(
    rt: &R,
    alloc: Global,
    line: &str,
    failing: &[u64],
    content: Reported,
    sessions: usize,
) -> Result<bool, Memory> {
    let mut guests = List::new(alloc);
    guests.push(guest(alloc, NEXT)?)?;
    let mut accept = MemAccept::new(alloc, guests, List::from_slice(alloc, failing)?);
    let mut ended = KeepEnded::new(alloc)?;
    let good = ends(rt, alloc, line, &NoGate, content, &mut accept, &mut ended)?;
    Ok(good && ended.shared_sessions().len() <= sessions && ended.closed().is_none())
}

/// Words that are no such command.
const OTHERS: &str = "listen
listen offers
listen offers share
listen offers shared shared
listen shared offers
listens offers shared
pipe offers shared
offers listen shared";

/// How a server ends that was never bound.
const fn unbound(status: u8, line: &'static [u8]) -> Reported {
    Reported {
        status,
        line,
        bound: false,
    }
}

#[test]
fn other_words_are_no_command(rt: HostRuntime) -> Result<(), Fail> {
    let alloc = rt.alloc();
    for line in OTHERS.lines() {
        assert!(rt;
            comes(&rt, alloc, line, &[], unbound(2, b"usage\n"), 0)?,
            "at {line}"
        );
    }
    Ok(())
}

#[test]
fn a_refused_or_missing_file_is_reported(rt: HostRuntime) -> Result<(), Fail> {
    let alloc = rt.alloc();
    let broken = unbound(3, b"line 3: words\n");
    assert!(rt;
        comes(&rt, alloc, "listen broken shared", &[], broken, 0)?,
        "broken"
    );
    let absent = unbound(10, b"status 10\n");
    assert!(rt;
        comes(&rt, alloc, "listen absent shared", &[], absent, 0)?,
        "absent"
    );
    Ok(())
}

/// The acceptor failed, when it was bound or not.
const fn failed(bound: bool) -> Reported {
    Reported {
        status: 11,
        line: b"status 11\n",
        bound,
    }
}

/// The first call of the acceptor binds it, and each other one waits for a visitor.
#[test]
fn a_failed_acceptor_has_status_11(rt: HostRuntime) -> Result<(), Fail> {
    let alloc = rt.alloc();
    let line = "listen offers shared";
    assert!(rt; comes(&rt, alloc, line, &[1], failed(false), 0)?, "bind");
    assert!(rt;
        comes(&rt, alloc, line, &[2], failed(true), 0)?,
        "the first visitor"
    );
    assert!(rt;
        comes(&rt, alloc, line, &[3], failed(true), 1)?,
        "behind it"
    );
    Ok(())
}
