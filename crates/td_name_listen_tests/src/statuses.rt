//! The ends of a server that doesn't serve all visitors, with their statuses and lines.

use crate::messages::BIND;
use crate::visitors::{Reported, ends, guest};
use std::alloc::Global;
use std::sync::Wait;
use std::test::Fail;
use std::thread::Threads;
use td_accept::{MemAccept, NoGate};
use td_cdr::{List, Memory};
use td_name_sessions::KeepEnded;

/// Whether a server with these words and one visitor ends so, where these calls of its acceptor fail, and hands on so
/// many sessions at most, and the contexts or not.
fn comes<R: Threads + Wait + Sync>(
    rt: &R,
    alloc: Global,
    line: &str,
    failing: &[u64],
    content: Reported,
    sessions: usize,
    closed: bool,
) -> Result<bool, Memory> {
    let mut guests = List::new(alloc);
    guests.push(guest(alloc, BIND)?)?;
    let mut accept = MemAccept::new(alloc, guests, List::from_slice(alloc, failing)?);
    let mut ended = KeepEnded::new(alloc)?;
    let good = ends(rt, alloc, line, &NoGate, content, &mut accept, &mut ended)?;
    Ok(
        good && ended.names_sessions().len() <= sessions
            && ended.closed_naming().is_some() == closed,
    )
}

/// Words that are no such command.
const OTHERS: &str = "listen
listen names
listen names here
listen names here 1 2
listens names here 1
listen name here 1
names here 1
listen names here 65536
listen names here 01
listen names here -1
listen names here x";

/// Nothing was done.
const USAGE: Reported = Reported {
    status: 2,
    line: b"usage\n",
    bound: false,
};

#[test]
fn other_words_are_no_command(rt: HostRuntime) -> Result<(), Fail> {
    let alloc = rt.alloc();
    for line in OTHERS.lines() {
        assert!(rt; comes(&rt, alloc, line, &[], USAGE, 0, false)?, "at {line}");
    }
    Ok(())
}

/// The acceptor failed, when it was bound or not.
const fn failed(bound: bool) -> Reported {
    Reported {
        status: 11,
        line: b"status 11\n",
        bound,
    }
}

/// The first call of the acceptor binds it, and each other one waits for a visitor.
#[test]
fn a_failed_acceptor_has_status_11(rt: HostRuntime) -> Result<(), Fail> {
    let alloc = rt.alloc();
    let line = "listen names here 1";
    assert!(rt;
        comes(&rt, alloc, line, &[1], failed(false), 0, false)?,
        "bind"
    );
    assert!(rt;
        comes(&rt, alloc, line, &[2], failed(true), 0, false)?,
        "the first visitor"
    );
    assert!(rt;
        comes(&rt, alloc, line, &[3], failed(true), 1, false)?,
        "behind it"
    );
    Ok(())
}
