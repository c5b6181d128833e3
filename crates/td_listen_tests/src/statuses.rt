//! The ends of a server that doesn't serve all visitors, with their statuses and lines.

use crate::visitors::{Case, Story, goes, serving};
use std::alloc::Global;
use std::sync::Wait;
use std::test::Fail;
use std::thread::Threads;
use td_accept::NoGate;

/// Whether `listen` with these words ends so before its acceptor was bound.
fn stops<R: Threads + Wait + Sync>(
    rt: &R,
    alloc: Global,
    words: &[&str],
    status: u8,
    line: &[u8],
) -> bool {
    let case = Case {
        status,
        line,
        bound: false,
        ..serving(words, Story::Queries, 2)
    };
    goes(rt, alloc, &case, &NoGate)
}

/// Whether it ends with status 11 where this call of the acceptor fails.
fn breaks<R: Threads + Wait + Sync>(rt: &R, alloc: Global, call: u64) -> bool {
    let case = Case {
        accepts_failing: &[call],
        status: 11,
        line: b"status 11\n",
        bound: call > 1,
        ..serving(&["listen", "printers"], Story::Queries, 2)
    };
    goes(rt, alloc, &case, &NoGate)
}

/// Whether these words are no command.
fn are_usage<R: Threads + Wait + Sync>(rt: &R, alloc: Global, words: &[&str]) -> bool {
    stops(rt, alloc, words, 2, b"usage\n")
}

/// Other words than `listen` and a name are no command.
#[test]
fn other_words_are_usage(rt: HostRuntime) -> Result<(), Fail> {
    let alloc = rt.alloc();
    let mut good = are_usage(&rt, alloc, &[]);
    good &= are_usage(&rt, alloc, &["listen"]);
    good &= are_usage(&rt, alloc, &["pipe", "printers"]);
    good &= are_usage(&rt, alloc, &["listens", "printers"]);
    good &= are_usage(&rt, alloc, &["printers", "listen"]);
    good &= are_usage(&rt, alloc, &["listen", "printers", "printers"]);
    assert!(rt; good);
    Ok(())
}

#[test]
fn a_refused_or_missing_file_is_reported(rt: HostRuntime) -> Result<(), Fail> {
    let alloc = rt.alloc();
    let mut good = stops(&rt, alloc, &["listen", "broken"], 3, b"line 3: words\n");
    good &= stops(&rt, alloc, &["listen", "absent"], 10, b"status 10\n");
    assert!(rt; good);
    Ok(())
}

/// The first call of the acceptor binds it, and each other one waits for a visitor.
#[test]
fn a_failed_acceptor_has_status_11(rt: HostRuntime) -> Result<(), Fail> {
    let alloc = rt.alloc();
    let mut good = breaks(&rt, alloc, 1);
    good &= breaks(&rt, alloc, 2);
    good &= breaks(&rt, alloc, 4);
    assert!(rt; good);
    Ok(())
}

/// The status is the same where the line for it can't be written.
#[test]
fn a_failed_faults_sink_loses_the_line(rt: HostRuntime) -> Result<(), Fail> {
    let case = Case {
        writes_failing: &[1],
        status: 2,
        bound: false,
        ..serving(&["listen"], Story::Queries, 2)
    };
    let good = goes(&rt, rt.alloc(), &case, &NoGate);
    assert!(rt; good);
    Ok(())
}
