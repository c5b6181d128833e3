//! Visitors who are served at the same time, and one after the other.

use crate::gates::{Crowded, Held};
use crate::visitors::{Case, Story, goes, serving};
use std::test::Fail;
use td_accept::{Gate, NoGate};

/// How often a session that is held up looks whether it may go in.
const LOOKS: u64 = 10_000_000;

/// The words of the server.
const LISTEN: [&str; 2] = ["listen", "printers"];

#[test]
fn each_visitor_gets_its_reply(rt: HostRuntime) -> Result<(), Fail> {
    let alloc = rt.alloc();
    let mut good = goes(&rt, alloc, &serving(&LISTEN, Story::Queries, 0), &NoGate);
    good &= goes(&rt, alloc, &serving(&LISTEN, Story::Queries, 2), &NoGate);
    good &= goes(&rt, alloc, &serving(&LISTEN, Story::Queries, 70), &NoGate);
    assert!(rt; good);
    Ok(())
}

/// Session 1 begins only once session 2 has left.
#[test]
fn two_visitors_are_served_at_the_same_time(rt: HostRuntime) -> Result<(), Fail> {
    let gate = Held::new(1, 1, 2, LOOKS);
    let good = goes(&rt, rt.alloc(), &serving(&LISTEN, Story::Queries, 2), &gate);
    assert!(rt; good && gate.came_through());
    Ok(())
}

/// Session 2 begins only once session 1 has left.
#[test]
fn visitors_find_what_others_exported(rt: HostRuntime) -> Result<(), Fail> {
    let gate = Held::new(2, 2, 1, LOOKS);
    let good = goes(&rt, rt.alloc(), &serving(&LISTEN, Story::Export, 2), &gate);
    assert!(rt; good && gate.came_through());
    Ok(())
}

/// The export and the description are two turns of one session.
#[test]
fn a_visitor_describes_what_it_exported(rt: HostRuntime) -> Result<(), Fail> {
    let good = goes(
        &rt,
        rt.alloc(),
        &serving(&LISTEN, Story::Describe, 1),
        &NoGate,
    );
    assert!(rt; good);
    Ok(())
}

/// Traders in a ring give their offers in order. The same query is a repeat in session 2, which begins only once
/// session 1 has left.
#[test]
fn a_ring_is_walked_once_by_two_visitors(rt: HostRuntime) -> Result<(), Fail> {
    let gate = Held::new(2, 2, 1, LOOKS);
    let case = serving(&["listen", "ring"], Story::Ring, 2);
    let good = goes(&rt, rt.alloc(), &case, &gate);
    assert!(rt; good && gate.came_through());
    Ok(())
}

#[test]
fn iterators_are_a_visitors_own(rt: HostRuntime) -> Result<(), Fail> {
    let alloc = rt.alloc();
    let gate = Held::new(2, 2, 1, LOOKS);
    let mut good = goes(&rt, alloc, &serving(&LISTEN, Story::Batches, 2), &gate);
    good &= goes(&rt, alloc, &serving(&LISTEN, Story::Batches, 9), &NoGate);
    assert!(rt; good && gate.came_through());
    Ok(())
}

/// A server that serves its visitors one after the other doesn't come through that gate.
#[test]
fn one_after_the_other_is_noticed(rt: HostRuntime) -> Result<(), Fail> {
    let gate = Held::new(1, 1, 2, 1_000);
    for session in 1..3 {
        gate.enter(session);
        gate.leave(session);
    }
    assert!(rt; !gate.came_through());
    Ok(())
}

/// The first 64 visitors each have a thread of their own, and are served without a limit. Behind them one is accepted
/// only once the one before was served, with its visitor limited.
#[test]
fn visitors_beyond_64_are_served_by_the_accepting_thread(rt: HostRuntime) -> Result<(), Fail> {
    let gate = Crowded::new(LOOKS);
    let case = Case {
        threads: Some(64),
        ..serving(&LISTEN, Story::Queries, 66)
    };
    let good = goes(&rt, rt.alloc(), &case, &gate);
    assert!(rt; good && gate.came_through());
    Ok(())
}
