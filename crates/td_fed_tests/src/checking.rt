//! Lines of words, and whether each comes to what it tells.

use crate::counting::are_counted;
use crate::faults::is_fault;
use crate::looking::{are_octets, is_home, tells};
use crate::making::file_of;
use crate::playing::is_played;
use crate::resolving::resolves;
use crate::serving::begins;
use crate::walking::walks;
use crate::words::{query, two};
use std::alloc::Global;
use std::process::Abort;
use std::test::Fail;
use td_cdr::Shared;
use td_file::{Opened, read_file};
use td_ops::Query;
use td_trader::Solo;
use td_walk::Address;

/// What a line is about. In each but `Play` a file stands first, up to a `;`.
#[derive(Clone, Copy)]
pub(crate) enum Case {
    /// The number and the cause with which a file is refused, or else what each of its traders has: `counting`.
    File,
    /// A look at what a file opens: `looking`.
    Look,
    /// Names of links: `resolving`.
    Name,
    /// A walk from A on: `walking`.
    Walk,
    /// A visit of A with given answers: `visiting`.
    Visit,
    /// What goes over the first link of A, or of the query's path: `passing`.
    Link,
    /// What goes along a path.
    Path,
    /// What goes to the trader of a proxy offer.
    Proxy,
    /// Whether the first link of A is followed.
    Follow,
    /// Calls of peers that answer by a script: `playing`.
    Play,
}

/// Checks each of these lines: what is asked, ` => `, and what it comes to.
pub(crate) fn check(rt: &impl Abort, alloc: Global, case: Case, lines: &str) -> Result<(), Fail> {
    for line in lines.lines() {
        assert!(rt; is_so(alloc, case, line), "{line}");
    }
    Ok(())
}

fn is_so(alloc: Global, case: Case, line: &str) -> bool {
    let (asked, content) = line.split_once(" => ").unwrap_or((line, ""));
    match case {
        Case::Play => is_played(alloc, asked, content),
        _ => is_content(alloc, case, asked, content),
    }
}

fn is_content(alloc: Global, case: Case, asked: &str, content: &str) -> bool {
    match file_of(alloc, case, asked) {
        Ok(text) => opens(alloc, case, text.as_slice(), asked, content),
        Err(_) => false,
    }
}

fn opens(alloc: Global, case: Case, text: &[u8], asked: &str, content: &str) -> bool {
    if text.len() > 100000 {
        return false;
    }
    match read_file(alloc, text) {
        Ok(mut opened) => {
            let passed = answers(alloc, case, &mut opened, asked, content);
            drop(opened);
            passed
        }
        Err(fault) => is_fault(fault, content),
    }
}

fn answers(alloc: Global, case: Case, opened: &mut Opened, asked: &str, content: &str) -> bool {
    let (_file, rest) = two(asked);
    match case {
        Case::File => are_counted(alloc, opened.solo.traders.as_slice(), content),
        Case::Look => is_seen(alloc, opened, rest, content),
        Case::Name => resolves(alloc, &mut opened.solo, &opened.home, rest, content).unwrap_or(
            false,
        ),
        _ => asks(alloc, case, &mut opened.solo, &opened.home, rest, content),
    }
}

/// Whether the address, the seed, or what the trader of a number tells is this: `address`, `seed`, or `NUMBER LOOK`.
fn is_seen(alloc: Global, opened: &Opened, words: &str, content: &str) -> bool {
    let (place, look) = words.split_once(' ').unwrap_or((words, ""));
    match place {
        "address" => is_home(&opened.home, content),
        "seed" => are_octets(opened.seed.as_slice(), content),
        _ => match opened.solo.traders.get(place.parse::<usize>().unwrap_or(9)) {
            Some(trader) => tells(alloc, trader, look, content),
            None => false,
        },
    }
}

/// Asks A, with what is tried first, and then the query: `TRIED;CONSTRAINT;PREFERENCE;POLICIES;DESIRED`.
fn asks(
    alloc: Global,
    case: Case,
    group: &mut Solo,
    home: &Address,
    asked: &str,
    content: &str,
) -> bool {
    let (tried, words) = two(asked);
    match query(alloc, words) {
        Ok(query) => is_answered(alloc, case, group, home, &query, tried, content),
        Err(_) => false,
    }
}

fn is_answered(
    alloc: Global,
    case: Case,
    group: &mut Solo,
    home: &Address,
    query: &Shared<Query>,
    tried: &str,
    content: &str,
) -> bool {
    match case {
        Case::Walk => walks(alloc, group, home, query, tried, content),
        _ => begins(alloc, case, group, query, tried, content),
    }
}
