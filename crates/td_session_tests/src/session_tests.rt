//! Worked sessions.

ghost use Rattle.std.specs.Prelude.{◌≤◌};

use crate::administration::{ATTRIBUTES, FEW_CHANGES, MARKS_OF_THREE, MARKS_OF_TWO, SETTINGS};
use crate::answering::{evaluator, nobody, trader_outside};
use crate::broken::*;
use crate::cities::{CITIES, CITIES_ALONE};
use crate::cities_file::cities;
use crate::linking::{HOPS, LINKS, OUTSIDE, RING, RULES};
use crate::offering::{BATCHES, MODIFIED, PROXIES};
use crate::opening::{Server, bounded_server, opened_server};
use crate::plain::{CLOSED, ERROR, NO_OFFERS, PLAIN, RANDOM, UNANSWERED, VALUES};
use crate::recursive::*;
use crate::repository::{MASKED, TYPES};
use crate::serving::{comes_true, is_content};
use crate::story::Story;
use std::alloc::Global;
use std::process::Abort;
use std::test::Fail;
use td_cdr::Memory;
use td_changes::Bounds;
use td_file::FileFault;
use td_peers::MemPeers;

/// Checks sessions, each with the traders of its own file.
fn come_true(rt: &impl Abort, alloc: Global, stories: &[Story]) -> Result<(), Fail> {
    for story in stories {
        assert!(rt; comes_true(alloc, story));
    }
    Ok(())
}

/// Queries of both orders, with and without a reply, and what isn't served.
#[test]
fn plain_queries(rt: HostRuntime) -> Result<(), Fail> {
    let stories = [PLAIN, NO_OFFERS, VALUES, UNANSWERED, RANDOM];
    come_true(&rt, rt.alloc(), &stories)
}

/// Types are added, described, masked and removed.
#[test]
fn types(rt: HostRuntime) -> Result<(), Fail> {
    come_true(&rt, rt.alloc(), &[MASKED, TYPES])
}

/// Types that hold themselves are kept with the bytes of their TypeCodes.
#[test]
fn recursive_types(rt: HostRuntime) -> Result<(), Fail> {
    come_true(&rt, rt.alloc(), &[RECURSIVE_TYPE])
}

/// Offers have values of such types, and keep their bytes.
#[test]
fn recursive_values(rt: HostRuntime) -> Result<(), Fail> {
    come_true(&rt, rt.alloc(), &[UNROLLED_VALUE, RECURSIVE_VALUE])
}

/// A value of another type is refused, and one that goes too deep.
#[test]
fn recursive_values_are_refused(rt: HostRuntime) -> Result<(), Fail> {
    come_true(&rt, rt.alloc(), &[OTHER_BOUND, PASSED_INDIRECTIONS])
}

/// A struct's second member has the first one's type, by an indirection.
#[test]
fn two_members_of_one_struct(rt: HostRuntime) -> Result<(), Fail> {
    come_true(&rt, rt.alloc(), &[TWO_OF_ONE_STRUCT])
}

/// Offers are exported, modified, listed in batches and withdrawn.
#[test]
fn offers(rt: HostRuntime) -> Result<(), Fail> {
    come_true(&rt, rt.alloc(), &[MODIFIED, BATCHES, PROXIES])
}

/// Queries go on along links, by hops, rules and marks, and links are added and removed.
#[test]
fn linked_traders(rt: HostRuntime) -> Result<(), Fail> {
    come_true(&rt, rt.alloc(), &[RING, HOPS, RULES, LINKS])
}

/// Attributes are read and set.
#[test]
fn attributes(rt: HostRuntime) -> Result<(), Fail> {
    come_true(&rt, rt.alloc(), &[ATTRIBUTES, SETTINGS])
}

/// Bytes that are no message to a server.
#[test]
fn sessions_break_off(rt: HostRuntime) -> Result<(), Fail> {
    let stories = [
        TOO_LARGE,
        BAD_MAGIC,
        BAD_VERSION,
        BAD_TYPE,
        REPLY,
        LOCATE_REPLY,
        CUT_ID,
        BAD_BOOLEAN,
        CUT_KEY,
        CUT_CANCEL,
    ];
    come_true(&rt, rt.alloc(), &stories)
}

/// A CloseConnection or a MessageError ends a session.
#[test]
fn sessions_are_closed(rt: HostRuntime) -> Result<(), Fail> {
    come_true(&rt, rt.alloc(), &[CLOSED, ERROR])
}

/// Whether a session of a server with these peers is as the story says.
fn is_content_among(
    alloc: Global,
    file: &[u8],
    peers: Result<MemPeers, Memory>,
    story: &Story,
) -> bool {
    match peers {
        Ok(peers) => is_content(alloc, opened_server(alloc, file, peers), story),
        Err(_) => false,
    }
}

/// A dynamic property is absent where its evaluator can't be reached.
#[test]
fn three_cities(rt: HostRuntime) -> Result<(), Fail> {
    let alloc = rt.alloc();
    let file = cities(alloc)?;
    assert!(rt; is_content_among(alloc, file.as_slice(), evaluator(alloc), &CITIES));
    assert!(rt; is_content_among(alloc, file.as_slice(), Ok(nobody(alloc)), &CITIES_ALONE));
    Ok(())
}

/// A trader outside is asked for its register, for a name and for offers.
#[test]
fn a_trader_outside(rt: HostRuntime) -> Result<(), Fail> {
    let alloc = rt.alloc();
    assert!(rt;
        is_content_among(
            alloc,
            OUTSIDE.file.as_bytes(),
            trader_outside(alloc),
            &OUTSIDE
        )
    );
    Ok(())
}

/// A trader that accepts so few changes, or remembers so few identifiers.
fn few(alloc: Global, ring: u32, changes: u64) -> Result<Server, FileFault>
    requires ring { 1 ≤ ring }
    requires least { ring ≤ 4096 }
{
    let bounds = Bounds {
        ring,
        changes,
        begins: 1000,
    };
    bounded_server(alloc, bounds, nobody(alloc))
}

#[test]
fn small_bounds(rt: HostRuntime) -> Result<(), Fail> {
    let alloc = rt.alloc();
    assert!(rt; is_content(alloc, few(alloc, 8, 4), &FEW_CHANGES));
    assert!(rt; is_content(alloc, few(alloc, 2, 100), &MARKS_OF_TWO));
    assert!(rt; is_content(alloc, few(alloc, 3, 100), &MARKS_OF_THREE));
    Ok(())
}
