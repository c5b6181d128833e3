//! Sessions that share traders, one call after the other.

ghost use Rattle.std.specs.List.{AllZip};
ghost use Rattle.td_group.specs.Grouping.{AreOpening, IsOut, OutStays, SamePasses};

use crate::sample::{ONE, TWO, adds, begins, describes, exports, lists, traders};
use std::alloc::Global;
use std::process::Abort;
use std::sync::Wait;
use std::test::Fail;
use td_cdr::Memory;
use td_cell::Pass;
use td_group::{Group, SharedTrader};
use td_trader::{Solo, Traders};

/// The traders of a group; nothing where closing is refused.
pub(crate) fn closed(group: Group, passes: Vec<Pass<SharedTrader>>) -> Option<Solo>
    requires { AreOpening group.cells.items passes.items }
{
    match group.close(passes) {
        Ok(solo) => Some(solo),
        Err(refused) => {
            drop(refused);
            None
        }
    }
}

/// How many changes the last of the traders has, and how many marks.
fn counts(solo: Option<Solo>) -> Option<(u64, u64)> {
    let counts = match &solo {
        Some(solo) => last_counts(solo),
        None => None,
    };
    drop(solo);
    counts
}

fn last_counts(solo: &Solo) -> Option<(u64, u64)> {
    let last = solo.traders.last()?;
    Some((last.point(), last.marks()))
}

/// Two sessions at the traders `A` and `B` that each see at `B` what the other did.
fn in_turns<R: Wait>(
    rt: &R,
    alloc: Global,
    group: &Group,
    passes: &mut Vec<Pass<SharedTrader>>,
) -> Result<bool, Memory>
    requires { AreOpening group.now.cells.items passes.old.items }
    ensures { AreOpening group.now.cells.items passes.new.items }
{
    let mut first = group.pass(rt, alloc, passes)?;
    let added = adds(alloc, &mut first, 1, "Scanner");
    match group.pass(rt, alloc, passes) {
        Ok(mut second) => {
            let seen = sees(alloc, &mut second);
            let seen_back = lists(&mut first, 1, 3);
            group.take_in(passes, first);
            group.take_in(passes, second);
            Ok(added && seen && seen_back)
        }
        Err(memory) => {
            drop(first);
            Err(memory)
        }
    }
}

/// Sees two types and adds another, and begins a query twice.
fn sees<T: Traders>(alloc: Global, traders: &mut T) -> bool
    ensures { T.same traders.old traders.new }
{
    let listed = lists(traders, 1, 2);
    let added = adds(alloc, traders, 1, "Plotter");
    let begun = begins(alloc, traders, 1);
    let again = begins(alloc, traders, 1);
    listed && added && begun == "search 1" && again == "repeat 1"
}

fn two_in_turns<R: Wait>(rt: &R, alloc: Global) -> Result<Option<(u64, u64)>, Memory> {
    let (group, mut passes) = Group::open(alloc, traders(alloc, TWO)?)?;
    match in_turns(rt, alloc, &group, &mut passes) {
        Ok(true) => Ok(counts(closed(group, passes))),
        _ => Ok(None),
    }
}

#[test]
fn what_two_sessions_do_is_one_history(rt: HostRuntime) -> Result<(), Fail> {
    assert_eq!(rt; two_in_turns(&rt, rt.alloc())?, Some((2, 1)));
    Ok(())
}

/// A session that begins once another has ended, beside a third that began before: it describes what was exported.
fn describes_later<R: Wait>(
    rt: &R,
    alloc: Global,
    group: &Group,
    passes: &mut Vec<Pass<SharedTrader>>,
) -> Result<bool, Memory>
    requires { AreOpening group.now.cells.items passes.old.items }
    ensures { AreOpening group.now.cells.items passes.new.items }
{
    let mut first = group.pass(rt, alloc, passes)?;
    match group.pass(rt, alloc, passes) {
        Ok(second) => {
            let exported = exports(alloc, &mut first, 0);
            group.take_in(passes, first);
            let described = describes_in_third(rt, alloc, group, passes);
            group.take_in(passes, second);
            match described {
                Ok(described) => Ok(exported && described),
                Err(memory) => Err(memory),
            }
        }
        Err(memory) => {
            drop(first);
            Err(memory)
        }
    }
}

fn describes_in_third<R: Wait>(
    rt: &R,
    alloc: Global,
    group: &Group,
    passes: &mut Vec<Pass<SharedTrader>>,
) -> Result<bool, Memory>
    requires { AreOpening group.now.cells.items passes.old.items }
    ensures opening { AreOpening group.now.cells.items passes.new.items }
    ensures stays { OutStays passes.old.items passes.new.items }
{
    let mut third = group.pass(rt, alloc, passes)?;
    let described = describes(alloc, &mut third, 0, "1");
    group.take_in(passes, third);
    Ok(described)
}

fn described_later<R: Wait>(rt: &R, alloc: Global) -> Result<Option<(u64, u64)>, Memory> {
    let (group, mut passes) = Group::open(alloc, traders(alloc, ONE)?)?;
    match describes_later(rt, alloc, &group, &mut passes) {
        Ok(true) => Ok(counts(closed(group, passes))),
        _ => Ok(None),
    }
}

#[test]
fn a_later_session_describes_what_an_ended_one_exported(rt: HostRuntime) -> Result<(), Fail> {
    assert_eq!(rt; described_later(&rt, rt.alloc())?, Some((1, 0)));
    Ok(())
}

/// One session that exports an offer and describes it.
fn exports_and_describes<R: Wait>(
    rt: &R,
    alloc: Global,
    group: &Group,
    passes: &mut Vec<Pass<SharedTrader>>,
) -> Result<bool, Memory>
    requires { AreOpening group.now.cells.items passes.old.items }
    ensures { AreOpening group.now.cells.items passes.new.items }
{
    let mut session = group.pass(rt, alloc, passes)?;
    let passed = exports_then_describes(alloc, &mut session);
    group.take_in(passes, session);
    Ok(passed)
}

fn exports_then_describes<T: Traders>(alloc: Global, traders: &mut T) -> bool
    ensures { T.same traders.old traders.new }
{
    let unknown = describes(alloc, traders, 0, "1");
    let exported = exports(alloc, traders, 0);
    let described = describes(alloc, traders, 0, "1");
    !unknown && exported && described
}

fn described_at_once<R: Wait>(rt: &R, alloc: Global) -> Result<Option<(u64, u64)>, Memory> {
    let (group, mut passes) = Group::open(alloc, traders(alloc, ONE)?)?;
    match exports_and_describes(rt, alloc, &group, &mut passes) {
        Ok(true) => Ok(counts(closed(group, passes))),
        _ => Ok(None),
    }
}

#[test]
fn a_session_describes_what_it_exported(rt: HostRuntime) -> Result<(), Fail> {
    assert_eq!(rt; described_at_once(&rt, rt.alloc())?, Some((1, 0)));
    Ok(())
}

/// Closes a group one of whose passes wasn't taken in.
fn closed_early<R: Wait>(rt: &R, alloc: Global) -> Result<Option<(u64, u64)>, Memory> {
    let (group, mut passes) = Group::open(alloc, traders(alloc, TWO)?)?;
    let out = group.pass(rt, alloc, &mut passes)?;
    drop(out);
    Ok(counts(closed(group, passes)))
}

#[test]
fn a_group_is_closed_only_once_all_are_taken_in(rt: HostRuntime) -> Result<(), Fail> {
    assert_eq!(rt; closed_early(&rt, rt.alloc())?, None);
    Ok(())
}
