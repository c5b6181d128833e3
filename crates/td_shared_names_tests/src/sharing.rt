//! Sessions that share naming contexts, one call after the other.

ghost use Rattle.td_shared_names.specs.Sharing.{IsOpeningOf, OutStays, SamePass};

use crate::calls::{is_so, root_alone};
use std::alloc::Global;
use std::process::Abort;
use std::sync::Wait;
use std::test::Fail;
use td_cdr::Memory;
use td_cell::Pass;
use td_naming::{Names, Naming};
use td_shared_names::{NameBook, NamePass, SharedNames};

/// The contexts in the end; none where closing is refused.
pub(crate) fn closed(shared: SharedNames, pass: Pass<NameBook>) -> Option<Naming>
    requires { IsOpeningOf shared.cell pass }
{
    match shared.close(pass) {
        Ok(contexts) => Some(contexts),
        Err(refused) => {
            drop(refused);
            None
        }
    }
}

/// Makes the calls of lines, and says whether each is answered so.
pub(crate) fn makes<'a, R: Wait>(
    alloc: Global,
    mut session: NamePass<'a, R>,
    lines: &str,
) -> (NamePass<'a, R>, bool)
    ensures { SamePass session.entry.pass result.0.pass }
{
    let mut good = true;
    for line in lines.lines() {
        good &= is_so(alloc, &mut session, line);
    }
    (session, good)
}

/// The first session makes a context, in which the second binds the root, so that names go round.
const FIRST: &str = "1 bind_new_context a = context
1 resolve au = missing node, 1 left";

const SECOND: &str = "1 bind_new_context a = already
2 bind_root u = done
1 bind x = done
1 resolve auaux = object";

const AGAIN: &str = "1 resolve auaux = object
1 resolve xy = not context, 2 left
2 destroy = not empty
2 unbind u = done
2 destroy = done
2 destroy = system
1 resolve ax = cannot proceed";

/// Two sessions that each see what the other did.
fn in_turns<R: Wait>(
    rt: &R,
    alloc: Global,
    shared: &SharedNames,
    pass: &mut Pass<NameBook>,
) -> Result<bool, Memory>
    requires { IsOpeningOf shared.now.cell pass.old }
    ensures { IsOpeningOf shared.now.cell pass.new }
{
    let first = shared.pass(rt, pass)?;
    match shared.pass(rt, pass) {
        Ok(second) => {
            let (first, made) = makes(alloc, first, FIRST);
            let (second, bound) = makes(alloc, second, SECOND);
            let (first, seen) = makes(alloc, first, AGAIN);
            let points = first.point() == 5 && second.point() == 3;
            shared.take_in(pass, first);
            shared.take_in(pass, second);
            Ok(made && bound && seen && points)
        }
        Err(memory) => {
            drop(first);
            Err(memory)
        }
    }
}

/// Whether they do, and how many changes the contexts have in the end.
fn two_in_turns<R: Wait>(rt: &R, alloc: Global) -> Result<Option<u64>, Memory> {
    let (shared, mut pass) = SharedNames::open(alloc, root_alone(alloc)?)?;
    match in_turns(rt, alloc, &shared, &mut pass) {
        Ok(true) => Ok(changes(closed(shared, pass))),
        _ => Ok(None),
    }
}

/// How many changes there were.
pub(crate) fn changes(contexts: Option<Naming>) -> Option<u64> {
    let count = match &contexts {
        Some(contexts) => Some(contexts.point()),
        None => None,
    };
    drop(contexts);
    count
}

#[test]
fn names_go_round_over_two_sessions(rt: HostRuntime) -> Result<(), Fail> {
    assert_eq!(rt; two_in_turns(&rt, rt.alloc())?, Some(5));
    Ok(())
}

/// A session that goes on keeps the contexts from being taken out.
fn refuses_while_one_goes_on<R: Wait>(rt: &R, alloc: Global) -> Result<bool, Memory> {
    let (shared, mut pass) = SharedNames::open(alloc, root_alone(alloc)?)?;
    match begins(rt, &shared, &mut pass) {
        Ok(()) => Ok(closed(shared, pass).is_none()),
        Err(memory) => {
            drop(pass);
            drop(shared);
            Err(memory)
        }
    }
}

/// A session begins, and isn't taken in.
fn begins<R: Wait>(rt: &R, shared: &SharedNames, pass: &mut Pass<NameBook>) -> Result<(), Memory>
    requires { IsOpeningOf shared.now.cell pass.old }
    ensures { IsOpeningOf shared.now.cell pass.new }
{
    let session = shared.pass(rt, pass)?;
    drop(session);
    Ok(())
}

#[test]
fn contexts_are_taken_out_once_all_sessions_have_ended(rt: HostRuntime) -> Result<(), Fail> {
    assert!(rt; refuses_while_one_goes_on(&rt, rt.alloc())?);
    Ok(())
}
