//! Sessions on threads of their own.

ghost use Rattle.std.specs.List.{All, AllZip};
ghost use Rattle.std.specs.Prelude.{◌≡◌, ◌<◌, ℕ, IfOk, slice_index_or, vec_len};
ghost use Rattle.td_group.specs.Grouping.{AreOpening, IsOut, SamePasses};

use crate::sample::{ONE, exports, traders};
use crate::sharing::closed;
use std::alloc::{AllocError, Global};
use std::process::Abort;
use std::sync::Wait;
use std::test::Fail;
use std::thread::Threads;
use std::{mem, thread};
use td_cdr::Memory;
use td_cell::Pass;
use td_group::{Group, GroupPass, SharedTrader};
use td_ops::Reply;
use td_register::{Accepted, number_in};
use td_trader::Solo;

/// How many exports each session makes.
const EXPORTS: u32 = 50;

/// So many sessions.
fn begin_each<'a, R: Wait>(
    rt: &'a R,
    alloc: Global,
    group: &'a Group,
    passes: &mut Vec<Pass<SharedTrader>>,
    count: usize,
) -> Result<Vec<GroupPass<'a, R>>, Memory>
    requires { AreOpening group.now.cells.items passes.old.items }
    ensures opening { AreOpening group.now.cells.items passes.new.items }
    ensures out { IfOk result
        (λ v. All (λ g. AllZip IsOut passes.new.items g.passes.items) v.items) }
{
    let mut sessions = Vec::with_capacity(alloc, count)?;
    for _ in 0..count {
        let session = group.pass(rt, alloc, passes)?;
        sessions.push(session)?;
    }
    Ok(sessions)
}

/// Exports Printers.
fn export_each<'a, R: Wait>(alloc: Global, mut session: GroupPass<'a, R>) -> GroupPass<'a, R>
    ensures { SamePasses session.entry.passes.items result.passes.items }
{
    for _ in 0..EXPORTS {
        let _ = exports(alloc, &mut session, 0);
    }
    session
}

/// Ends each session.
fn take_in_each<'a, R: Wait>(
    group: &'a Group,
    passes: &mut Vec<Pass<SharedTrader>>,
    mut sessions: Vec<GroupPass<'a, R>>,
)
    requires opening { AreOpening group.now.cells.items passes.old.items }
    requires out { All (λ g. AllZip IsOut passes.old.items g.passes.items) sessions.items }
    ensures { AreOpening group.now.cells.items passes.new.items }
{
    while let Some(session) = sessions.pop() {
        group.take_in(passes, session);
    }
}

/// Exports on a thread of its own in each session.
fn export_on_threads<'a, R: Threads + Wait + Sync>(
    rt: &R,
    alloc: Global,
    sessions: Vec<GroupPass<'a, R>>,
) -> Result<Vec<GroupPass<'a, R>>, AllocError>
    ensures len { IfOk result (λ v. vec_len v ≡ vec_len sessions.entry) }
    ensures same { IfOk result (λ v. (i : ℕ) (d : _) → i < vec_len sessions.entry → SamePasses
        (slice_index_or sessions.entry.items i d).passes.items
        (slice_index_or v.items i d).passes.items) }
{
    thread::map_vec(
        rt,
        sessions,
        &|session: GroupPass<R>| -> GroupPass<R>
            ensures { SamePasses session.entry.passes.items result.passes.items }
        { export_each(alloc, session) },
    )
}

/// Eight sessions that export on threads.
fn on_threads<R: Threads + Wait + Sync>(
    rt: &R,
    alloc: Global,
    group: &Group,
    passes: &mut Vec<Pass<SharedTrader>>,
) -> Result<(), Memory>
    requires { AreOpening group.now.cells.items passes.old.items }
    ensures { AreOpening group.now.cells.items passes.new.items }
{
    let sessions = begin_each(rt, alloc, group, passes, 8)?;
    let ended = export_on_threads(rt, alloc, sessions)?;
    take_in_each(group, passes, ended);
    Ok(())
}

fn eight_threads<R: Threads + Wait + Sync>(rt: &R, alloc: Global) -> Result<bool, Memory> {
    let (group, mut passes) = Group::open(alloc, traders(alloc, ONE)?)?;
    match on_threads(rt, alloc, &group, &mut passes) {
        Ok(()) => are_numbered(alloc, closed(group, passes)),
        Err(memory) => {
            drop(passes);
            drop(group);
            Err(memory)
        }
    }
}

/// Whether the history of the one trader is 400 exports, whose ids are the numbers from 1 to 400, each once.
fn are_numbered(alloc: Global, solo: Option<Solo>) -> Result<bool, Memory> {
    let answer = match &solo {
        Some(solo) => has_each_number(alloc, solo),
        None => Ok(false),
    };
    drop(solo);
    answer
}

fn has_each_number(alloc: Global, solo: &Solo) -> Result<bool, Memory> {
    match solo.traders.as_slice() {
        [trader] => has_each(alloc, trader.history(), 400),
        _ => Ok(false),
    }
}

fn has_each(alloc: Global, history: &[Accepted], count: usize) -> Result<bool, Memory> {
    let mut free = Vec::with_capacity(alloc, count)?;
    for _ in 0..count {
        free.push(true)?;
    }
    for entry in history {
        if !takes(alloc, &mut free, entry) {
            return Ok(false);
        }
    }
    Ok(history.len() == count)
}

/// Takes the number of the id that an export was answered with, and says whether it was free.
fn takes(alloc: Global, free: &mut Vec<bool>, entry: &Accepted) -> bool {
    match number_of(alloc, entry) {
        Some(number) => take(free, number as usize),
        None => false,
    }
}

fn take(free: &mut Vec<bool>, number: usize) -> bool {
    if number == 0 || number > free.len() {
        return false;
    }
    mem::replace(&mut free[number - 1], false)
}

fn number_of(alloc: Global, entry: &Accepted) -> Option<u32> {
    match entry.reply.reply(alloc) {
        Ok(Reply::Id(id)) => number_in(&id),
        _ => None,
    }
}

#[test]
fn each_export_of_eight_threads_has_a_number_of_its_own(rt: HostRuntime) -> Result<(), Fail> {
    assert!(rt; eight_threads(&rt, rt.alloc())?);
    Ok(())
}
