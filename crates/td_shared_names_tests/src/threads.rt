//! Sessions on threads of their own.

ghost use Rattle.std.specs.List.{All};
ghost use Rattle.std.specs.Prelude.{◌≡◌, ◌<◌, ℕ, IfOk, slice_index_or, vec_len};
ghost use Rattle.td_shared_names.specs.Sharing.{IsOpeningOf, IsOut, SamePass};

use crate::calls::root_alone;
use crate::sharing::{closed, makes};
use std::alloc::{AllocError, Global};
use std::process::Abort;
use std::sync::Wait;
use std::test::Fail;
use std::thread;
use std::thread::Threads;
use td_cdr::Memory;
use td_cell::Pass;
use td_names::NameAct;
use td_naming::{NameChange, Naming};
use td_shared_names::{NameBook, NamePass, SharedNames};

/// So many sessions.
fn begin_each<'a, R: Wait>(
    rt: &'a R,
    alloc: Global,
    shared: &'a SharedNames,
    pass: &mut Pass<NameBook>,
    count: usize,
) -> Result<Vec<NamePass<'a, R>>, Memory>
    requires { IsOpeningOf shared.now.cell pass.old }
    ensures opening { IsOpeningOf shared.now.cell pass.new }
    ensures out { IfOk result (λ v. All (λ s. IsOut pass.new s.pass) v.items) }
{
    let mut sessions = Vec::with_capacity(alloc, count)?;
    for _ in 0..count {
        let session = shared.pass(rt, pass)?;
        sessions.push(session)?;
    }
    Ok(sessions)
}

/// What each session does, whatever the others have done by then: of the same binding one is done, and the others are
/// refused.
const CYCLE: &str = "1 bind_new_context a = context|already
2 bind_root u = done|already
1 bind x = done|already
1 resolve auaux = object
1 resolve xy = not context, 2 left
1 resolve a = context
2 resolve u = context
2 destroy = not empty
1 destroy = system";

/// Ten contexts without a name.
const CONTEXTS: &str = "1 new_context = context
1 new_context = context
1 new_context = context
1 new_context = context
1 new_context = context
1 new_context = context
1 new_context = context
1 new_context = context
1 new_context = context
1 new_context = context";

/// Makes calls. Where one is answered otherwise than its line says, `w` is bound, so that the history tells.
fn make_all<'a, R: Wait>(alloc: Global, session: NamePass<'a, R>, lines: &str) -> NamePass<'a, R>
    ensures { SamePass session.entry.pass result.pass }
{
    let (session, good) = makes(alloc, session, lines);
    if good {
        return session;
    }
    let (session, _) = makes(alloc, session, "1 bind w = done");
    session
}

/// Ends each session.
fn take_in_each<'a, R: Wait>(
    shared: &'a SharedNames,
    pass: &mut Pass<NameBook>,
    mut sessions: Vec<NamePass<'a, R>>,
)
    requires opening { IsOpeningOf shared.now.cell pass.old }
    requires out { All (λ s. IsOut pass.old s.pass) sessions.items }
    ensures { IsOpeningOf shared.now.cell pass.new }
{
    while let Some(session) = sessions.pop() {
        shared.take_in(pass, session);
    }
}

/// Makes the calls in each session, on a thread of its own.
fn make_on_threads<'a, R: Threads + Wait + Sync>(
    rt: &R,
    alloc: Global,
    sessions: Vec<NamePass<'a, R>>,
    lines: &str,
) -> Result<Vec<NamePass<'a, R>>, AllocError>
    ensures len { IfOk result (λ v. vec_len v ≡ vec_len sessions.entry) }
    ensures same { IfOk result (λ v. (i : ℕ) (d : _) → i < vec_len sessions.entry → SamePass
        (slice_index_or sessions.entry.items i d).pass (slice_index_or v.items i d).pass) }
{
    thread::map_vec(
        rt,
        sessions,
        &|session: NamePass<R>| -> NamePass<R>
            ensures { SamePass session.entry.pass result.pass }
        { make_all(alloc, session, lines) },
    )
}

/// So many sessions that make these calls on threads.
fn on_threads<R: Threads + Wait + Sync>(
    rt: &R,
    alloc: Global,
    shared: &SharedNames,
    pass: &mut Pass<NameBook>,
    count: usize,
    lines: &str,
) -> Result<(), Memory>
    requires { IsOpeningOf shared.now.cell pass.old }
    ensures { IsOpeningOf shared.now.cell pass.new }
{
    let sessions = begin_each(rt, alloc, shared, pass, count)?;
    let ended = make_on_threads(rt, alloc, sessions, lines)?;
    take_in_each(shared, pass, ended);
    Ok(())
}

/// The contexts behind them.
fn after_threads<R: Threads + Wait + Sync>(
    rt: &R,
    alloc: Global,
    count: usize,
    lines: &str,
) -> Result<Option<Naming>, Memory> {
    let (shared, mut pass) = SharedNames::open(alloc, root_alone(alloc)?)?;
    match on_threads(rt, alloc, &shared, &mut pass, count, lines) {
        Ok(()) => Ok(closed(shared, pass)),
        Err(memory) => {
            drop(pass);
            drop(shared);
            Err(memory)
        }
    }
}

/// Whether the three bindings of the cycle are all that was done, whoever did them.
fn is_cycle(history: &[NameChange]) -> bool {
    match history {
        [first, second, third] => {
            is_made(first, 2)
                && matches!(first.act, NameAct::BindNewContext { .. })
                && ((binds_root(second) && binds(third)) || (binds(second) && binds_root(third)))
        }
        _ => false,
    }
}

/// Whether it made the context of this number, by a call of the root.
fn is_made(change: &NameChange, number: u32) -> bool {
    change.context == 1 && change.made == Some(number)
}

fn binds_root(change: &NameChange) -> bool {
    change.context == 2 && matches!(change.act, NameAct::BindContext { .. })
}

fn binds(change: &NameChange) -> bool {
    change.context == 1 && matches!(change.act, NameAct::Bind { .. })
}

/// Whether each of so many changes made a context, with the numbers from 2 on in order.
fn are_numbered(history: &[NameChange], count: usize) -> bool {
    history.len() == count
        && history
            .iter()
            .zip(2u32..)
            .all(|(change, number)| is_made(change, number))
}

/// Whether the contexts that were taken out have the cycle alone.
fn cycles(contexts: Option<Naming>) -> bool {
    let good = match &contexts {
        Some(contexts) => is_cycle(contexts.history()),
        None => false,
    };
    drop(contexts);
    good
}

/// Whether so many contexts were made, and nothing else was done.
fn numbers(contexts: Option<Naming>, count: usize) -> bool {
    let good = match &contexts {
        Some(contexts) => are_numbered(contexts.history(), count),
        None => false,
    };
    drop(contexts);
    good
}

#[test]
fn names_go_round_over_two_threads(rt: HostRuntime) -> Result<(), Fail> {
    let contexts = after_threads(&rt, rt.alloc(), 2, CYCLE)?;
    assert!(rt; cycles(contexts));
    Ok(())
}

#[test]
fn names_go_round_over_eight_threads(rt: HostRuntime) -> Result<(), Fail> {
    let contexts = after_threads(&rt, rt.alloc(), 8, CYCLE)?;
    assert!(rt; cycles(contexts));
    Ok(())
}

#[test]
fn each_context_of_eight_threads_has_a_number_of_its_own(rt: HostRuntime) -> Result<(), Fail> {
    let contexts = after_threads(&rt, rt.alloc(), 8, CONTEXTS)?;
    assert!(rt; numbers(contexts, 80));
    Ok(())
}
