//! What becomes of a visit that has gone on as far as it can.

ghost use Rattle.std.specs.Prelude.{◌≡◌, ◌<◌, [], ◌∷◌, ◌++◌, length, slice_get, Some, IfOk, OnOk, OnErr};
ghost use Rattle.td_net.specs.Worlds.{Becomes, Closing, HasGroup, HasVisits, World, after, goes_on, sent};
ghost use Rattle.td_net.specs.declared.call.Call.{Call as Opened};
ghost use Rattle.td_walk.specs.Visits.{next_of};
ghost use Rattle.td_walk.specs.declared.answer.Next.TheVariants.{Done};

use crate::advancing::{Pending, advance};
use crate::call::{Call, QuestionStep, Stage, sent_to};
use crate::group::Group;
use crate::supply::Supply;
use std::alloc::Global;
use td_cdr::{Boxed, List, Memory, Shared};
use td_ops::Query;
use td_visit::Frame;
use td_walk::Visit;

/// The calls of a network, and the random words for their answers.
#[derive(Drop)]
pub(crate) struct Visits {
    pub calls: Vec<Call>,
    pub words: Supply,
}

/// Lets the visit of a call go on from its answers so far: it ends, or waits for a value, or opens a call and waits for
/// it.
///
/// # Errors
///
/// `Memory` only when out of memory. The calls are then as they were.
pub(crate) fn go_on(
    alloc: Global,
    group: &Group,
    visits: &mut Visits,
    call: usize,
    frame: Frame,
    steps: List<QuestionStep>,
) -> Result<(), Memory>
    requires { call < length visits.old.calls.items }
    ensures becomes { OnOk result ((k : Opened) (w : World) → slice_get visits.old.calls.items call
        ≡ Some k → HasGroup w group.now.traders.items group.now.home
        → HasVisits w visits.old.calls.items visits.old.words
        → Becomes w (goes_on w call k frame.local frame.answers steps)
        (after w visits.new.calls.items visits.new.words.drawn)) }
    ensures words { visits.new.words.all ≡ visits.old.words.all }
    ensures kept { OnErr result (visits.new.calls.items ≡ visits.old.calls.items) }
{
    let mut frame = frame;
    let mut steps = steps;
    match advance(alloc, group, &mut frame, &mut steps)? {
        Pending::Nothing => end(alloc, visits, call, frame, steps),
        Pending::Value => {
            visits.calls[call].stand(Stage::Evaluating(frame), steps);
            Ok(())
        }
        Pending::SubQuery { target, query } => {
            let sub = open(alloc, &mut visits.calls, call, target, query)?;
            visits.calls[call].stand(Stage::Waiting(frame, sub), steps);
            Ok(())
        }
    }
}

/// Ends a call whose visit has no question left.
fn end(
    alloc: Global,
    visits: &mut Visits,
    call: usize,
    frame: Frame,
    steps: List<QuestionStep>,
) -> Result<(), Memory>
    requires call { call < length visits.old.calls.items }
    requires done { next_of frame.local frame.answers ≡ Done }
    ensures becomes { OnOk result ((k : Opened) (w : World) → slice_get visits.old.calls.items call
        ≡ Some k → HasVisits w visits.old.calls.items visits.old.words
        → Becomes w (Closing w call k frame.local frame.answers steps)
        (after w visits.new.calls.items visits.new.words.drawn)) }
    ensures words { visits.new.words.all ≡ visits.old.words.all }
    ensures kept { OnErr result (visits.new.calls.items ≡ visits.old.calls.items) }
{
    let max_list = frame.local().attributes.max_list;
    let drawn = visits.words.drawn();
    let answer = frame.finish(alloc, &mut visits.words)?;
    // What is known of the words to come tells how many were drawn, since both numbers are bounded.
    let _drawn = visits.words.drawn();
    let visit = Boxed::new(alloc, Visit::Answered { answer, max_list })?;
    visits.calls[call].end(visit, steps, drawn);
    Ok(())
}

/// Opens the call of a sub-query. It gives its number.
fn open(
    alloc: Global,
    calls: &mut Vec<Call>,
    caller: usize,
    target: usize,
    query: Shared<Query>,
) -> Result<usize, Memory>
    requires { caller < length calls.old.items }
    ensures number { IfOk result (λ sub. sub ≡ length calls.old.items) }
    ensures opened { OnOk result ((k : Opened) → slice_get calls.old.items caller ≡ Some k
        → calls.new.items ≡ calls.old.items ++ sent target query k.root (Some caller) ∷ []) }
    ensures kept { OnErr result (calls.new.items ≡ calls.old.items) }
{
    let sub = calls.len();
    let root = calls[caller].root;
    calls.push(sent_to(alloc, target, query, root, Some(caller)))?;
    Ok(sub)
}
