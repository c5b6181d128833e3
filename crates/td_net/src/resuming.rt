//! The answers to the questions of visits that wait.

ghost use Rattle.std.specs.Prelude.{◌≡◌, ◌<◌, length, slice_get, Some, IfOk, OnOk, OnErr, is_some, true};
ghost use Rattle.td_net.specs.Worlds.{Becomes, HasGroup, HasVisits, KeepsEnded, TakenAs, World, after, answer_at};
ghost use Rattle.td_net.specs.Worlds.{evaluates, frame_in, lose_at};
ghost use Rattle.td_net.specs.Worlds.{resume_caller, takes, value_answer, value_at, value_step, waits};
ghost use Rattle.td_net.specs.declared.call.Call.{Call as Opened};
ghost use Rattle.td_visit.specs.Standing.{FrameState};
ghost use Rattle.td_query_walk.specs.Walks.{answer_in, no_offers};

use crate::call::{QuestionStep, Stage};
use crate::event::NetFault;
use crate::group::Group;
use crate::placing::{Visits, go_on};
use std::alloc::Global;
use std::snapshot::Snapshot;
use td_cdr::{Boxed, List, Memory, Twin};
use td_value::Any;
use td_walk::{StepAnswer, SubAnswer, Visit};

/// Hands an answer to a visit that waits for one, and lets it go on.
///
/// # Errors
///
/// `Memory` only when out of memory.
fn resume(
    alloc: Global,
    group: &Group,
    visits: &mut Visits,
    call: usize,
    step: QuestionStep,
    answer: StepAnswer,
) -> Result<(), Memory>
    requires call { call < length visits.old.calls.items }
    requires waits { (k : Opened) → slice_get visits.old.calls.items call ≡ Some k
        → is_some (frame_in k.stage) ≡ true }
    ensures becomes { OnOk result ((k : Opened) (w : World) (f : FrameState) →
        slice_get visits.old.calls.items call ≡ Some k → frame_in k.stage ≡ Some f
        → HasGroup w group.now.traders.items group.now.home
        → HasVisits w visits.old.calls.items visits.old.words
        → Becomes w (takes w call k f step answer)
        (after w visits.new.calls.items visits.new.words.drawn)) }
    ensures words { visits.new.words.all ≡ visits.old.words.all }
    ensures kept { OnErr result (KeepsEnded visits.old.calls.items visits.new.calls.items) }
{
    let (frame, steps) = visits.calls[call].take_visit(alloc);
    let mut frame = frame;
    let mut steps = steps;
    frame.take(answer)?;
    steps.push(step)?;
    go_on(alloc, group, visits, call, frame, steps)
}

fn waits(stage: &Stage) -> bool
    ensures { result ≡ waits stage.now }
{
    matches!(stage, Stage::Waiting(_, _))
}

fn evaluates(stage: &Stage) -> bool
    ensures { result ≡ evaluates stage.now }
{
    matches!(stage, Stage::Evaluating(_))
}

fn value_step(value: &Option<Boxed<Any>>) -> QuestionStep
    ensures { result ≡ value_step value.now }
{
    match value {
        None => QuestionStep::Unvalued,
        Some(value) => QuestionStep::Valued(Snapshot::of(value.get())),
    }
}

fn value_answer(value: Option<Boxed<Any>>) -> StepAnswer
    ensures { result ≡ value_answer value }
{
    match value {
        None => StepAnswer::Failed,
        Some(value) => StepAnswer::Evaluated(value),
    }
}

/// Hands the value that it waits for to the visit of a call.
pub(crate) fn value(
    alloc: Global,
    group: &Group,
    visits: &mut Visits,
    call: usize,
    value: Option<Boxed<Any>>,
) -> Result<(), NetFault>
    ensures takes { (w : World) → HasGroup w group.now.traders.items group.now.home
        → HasVisits w visits.old.calls.items visits.old.words
        → TakenAs w (value_at w call value (slice_get w.calls call)) result
        (after w visits.new.calls.items visits.new.words.drawn) }
    ensures words { visits.new.words.all ≡ visits.old.words.all }
{
    if call >= visits.calls.len() {
        return Err(NetFault::NoCall);
    }
    if !evaluates(&visits.calls[call].stage) {
        return Err(NetFault::WrongState);
    }
    let step = value_step(&value);
    match resume(alloc, group, visits, call, step, value_answer(value)) {
        Ok(()) => Ok(()),
        Err(Memory) => Err(NetFault::Memory),
    }
}

/// Hands an answer to a caller, where its visit waits for one.
fn give(
    alloc: Global,
    group: &Group,
    visits: &mut Visits,
    caller: usize,
    step: QuestionStep,
    answer: StepAnswer,
) -> Result<(), Memory>
    ensures becomes { OnOk result ((w : World) → HasGroup w group.now.traders.items group.now.home
        → HasVisits w visits.old.calls.items visits.old.words
        → Becomes w (resume_caller w caller step answer (slice_get w.calls caller))
        (after w visits.new.calls.items visits.new.words.drawn)) }
    ensures words { visits.new.words.all ≡ visits.old.words.all }
    ensures kept { OnErr result (KeepsEnded visits.old.calls.items visits.new.calls.items) }
{
    if caller < visits.calls.len() && waits(&visits.calls[caller].stage) {
        return resume(alloc, group, visits, caller, step, answer);
    }
    Ok(())
}

/// No offers and no limits.
pub(crate) fn nothing(alloc: Global) -> SubAnswer
    ensures { result ≡ no_offers }
{
    SubAnswer {
        offers: List::new(alloc),
        limits: List::new(alloc),
    }
}

/// What a visit gives to its caller.
fn offers_of(alloc: Global, visit: &Visit) -> Result<SubAnswer, Memory>
    ensures { IfOk result (λ a. a ≡ answer_in visit.now) }
{
    match visit {
        Visit::Answered { answer, .. } => answer.copy(alloc),
        Visit::Refused(_) => Ok(nothing(alloc)),
    }
}

/// Hands what a call has ended with to its caller.
pub(crate) fn answer(
    alloc: Global,
    group: &Group,
    visits: &mut Visits,
    call: usize,
) -> Result<(), NetFault>
    ensures takes { (w : World) → HasGroup w group.now.traders.items group.now.home
        → HasVisits w visits.old.calls.items visits.old.words
        → TakenAs w (answer_at w call (slice_get w.calls call)) result
        (after w visits.new.calls.items visits.new.words.drawn) }
    ensures words { visits.new.words.all ≡ visits.old.words.all }
{
    if call >= visits.calls.len() {
        return Err(NetFault::NoCall);
    }
    let Some(caller) = visits.calls[call].caller else {
        return Err(NetFault::WrongState);
    };
    if visits.calls[call].handed {
        return Err(NetFault::WrongState);
    }
    let Stage::Ended(visit) = &visits.calls[call].stage else {
        return Err(NetFault::WrongState);
    };
    let Ok(offers) = offers_of(alloc, visit.get()) else {
        return Err(NetFault::Memory);
    };
    visits.calls[call].hand_on();
    match give(
        alloc,
        group,
        visits,
        caller,
        QuestionStep::Given(call),
        StepAnswer::Offers(offers),
    ) {
        Ok(()) => Ok(()),
        Err(Memory) => Err(NetFault::Memory),
    }
}

/// Hands the caller of a call that the call failed.
pub(crate) fn lose(
    alloc: Global,
    group: &Group,
    visits: &mut Visits,
    call: usize,
) -> Result<(), NetFault>
    ensures takes { (w : World) → HasGroup w group.now.traders.items group.now.home
        → HasVisits w visits.old.calls.items visits.old.words
        → TakenAs w (lose_at w call (slice_get w.calls call)) result
        (after w visits.new.calls.items visits.new.words.drawn) }
    ensures words { visits.new.words.all ≡ visits.old.words.all }
{
    if call >= visits.calls.len() {
        return Err(NetFault::NoCall);
    }
    let Some(caller) = visits.calls[call].caller else {
        return Err(NetFault::WrongState);
    };
    if visits.calls[call].handed {
        return Err(NetFault::WrongState);
    }
    visits.calls[call].hand_on();
    match give(
        alloc,
        group,
        visits,
        caller,
        QuestionStep::Lost(call),
        StepAnswer::Failed,
    ) {
        Ok(()) => Ok(()),
        Err(Memory) => Err(NetFault::Memory),
    }
}
