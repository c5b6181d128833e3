//! How far a visit goes on before it waits.

ghost use Rattle.std.specs.Prelude.{◌≡◌, ◌+◌, [], ◌∷◌, ◌++◌, List, IfOk, is_some, None};
ghost use Rattle.td_ior.specs.Profiles.{iiop_of};
ghost use Rattle.td_net.specs.Worlds.{IsDoneAt, VisitProgress, evaluate_by, inside, or_further, settle, settle_by};
ghost use Rattle.td_net.specs.Worlds.{visit_progress};
ghost use Rattle.td_net.specs.declared.call.QuestionStep.{QuestionStep as Noted};
ghost use Rattle.td_walk.specs.Visits.{next_of};
ghost use Rattle.td_walk.specs.declared.answer.StepAnswer.{StepAnswer as Given};
ghost use Rattle.td_walk.specs.declared.answer.StepAnswer.TheVariants.{Failed};
ghost use Rattle.td_query_walk.specs.Reach.{turns_of};

use crate::call::QuestionStep;
use crate::group::Group;
use std::alloc::Global;
use td_cdr::{List, Memory, Shared};
use td_ior::{IorFault, iiop_of};
use td_ops::Query;
use td_value::Ior;
use td_visit::Frame;
use td_walk::{Next, StepAnswer};

/// What a visit waits for.
#[derive(Drop)]
pub enum Pending {
    /// Nothing: it has no question left.
    Nothing,
    /// The value of a dynamic property.
    Value,
    /// What the trader of this number answers to a query.
    SubQuery { target: usize, query: Shared<Query> },
}

/// Asks the questions of a visit until it waits for something. Steps to targets outside, and to evaluators that can't
/// be reached, fail at once.
///
/// # Errors
///
/// `Memory` only when out of memory.
pub(crate) fn advance(
    alloc: Global,
    group: &Group,
    frame: &mut Frame,
    steps: &mut List<QuestionStep>,
) -> Result<Pending, Memory>
    ensures local { frame.new.local ≡ frame.old.local }
    ensures settled { IfOk result (λ p. visit_progress frame.new.answers steps.new p
        ≡ settle (turns_of frame.old.local + 1) (inside group.now.traders.items group.now.home)
        frame.old.local frame.old.answers steps.old) }
    ensures done { IfOk result (IsDoneAt frame.new.local frame.new.answers) }
{
    loop {
        match advance_once(alloc, group, frame, steps)? {
            Some(pending) => return Ok(pending),
            None => {}
        }
    }
}

/// Asks the question of a visit that stands. Where it fails at once, the visit goes on.
fn advance_once(
    alloc: Global,
    group: &Group,
    frame: &mut Frame,
    steps: &mut List<QuestionStep>,
) -> Result<Option<Pending>, Memory>
    ensures local { frame.new.local ≡ frame.old.local }
    ensures settled { IfOk result (λ p. (go : List Given → List Noted → VisitProgress) →
        settle_by go (inside group.now.traders.items group.now.home) frame.old.answers steps.old
        (next_of frame.old.local frame.old.answers) ≡ or_further go frame.new.answers steps.new p) }
{
    match frame.next(alloc)? {
        Next::Done => Ok(Some(Pending::Nothing)),
        Next::Evaluate { evaluator, .. } => evaluate(alloc, frame, steps, &evaluator),
        Next::Forward { target, query } => match group.inside(alloc, &target)? {
            Some(target) => Ok(Some(Pending::SubQuery { target, query })),
            None => fail(frame, steps, QuestionStep::Outside),
        },
    }
}

/// Whether an evaluator has an IIOP profile.
fn is_reachable(alloc: Global, evaluator: &Ior) -> bool
    ensures { result ≡ is_some (iiop_of evaluator.now) }
{
    match iiop_of(alloc, evaluator) {
        Err(IorFault::NoIiop) => false,
        _ => true,
    }
}

/// Waits for a value from an evaluator that can be reached.
fn evaluate(
    alloc: Global,
    frame: &mut Frame,
    steps: &mut List<QuestionStep>,
    evaluator: &Ior,
) -> Result<Option<Pending>, Memory>
    ensures local { frame.new.local ≡ frame.old.local }
    ensures settled { IfOk result (λ p. (go : List Given → List Noted → VisitProgress) →
        evaluate_by go frame.old.answers steps.old (is_some (iiop_of evaluator.now))
        ≡ or_further go frame.new.answers steps.new p) }
{
    if is_reachable(alloc, evaluator) {
        return Ok(Some(Pending::Value));
    }
    fail(frame, steps, QuestionStep::Unreachable)
}

/// Hands a visit that its question failed.
fn fail(
    frame: &mut Frame,
    steps: &mut List<QuestionStep>,
    step: QuestionStep,
) -> Result<Option<Pending>, Memory>
    ensures local { frame.new.local ≡ frame.old.local }
    ensures further { IfOk result (λ p. p ≡ None) }
    ensures answers { IfOk result (λ p. frame.new.answers ≡ frame.old.answers ++ Failed ∷ []) }
    ensures steps { IfOk result (λ p. steps.new ≡ steps.old ++ step ∷ []) }
{
    frame.take(StepAnswer::Failed)?;
    steps.push(step)?;
    Ok(None)
}
