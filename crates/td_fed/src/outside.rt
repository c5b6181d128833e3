//! The questions of a visit: to evaluators, to traders of the group, and to traders outside.

ghost use Rattle.std.specs.Prelude.{◌≡◌, ◌<◌, ℕ, List, [], ◌∷◌, ◌++◌, vec_len, vec_capacity, is_some, IfOk};
ghost use Rattle.std.specs.Prelude.{OnErr};
ghost use Rattle.td_fed.specs.Calling.{IsPeered, IsPeeredSoFar};
ghost use Rattle.td_fed.specs.Entering.{IsAsked, IsAskedSoFar, NotesFault, asking_of};
ghost use Rattle.td_targets.specs.Targets.{inside_group};
ghost use Rattle.td_fed.specs.Trails.{Goes, IsShown};
ghost use Rattle.td_fed.specs.Visiting.{BeginsVisit, course};
ghost use Rattle.td_query_walk.specs.Faults.{CountsFaults};
ghost use Rattle.td_query_walk.specs.Walks.{answer_in};
ghost use Rattle.td_walk.specs.declared.answer.Next.TheVariants.{Done, Evaluate, Forward};
ghost use Rattle.td_walk.specs.declared.answer.StepAnswer.TheVariants as answer;
ghost use Rattle.td_walk.specs.declared.trace.TraceItem.TheVariants as item;
ghost use Rattle.td_ior.specs.Profiles.{iiop_of};
ghost use Rattle.td_trader.specs.Worlds.{View, Watches};

use crate::entering::{VisitStart, enter, no_offers};
use std::alloc::Global;
use td_cdr::{Boxed, Memory, Shared, Text, Twin};
use td_ior::{IorFault, iiop_of};
use td_ops::Query;
use td_targets::inside_group;
use td_trader::Traders;
use td_value::{Any, Ior, TypeCode};
use td_visit::Frame;
use td_walk::{Address, Next, PeerFault, Peers, StepAnswer, SubAnswer, TraceItem, Visit};

/// What a question came to.
#[derive(Drop)]
pub(crate) enum Asking {
    /// It has its answer.
    Answered(StepAnswer),
    /// A visit of another trader of the group began, which will answer it.
    Open(Frame),
}

/// Asks the question that stands in a visit. What a peer gives is noted, in room that is taken before the call.
///
/// # Errors
///
/// `Memory` only when out of memory.
pub(crate) fn ask<T: Traders, P: Peers>(
    alloc: Global,
    traders: &mut T,
    home: &Address,
    peers: &mut P,
    notes: &mut Vec<TraceItem>,
    question: Next,
) -> Result<Asking, Memory>
    requires { question ≡ Done → ⊥ }
    ensures same { T.same traders.old traders.new }
    ensures same_peers { P.same peers.old peers.new }
    ensures asked { (words : ℕ → ℕ)
        → IfOk result (λ a. IsAsked (BeginsVisit T.others T.later) (inside_group home.now)
        (course (T.world traders.old) words (P.calls peers.old))
        question a notes.old.items notes.new.items
        (course (T.world traders.new) words (P.calls peers.new))) }
    ensures so_far { (words : ℕ → ℕ)
        → OnErr result (IsAskedSoFar (BeginsVisit T.others T.later) (Watches T.others T.later)
        (inside_group home.now) (course (T.world traders.old) words (P.calls peers.old))
        question notes.old.items notes.new.items
        (course (T.world traders.new) words (P.calls peers.new))) }
    ensures shown { IsShown (T.world traders.old)
        (P.calls peers.old) notes.old.items notes.new.items (T.world traders.new)
        (P.calls peers.new) }
    ensures goes { Goes T.others T.later (T.world traders.old) (T.world traders.new) }
    ensures faults { CountsFaults (P.calls peers.old) (P.calls peers.new) (P.faults peers.old)
        (P.faults peers.new) }
{
    match question {
        Next::Evaluate {
            evaluator,
            name,
            returned,
            extra,
        } => {
            let answer = evaluate(
                alloc,
                peers,
                notes,
                &evaluator,
                &name,
                returned.get(),
                extra.get(),
            );
            Ok(Asking::Answered(answer?))
        }
        Next::Forward { target, query } => {
            forward(alloc, traders, home, peers, notes, &target, &query)
        }
        Next::Done => unreachable!(),
    }
}

/// Whether an evaluator has an IIOP profile.
fn is_reachable(alloc: Global, evaluator: &Ior) -> bool
    ensures { result ≡ is_some (iiop_of evaluator.now) }
{
    match iiop_of(alloc, evaluator) {
        Err(IorFault::NoIiop) => false,
        _ => true,
    }
}

/// Evaluates a dynamic property.
#[tactic(auto, using(crate::proofs::Counted::nothing_counted))]
fn evaluate<P: Peers>(
    alloc: Global,
    peers: &mut P,
    notes: &mut Vec<TraceItem>,
    evaluator: &Ior,
    name: &Text,
    returned: &TypeCode,
    extra: &Any,
) -> Result<StepAnswer, Memory>
    ensures same { P.same peers.old peers.new }
    ensures peered { IfOk result (λ r. IsPeered (P.calls peers.old)
        (Evaluate evaluator.now name.now returned.now extra.now) r notes.old.items notes.new.items
        (P.calls peers.new)) }
    ensures so_far { OnErr result (IsPeeredSoFar (P.calls peers.old)
        (Evaluate evaluator.now name.now returned.now extra.now) notes.old.items notes.new.items
        (P.calls peers.new)) }
    ensures shown { (w : List View) →
        IsShown w (P.calls peers.old) notes.old.items notes.new.items w (P.calls peers.new) }
    ensures faults { CountsFaults (P.calls peers.old) (P.calls peers.new) (P.faults peers.old)
        (P.faults peers.new) }
{
    notes.reserve(1)?;
    if !is_reachable(alloc, evaluator) {
        notes.push_reserved(TraceItem::Unreachable);
        return Ok(StepAnswer::Failed);
    }
    match peers.eval_dp(alloc, evaluator, name, returned, extra) {
        Ok(value) => note_value(alloc, notes, value),
        Err(fault) => note_fault(notes, fault),
    }
}

/// Notes the value of a dynamic property, of which the answer has a copy.
fn note_value(
    alloc: Global,
    notes: &mut Vec<TraceItem>,
    value: Boxed<Any>,
) -> Result<StepAnswer, Memory>
    requires { vec_len notes.old < vec_capacity notes.old }
    ensures noted { notes.new.items ≡ notes.old.items ++ item.Evaluated value ∷ [] }
    ensures answer { IfOk result (λ r. r ≡ answer.Evaluated value) }
{
    let copy = value.copy(alloc);
    notes.push_reserved(TraceItem::Evaluated(value));
    Ok(StepAnswer::Evaluated(copy?))
}

/// Notes how a call failed; running out of memory isn't noted.
fn note_fault(notes: &mut Vec<TraceItem>, fault: PeerFault) -> Result<StepAnswer, Memory>
    requires { vec_len notes.old < vec_capacity notes.old }
    ensures { NotesFault fault notes.old.items notes.new.items result }
{
    if fault == PeerFault::Memory {
        return Err(Memory);
    }
    notes.push_reserved(TraceItem::Failed(fault));
    Ok(StepAnswer::Failed)
}

/// Asks another trader: one of the group is visited, any other is called.
#[tactic(auto, using(crate::proofs::Counted::nothing_counted))]
fn forward<T: Traders, P: Peers>(
    alloc: Global,
    traders: &mut T,
    home: &Address,
    peers: &mut P,
    notes: &mut Vec<TraceItem>,
    target: &Ior,
    query: &Shared<Query>,
) -> Result<Asking, Memory>
    ensures same { T.same traders.old traders.new }
    ensures same_peers { P.same peers.old peers.new }
    ensures asked { (words : ℕ → ℕ)
        → IfOk result (λ a. IsAsked (BeginsVisit T.others T.later) (inside_group home.now)
        (course (T.world traders.old) words (P.calls peers.old))
        (Forward target.now query.now) a notes.old.items notes.new.items
        (course (T.world traders.new) words (P.calls peers.new))) }
    ensures so_far { (words : ℕ → ℕ)
        → OnErr result (IsAskedSoFar (BeginsVisit T.others T.later) (Watches T.others T.later)
        (inside_group home.now) (course (T.world traders.old) words (P.calls peers.old))
        (Forward target.now query.now) notes.old.items notes.new.items
        (course (T.world traders.new) words (P.calls peers.new))) }
    ensures shown { IsShown (T.world traders.old)
        (P.calls peers.old) notes.old.items notes.new.items (T.world traders.new)
        (P.calls peers.new) }
    ensures goes { Goes T.others T.later (T.world traders.old) (T.world traders.new) }
    ensures faults { CountsFaults (P.calls peers.old) (P.calls peers.new) (P.faults peers.old)
        (P.faults peers.new) }
{
    match inside_group(alloc, traders, home, target)? {
        Some(trader) => {
            let entry = enter(alloc, traders, trader, query, notes)?;
            Ok(asking_of(alloc, entry))
        }
        None => {
            let answer = call(alloc, peers, notes, target, query.get())?;
            Ok(Asking::Answered(answer))
        }
    }
}

/// What a visit that began is to the one that asked for it.
fn asking_of(alloc: Global, entry: VisitStart) -> Asking
    ensures { result ≡ asking_of entry }
{
    match entry {
        VisitStart::Ended(visit) => Asking::Answered(StepAnswer::Offers(answer_in(alloc, visit))),
        VisitStart::Open(visit) => Asking::Open(visit),
    }
}

/// What a visit gives to one that asked for it.
pub(crate) fn answer_in(alloc: Global, visit: Visit) -> SubAnswer
    ensures { result ≡ answer_in visit }
{
    match visit {
        Visit::Answered { answer, .. } => answer,
        Visit::Refused(_) => no_offers(alloc),
    }
}

/// Asks a trader outside.
#[tactic(auto, using(crate::proofs::Counted::nothing_counted))]
fn call<P: Peers>(
    alloc: Global,
    peers: &mut P,
    notes: &mut Vec<TraceItem>,
    target: &Ior,
    query: &Query,
) -> Result<StepAnswer, Memory>
    ensures same { P.same peers.old peers.new }
    ensures peered { IfOk result
        (λ r. IsPeered (P.calls peers.old)
        (Forward target.now query.now) r notes.old.items notes.new.items (P.calls peers.new)) }
    ensures so_far { OnErr result
        (IsPeeredSoFar (P.calls peers.old)
        (Forward target.now query.now) notes.old.items notes.new.items (P.calls peers.new)) }
    ensures shown { (w : List View) →
        IsShown w (P.calls peers.old) notes.old.items notes.new.items w (P.calls peers.new) }
    ensures faults { CountsFaults (P.calls peers.old) (P.calls peers.new) (P.faults peers.old)
        (P.faults peers.new) }
{
    notes.reserve(1)?;
    match peers.query(alloc, target, query) {
        Ok(answer) => note_offers(alloc, notes, answer),
        Err(fault) => note_fault(notes, fault),
    }
}

/// Notes what a trader outside answered, of which the answer has a copy.
fn note_offers(
    alloc: Global,
    notes: &mut Vec<TraceItem>,
    given: SubAnswer,
) -> Result<StepAnswer, Memory>
    requires { vec_len notes.old < vec_capacity notes.old }
    ensures noted { notes.new.items ≡ notes.old.items ++ item.Outside given ∷ [] }
    ensures answer { IfOk result (λ r. r ≡ answer.Offers given) }
{
    let copy = given.copy(alloc);
    notes.push_reserved(TraceItem::Outside(given));
    Ok(StepAnswer::Offers(copy?))
}
