//! Which queries a visit passes on, how many questions it asks, and that a walk from trader to trader ends.

ghost use Rattle.std.specs.Prelude.{◌≡◌, ℕ, ◌<◌, ◌≤◌, ◌^◌, List, length, Ok, Option};
ghost use Rattle.td_typecode.specs.declared.reference.Ior.{Ior};
ghost use Rattle.td_ops.specs.declared.call.Query.{Query};
ghost use Rattle.td_policy.specs.Effective.{effective_of};
ghost use Rattle.td_policy.specs.Stated.{stated};
ghost use Rattle.td_policy.specs.declared.stated.Stated.{Stated};
ghost use Rattle.td_store.specs.declared.local.Local.{Local};
ghost use Rattle.td_walk.specs.Visits.{next_of};
ghost use Rattle.td_walk.specs.declared.answer.Next.TheVariants.{Done, Forward};
ghost use Rattle.td_walk.specs.declared.answer.StepAnswer.{StepAnswer};
ghost use Rattle.td_walk.specs.declared.trace.TraceItem.{TraceItem};
ghost use Rattle.td_walk.specs.declared.trace.Visit.{Visit};
ghost use Rattle.td_query_walk.specs.Reach.{IsPassed, HasReadPath, weight_of, reach_of, turns_of};
ghost use Rattle.td_query_walk.specs.SubQueryLaws.{CarriesIdentifier, StatesIdentifier};
ghost use Rattle.td_query_walk.specs.WalkLaws.{BeginsIn, Group, ShowsCalls};
ghost use Rattle.td_query_walk.specs.Walks.{WalkState, Walk};

/// Each query that a visit passes on goes over a link or to a proxy offer's trader, where there are hops and offers are
/// wanted, and asks for as many as these; or along its path.
#[tactic(auto, using(crate::proofs::Questions::only_passed))]
pub fn queries_are_passed_on()
    ensures { (l : Local) (answers : List StepAnswer) (target : Ior) (sub : Query)
        → next_of l answers ≡ Forward target sub → IsPassed l target sub }
{}

/// Each query that a search passes on carries the search's identifier, and one along a path its own.
#[tactic(auto, using(crate::proofs::Carrying::carry))]
pub fn identifiers_are_carried()
    ensures { (l : Local) (answers : List StepAnswer) (target : Ior) (sub : Query)
        → next_of l answers ≡ Forward target sub → CarriesIdentifier l.path l sub }
{}

/// Where its policies can be read, each query that a search passes on states the search's identifier, and one along a
/// path what the visit's own query states.
#[tactic(auto, using(crate::proofs::Carrying::state))]
pub fn identifiers_are_stated()
    ensures { (l : Local) (answers : List StepAnswer) (target : Ior) (sub : Query)
        → next_of l answers ≡ Forward target sub → StatesIdentifier l.path l sub }
{}

/// A visit asks at most `turns_of` questions.
pub fn visits_end()
    ensures bound { (l : Local) (answers : List StepAnswer) → turns_of l ≤ length answers
        → next_of l answers ≡ Done }
    ensures forward { (l : Local) (answers : List StepAnswer) (target : Ior) (sub : Query)
        → next_of l answers ≡ Forward target sub → length answers < turns_of l }
{}

/// Hops and paths bound the walk: a query that a visit passes on, where its policies can be read, may go less far than
/// the visit.
#[tactic(auto, using(crate::proofs::Weights::falls_at_each))]
pub fn walks_end()
    ensures { (l : Local) (answers : List StepAnswer) (target : Ior) (sub : Query) (s : Stated)
        → HasReadPath l
        → next_of l answers ≡ Forward target sub → stated sub.policies ≡ Ok s
        → weight_of s < reach_of l }
{}

/// And a visit goes no farther than its query states.
#[tactic(auto, using(crate::proofs::Weights::reaches_no_farther))]
pub fn visits_reach_no_farther()
    ensures { (l : Local) → l.effective ≡ effective_of l.stated l.attributes
        → l.attributes.max_hop_count ≤ 2 ^ 32 → reach_of l ≤ weight_of l.stated }
{}

/// The items Outside, Evaluated and Failed of a walk are, in order, the calls that were made of peers in it and what
/// each gave.
pub fn walks_are_asked()
    ensures { (group : Group) (inside : ℕ → Ior → Option ℕ) (s u : WalkState ℕ) (trader : ℕ)
        (q : Query) (items : List TraceItem) (v : Visit)
        → Walk (BeginsIn group) inside s trader q items v u → ShowsCalls items s.calls u.calls }
{}
