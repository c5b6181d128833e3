//! In which order a visit asks, in plain words.

ghost use Rattle.std.specs.Prelude.{◌≡◌, ℕ, List, [], ◌∷◌, None, Option, Some};
ghost use Rattle.td_typecode.specs.declared.reference.Ior.{Ior};
ghost use Rattle.td_store.specs.declared.local.Local.{Local};
ghost use Rattle.td_store.specs.declared.record.LinkRecord.{LinkRecord};
ghost use Rattle.td_walk.specs.SubQueries.{path_query};
ghost use Rattle.td_walk.specs.declared.answer.Next.{Next};
ghost use Rattle.td_walk.specs.declared.answer.Next.TheVariants.{Forward};
ghost use Rattle.td_walk.specs.declared.answer.StepAnswer.{StepAnswer};
ghost use Rattle.td_walk.specs.declared.trace.TraceItem.{TraceItem};
ghost use Rattle.td_query_walk.specs.SearchOrder.{AsksInOrder, QuestionsAreOrdered};
ghost use Rattle.td_query_walk.specs.StepOrder.{StepsBy};
ghost use Rattle.td_query_walk.specs.WalkLaws.{BeginsIn, Group};
ghost use Rattle.td_query_walk.specs.Walks.{WalkState, Steps};

/// A search asks for the evaluations of its candidates, one candidate after the other, what the constraint mentions
/// before what the preference does; then for those of the offers that matched; then each proxy offer's trader by
/// number; and then each link's target in the order of adding.
pub fn searches_ask_in_order()
    ensures { (l : Local) (questions : List Next) (answers : List StepAnswer) → l.path ≡ None
        → AsksInOrder l [] questions answers → QuestionsAreOrdered l questions answers }
{}

/// Along a path one question is asked, of the target of its first name's link.
pub fn paths_ask_once()
    ensures { (l : Local) (link : LinkRecord) (questions : List Next) (answers : List StepAnswer)
        → l.path ≡ Some link → AsksInOrder l [] questions answers
        → questions ≡ Forward link.target (path_query l) ∷ [] }
{}

/// What stands in a walk between the item with which a search or a path begins and its Leave is one step for each of
/// these questions, in this order.
pub fn walks_step_in_order()
    ensures { (group : Group) (inside : ℕ → Ior → Option ℕ) (s u : WalkState ℕ) (l : Local)
        (items : List TraceItem) (answers : List StepAnswer)
        → Steps (BeginsIn group) inside s l [] items answers u
        → StepsBy (BeginsIn group) inside s l [] items answers u }
{}
