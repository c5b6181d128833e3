//! Worked examples of journals and of runs.

ghost use Rattle.td_lookup.specs.Scenes.{Scene};
ghost use Rattle.td_ops.specs.declared.call.Query.{Query};
ghost use Rattle.td_session_runs.specs.Examples.{WorkedJournal, WorkedRun};
ghost use Rattle.td_walk.specs.declared.trace.Address.{Address};

use td_trader::Traders;

/// What is told of an accepted change, a refused one and a query; and a CancelRequest with a LocateRequest behind it.
pub fn worked_turns<T: Traders>()
    ensures journal { (q : Query) → WorkedJournal q }
    ensures run { (home : Address) (s : Scene) → WorkedRun T.others T.later home s }
{}
