//! Worked examples of visits.

ghost use Rattle.std.specs.Prelude.{ℕ};
ghost use Rattle.td_query_walk.specs.BeginningExamples.{WorkedBeginnings};
ghost use Rattle.td_query_walk.specs.Examples.{WorkedVisits, WorkedProxies, WorkedEvaluations};
ghost use Rattle.td_query_walk.specs.Examples.{WorkedResolving, WorkedAnswers};
ghost use Rattle.td_query_walk.specs.OrderExamples.{WorkedOrder};
ghost use Rattle.td_query_walk.specs.WalkExamples.{WorkedWalks};

/// The questions of a visit: over a link, and along a path.
pub fn worked_visits()
    ensures { WorkedVisits }
{}

/// A proxy offer is called before a link is followed.
pub fn worked_proxies()
    ensures { WorkedProxies }
{}

/// A desired dynamic property is evaluated.
pub fn worked_evaluations()
    ensures { WorkedEvaluations }
{}

/// What is evaluated of an offer, each once, and the others that are asked.
pub fn worked_orders()
    ensures { WorkedOrder }
{}

/// Properties as resolved.
pub fn worked_resolving()
    ensures { WorkedResolving }
{}

/// Answers of visits.
pub fn worked_answers()
    ensures { (word : ℕ → ℕ) → WorkedAnswers word }
{}

/// Walks from query to answer.
pub fn worked_walks()
    ensures { (word : ℕ → ℕ) → WorkedWalks word }
{}

/// How far walks came that ran out of memory.
pub fn worked_beginnings()
    ensures { (word : ℕ → ℕ) → WorkedBeginnings word }
{}
