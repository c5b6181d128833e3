//! Worked examples of traces, and of arrivals.

ghost use Rattle.td_fed_laws.specs.ArrivalExamples.{WorkedArrivals};
ghost use Rattle.td_fed_laws.specs.Examples.{WorkedTraces};
ghost use Rattle.td_ops.specs.declared.call.Query.{Query};
ghost use Rattle.td_trader.specs.Worlds.{View};

/// Three traders whose links make a cycle, come to along a path.
pub fn worked_traces()
    ensures { WorkedTraces }
{}

/// A ring of two traders that others use too: one that is searched once, one whose first mark is forgotten, and one in
/// which another has marked the identifier.
pub fn worked_arrivals()
    ensures { (v : View) (q : Query) → WorkedArrivals v q }
{}
