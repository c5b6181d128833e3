//! Worked examples.

ghost use Rattle.td_net_laws.specs.Examples.{WorkedMarks, WorkedVisits};
ghost use Rattle.td_trader.specs.PlainTraders.{PlainTrader};

/// A ring that remembers two identifiers forgets one behind two others: its next mark lies three behind the first.
pub fn worked_marks()
    ensures { WorkedMarks }
{}

/// A ring of three traders, and four of which two ask the same one.
pub fn worked_visits()
    ensures { (t : PlainTrader) → WorkedVisits t }
{}
