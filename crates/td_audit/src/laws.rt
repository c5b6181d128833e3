//! Worked examples, as a function that does nothing: its contract is that they hold.

ghost use Rattle.td_audit.specs.Examples.{WorkedAudits, WorkedMaking, WorkedOpenings};
ghost use Rattle.td_ops.specs.declared.call.Query.{Query};
ghost use Rattle.td_store.specs.declared.local.Local.{Local};
ghost use Rattle.td_trader.specs.PlainTraders.{PlainTrader};
ghost use Rattle.td_walk.specs.declared.trace.Address.{Address};

/// Audits of short logs, the random words of a first line, and which call goes on in a log that is made.
pub fn worked_audits()
    ensures audits { (t : PlainTrader) (home : Address) → WorkedAudits t home }
    ensures openings { WorkedOpenings }
    ensures making { (q : Query) (l : Local) → WorkedMaking q l }
{}
