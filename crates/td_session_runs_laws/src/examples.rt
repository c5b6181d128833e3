//! Worked examples of what spells an outcome.

ghost use Rattle.td_session_runs_laws.specs.Examples.{WorkedSpelling};

/// The bytes of a truth, of a system exception and of a whole Reply; bytes that don't spell them; and what a Request
/// that spells no call is told.
pub fn worked_spelling()
    ensures { WorkedSpelling }
{}
