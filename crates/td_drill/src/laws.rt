//! Worked examples, as a function that does nothing: its contract is what they say.

ghost use Rattle.td_drill.specs.Examples.{WorkedDrills};

/// The line of a drill of two traders, and what the walk of a cycle comes to.
pub fn worked_drills()
    ensures { WorkedDrills }
{}
