//! What holds of all calls, as functions that do nothing: the contract of each is a law.

ghost use Rattle.td_naming.specs.Examples.{WorkedHistory};
ghost use Rattle.td_naming.specs.Laws.{AcceptedStand, RefusalsChangeNothing, ResolvesByReach, StaysLegal};

use crate::names::Names;

/// A refused call changes nothing, what is seen stays legal, and an accepted change is the last that is seen and one's
/// own.
pub fn calls_are_remembered<N: Names>()
    ensures refusals { RefusalsChangeNothing N.others }
    ensures legal { StaysLegal N.others }
    ensures accepted { AcceptedStand N.others }
{}

/// A name within the limits is resolved to an object exactly where it reaches the object.
pub fn names_are_resolved<N: Names>()
    ensures { ResolvesByReach N.others }
{}

/// A worked example: a context is made and bound, then an object in it; a refused call is not remembered.
pub fn worked_history()
    ensures { WorkedHistory }
{}
