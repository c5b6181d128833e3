//! What holds of visits and of what they pass on, as functions that do nothing: each one's contract is the law.

ghost use Rattle.td_walk.specs.Laws.{WorkedPassing, WorkedFollowing};

/// Worked examples of the policies that are passed on.
pub fn worked_passing()
    ensures { WorkedPassing }
{}

/// Worked examples of links that are followed.
pub fn worked_following()
    ensures { WorkedFollowing }
{}
