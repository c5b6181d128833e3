//! What holds of all sessions, as functions that do nothing: the contract of each is a law.

ghost use Rattle.std.specs.Prelude.{ℕ, List};
ghost use Rattle.td_cdr.specs.Writing.{Draft};
ghost use Rattle.td_name_session.specs.Completeness.{Completes};
ghost use Rattle.td_name_session.specs.Examples.{WorkedIterator, WorkedKeys, WorkedRequests};
ghost use Rattle.td_name_session.specs.Laws.{AcceptedStand, OwnPlacesAreAccepted, PointsRise, RefusalsChangeNothing};
ghost use Rattle.td_name_session.specs.Laws.{ResolvesByReach, SeenGoesOn};
ghost use Rattle.td_name_session.specs.Scenes.{Scene};
ghost use Rattle.td_name_session.specs.Sessions.{Serves};
ghost use Rattle.td_stream.specs.Outside.{Outside};
ghost use Rattle.td_stream.specs.declared.end.End.{End};

use td_naming::Names;

/// The points of a session never fall, an accepted change stands in the history at its point, and one's own places are
/// those of the accepted changes. What is seen goes on from what was seen, and stays legal.
pub fn points_are_places<N: Names>()
    ensures rise { PointsRise N.others }
    ensures own { OwnPlacesAreAccepted N.others }
    ensures stand { AcceptedStand N.others }
    ensures seen { SeenGoesOn N.others }
{}

/// A Request that is answered with an exception has changed neither contexts nor iterators.
pub fn refusals_change_nothing<N: Names>()
    ensures { RefusalsChangeNothing N.others }
{}

/// A name within the limits is resolved to an object exactly where it reaches the object.
pub fn names_are_resolved<N: Names>()
    ensures { ResolvesByReach N.others }
{}

/// Where the source is whole messages that a server can be sent, within a session's limits, and neither it nor the sink
/// fails, the session serves all before the first that closes it, in order, and is closed, or it ends when out
/// of memory.
pub fn all_messages_are_served<N: Names>()
    ensures { (s u : Scene) (journal : List ℕ) (end : End) (before after : Outside)
        → Serves N.others s u journal end before after → Completes N.others s u end before after }
{}

/// Which objects keys name, what is left of an iterator of two bindings, and what Requests of the root come to.
pub fn worked_requests()
    ensures keys { WorkedKeys }
    ensures iterator { (draft : Draft) → WorkedIterator draft }
    ensures requests { (draft : Draft) → WorkedRequests draft }
{}
