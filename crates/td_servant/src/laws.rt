//! What holds of every answer, as functions that do nothing: each one's contract is the law.

ghost use Rattle.std.specs.Prelude.{◌≡◌, codes};
ghost use Rattle.td_cdr.specs.Place.{At};
ghost use Rattle.td_servant.specs.Examples.{WorkedInterfaces, WorkedKeys, WorkedLists, WorkedPoints, WorkedRequests};
ghost use Rattle.td_servant.specs.Laws.{AcceptedAreShort, ChangesAreShort, ChangesStand, LooksChangeNothing};
ghost use Rattle.td_servant.specs.Laws.{PointsAreSeen, RefusalsChangeNothing};
ghost use Rattle.td_trader.specs.Worlds.{View};
ghost use Rattle.td_walk.specs.declared.trace.Address.{Address};

use td_trader::Traders;

/// An accepted change stands in the history at its point, and a point lies between what was seen before and after.
pub fn changes_stand<T: Traders>()
    ensures stand { ChangesStand T.others T.later }
    ensures seen { PointsAreSeen T.others T.later }
{}

/// After a refused change and after a look nothing was done but by others.
pub fn refusals_change_nothing<T: Traders>()
    ensures refusals { RefusalsChangeNothing T.others T.later }
    ensures looks { LooksChangeNothing T.others T.later }
{}

/// Each accepted change has a short reply, whatever came before it, so that 100 bytes of a writer's room suffice for
/// its body: an opening store has a stem of at most 64 octets and offer numbers of 32 bits.
pub fn accepted_changes_are_short<T: Traders>()
    ensures one { AcceptedAreShort }
    ensures group { ChangesAreShort T.others T.later }
{}

/// Worked examples: keys, requests and interfaces in a group of the trader A alone, points, and lists of two ids.
pub fn worked_answers()
    ensures keys { (v : View) → v.name ≡ codes "A" → WorkedKeys v }
    ensures requests { (v : View) (a : At) → v.name ≡ codes "A" → WorkedRequests v a }
    ensures interfaces { WorkedInterfaces }
    ensures points { WorkedPoints }
    ensures lists { (home : Address) → WorkedLists home }
{}
