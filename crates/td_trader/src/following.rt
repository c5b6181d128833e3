//! What holds of every trader through its changes, as functions that do nothing: each one's contract is the
//! law.

ghost use Rattle.std.specs.Prelude.{◌≡◌, ℕ, false, length, Result};
ghost use Rattle.td_cdr.specs.declared.memory.Memory.{Memory};
ghost use Rattle.td_ops.specs.declared.call.Change.{Change};
ghost use Rattle.td_ops.specs.declared.call.Look.{Look};
ghost use Rattle.td_ops.specs.declared.call.Query.{Query};
ghost use Rattle.td_ops.specs.declared.outcome.Outcome.{Outcome};
ghost use Rattle.td_ops.specs.declared.outcome.Outcome.TheVariants as outcome;
ghost use Rattle.td_ops.specs.declared.outcome.Reply.{Reply};
ghost use Rattle.td_marks.specs.Keeping.{AreRingMarks as AreMarks};
ghost use Rattle.td_trader.specs.Admitted.{AdmitsChange};
ghost use Rattle.td_trader.specs.Following.{ActsBegin, ActsChange, ActsLook, ActsOnce, BeginsOnce, Follows};
ghost use Rattle.td_trader.specs.Following.{FollowsWritably};
ghost use Rattle.td_changes.specs.Histories.{Legal, StandsAt, is_done};
ghost use Rattle.td_changes.specs.Laws.{applied_after};
ghost use Rattle.td_trader.specs.PlainTraders.{AreBounds, PlainTrader, after_change, outcome_of, store_of};
ghost use Rattle.td_trader.specs.declared.begin.Begin.{Begin};

/// An accepted change is the entry at the point where it was made, and a refused one leaves the trader as it
/// was. The history stays legal, and the store behind it is the one that the change leaves.
pub fn changes_are_recorded()
    ensures accepted { (t : PlainTrader) (c : Change) (content : Reply)
        → Legal t.bounds t.opening t.history → outcome_of t c ≡ outcome.Done content
        → StandsAt (after_change t c).history (length t.history) c content }
    ensures refused { (t : PlainTrader) (c : Change) → is_done (outcome_of t c) ≡ false
        → after_change t c ≡ t }
    ensures legal { (t : PlainTrader) (c : Change) → Legal t.bounds t.opening t.history →
        Legal t.bounds t.opening (after_change t c).history }
    ensures store { (t : PlainTrader) (c : Change) → Legal t.bounds t.opening t.history →
        store_of (after_change t c) ≡ (applied_after t.bounds t.opening t.history c).store }
{}

/// A trader follows itself, what follows it later follows it, and each act of a holder leaves what follows it. Of
/// marks and bounds as `Trader::marks` tells them, a query that begins makes at most one mark, of an identifier that
/// isn't remembered.
pub fn acts_follow()
    ensures itself { (t : PlainTrader) → Follows t t }
    ensures on { (t u v : PlainTrader) → Follows t u → Follows u v → Follows t v }
    ensures change { (t u : PlainTrader) (c : Change) (r : Result Outcome Memory)
        → ActsChange t c r u → ActsOnce t u }
    ensures look { (t u : PlainTrader) (l : Look) (r : Result (Outcome × ℕ) Memory)
        → ActsLook t l r u → ActsOnce t u }
    ensures begin { (t u : PlainTrader) (q : Query) (r : Result Begin Memory) → AreBounds t.bounds
        → AreMarks t.marks → ActsBegin t q r u → BeginsOnce t u }
{}

/// So it is of what can be written: where each change since can be, each act of a holder leaves what follows so, if the
/// change can be written.
pub fn acts_follow_writably()
    ensures itself { (t : PlainTrader) → FollowsWritably t t }
    ensures on { (t u v : PlainTrader) → FollowsWritably t u → FollowsWritably u v
        → FollowsWritably t v }
    ensures change { (t u : PlainTrader) (c : Change) (r : Result Outcome Memory) → AdmitsChange c
        → ActsChange t c r u → FollowsWritably t u }
    ensures look { (t u : PlainTrader) (l : Look) (r : Result (Outcome × ℕ) Memory)
        → ActsLook t l r u → FollowsWritably t u }
    ensures begin { (t u : PlainTrader) (q : Query) (r : Result Begin Memory) → AreBounds t.bounds
        → AreMarks t.marks → ActsBegin t q r u → FollowsWritably t u }
{}
