//! Worked trees.

ghost use Rattle.std.specs.Prelude.{ℕ, List, Option};
ghost use Rattle.td_typecode.specs.declared.reference.Ior.{Ior};
ghost use Rattle.td_net_examples.specs.Fixtures.{AreInside};
ghost use Rattle.td_net_examples.specs.Trees.{WorkedChanges, WorkedDiamond, WorkedReturn, WorkedRing, WorkedStop};

/// A ring of three traders: the query that comes back to the first gives nothing.
pub fn worked_ring()
    ensures { (to : List ℕ → Ior) (inside : Ior → Option ℕ) (words : List ℕ) → AreInside inside to
        → WorkedRing to inside words }
{}

/// A ring at which gathering stops: two offers are wanted, and the third trader isn't asked.
pub fn worked_stop()
    ensures { (to : List ℕ → Ior) (inside : Ior → Option ℕ) (words : List ℕ) → AreInside inside to
        → WorkedStop to inside words }
{}

/// A diamond, one after the other, and in two schedules in which an answer is lost.
pub fn worked_diamond()
    ensures { (to : List ℕ → Ior) (inside : Ior → Option ℕ) (words : List ℕ) → AreInside inside to
        → WorkedDiamond to inside words }
{}

/// Each trader is read as it was when its call came.
pub fn worked_changes()
    ensures { (to : List ℕ → Ior) (inside : Ior → Option ℕ) (words : List ℕ) → AreInside inside to
        → WorkedChanges to inside words }
{}

/// A call that comes back to a trader whose own call waits.
pub fn worked_return()
    ensures { (to : List ℕ → Ior) (inside : Ior → Option ℕ) (words : List ℕ) → AreInside inside to
        → WorkedReturn to inside words }
{}
