//! What comes of an Ask where one of the premises on its identifier doesn't hold.

ghost use Rattle.std.specs.Prelude.{ℕ, List};
ghost use Rattle.td_typecode.specs.declared.reference.Ior.{Ior};
ghost use Rattle.td_net_examples.specs.Without.{AreLookups, WithoutAlone, WithoutFresh, WithoutRemembered};
ghost use Rattle.td_walk.specs.declared.trace.Address.{Address};

/// A trader remembers the identifier at the Ask: its call gives nothing, and its tree has the trader's offer.
pub fn without_fresh()
    ensures { (home : Address) (words : List ℕ) → WithoutFresh home words }
{}

/// Another Ask comes to a trader under the identifier, before the question of the first one: this gives nothing, and
/// its tree has the trader's offer.
pub fn without_alone()
    ensures { (to : List ℕ → Ior) (home : Address) (words : List ℕ) → AreLookups home to
        → WithoutAlone to home words }
{}

/// The identifier is forgotten before the question comes to the trader again: this gives the trader's offer once more,
/// and its tree has nothing.
pub fn without_remembered()
    ensures { (to : List ℕ → Ior) (home : Address) (words : List ℕ) → AreLookups home to
        → WithoutRemembered to home words }
{}
