//! Where bytes come from.

ghost use Rattle.std.specs.Prelude.{◌≡◌, ℕ, List, Option};
ghost use Rattle.std.specs.Io.{ReadsAtMost};
ghost use Rattle.std.specs.Io.KnownBytes.{ReadConsumes};
ghost use Rattle.td_out.specs.Causes.{HasCause};

use crate::fault::Failed;

/// Where bytes come from.
pub trait Source {
    /// The bytes that are left, where the source tells.
    ghost left: { Self → Option (List ℕ) };

    /// How many faults there were. The count never falls, and stands still at 2^64 - 1.
    ghost faults: { Self → ℕ };

    /// It is the same source still: of a borrow, that no other was put in its place.
    ghost same: { Self → Self → Type 0 };

    /// Moves bytes from the source's front into the front of `into`, and answers how many.
    /// None are moved only where `into` is empty or the source is at its end.
    ///
    /// # Errors
    ///
    /// `Failed` only where the count of faults rose; no byte was then moved.
    fn read(&mut self, into: &mut [u8]) -> Result<usize, Failed>
        ensures same { same self.old self.new }
        ensures bound { ReadsAtMost result into.new }
        ensures bytes { ReadConsumes (left self.old) (left self.new) result into.new }
        ensures cause { HasCause (faults self.old) (faults self.new) result };

    ghost same_on: { (a b c : Self) → same a b → same b c → same a c };
}

impl<S: Source> Source for &mut S {
    ghost left = { λ s. S.left s.now };

    ghost faults = { λ s. S.faults s.now };

    ghost same = { λ a b. a.ghost_name ≡ b.ghost_name };

    ghost use Rattle.std.proofs.Common.{◌∙◌};

    ghost same_on = { λ a b c p q. p ∙ q };

    fn read(&mut self, into: &mut [u8]) -> Result<usize, Failed> {
        (**self).read(into)
    }
}
