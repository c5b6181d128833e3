//! Where bytes go.

ghost use Rattle.std.specs.Prelude.{◌≡◌, ℕ, List, Option};
ghost use Rattle.std.specs.Io.KnownBytes.{WriteAppends};
ghost use Rattle.td_out.specs.Causes.{HasCause, TakesPiece};

use crate::fault::Failed;

/// Where bytes go.
pub trait Sink {
    /// The bytes that were written, where the sink tells.
    ghost written: { Self → Option (List ℕ) };

    /// How many faults there were. The count never falls, and stands still at 2^64 - 1.
    ghost faults: { Self → ℕ };

    /// It is the same sink still: of a borrow, that no other was put in its place.
    ghost same: { Self → Self → Type 0 };

    /// Writes the first bytes of the piece, and answers how many: at least one of a piece that isn't empty.
    /// They are handed on at once; a sink holds nothing back.
    ///
    /// # Errors
    ///
    /// `Failed` only where the count of faults rose; no byte was then written, as far as the sink tells.
    fn write(&mut self, piece: &[u8]) -> Result<usize, Failed>
        ensures same { same self.old self.new }
        ensures some { TakesPiece result piece.now }
        ensures bytes { WriteAppends (written self.old) (written self.new) result piece.now }
        ensures cause { HasCause (faults self.old) (faults self.new) result };

    ghost same_on: { (a b c : Self) → same a b → same b c → same a c };
}

impl<K: Sink> Sink for &mut K {
    ghost written = { λ s. K.written s.now };

    ghost faults = { λ s. K.faults s.now };

    ghost same = { λ a b. a.ghost_name ≡ b.ghost_name };

    ghost use Rattle.std.proofs.Common.{◌∙◌};

    ghost same_on = { λ a b c p q. p ∙ q };

    fn write(&mut self, piece: &[u8]) -> Result<usize, Failed> {
        (**self).write(piece)
    }
}
