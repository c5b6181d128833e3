//! Texts by name, such as the server's file.

ghost use Rattle.std.specs.Prelude.{◌≡◌, ℕ, ◌≤◌, List, Option};
ghost use Rattle.td_out.specs.Texts.{NamedText, HasText};

use crate::fault::TextFault;
use std::alloc::Global;
use td_cdr::Octets;

/// How long a text may be, in bytes: 64 MiB.
pub(crate) const LONGEST_TEXT: usize = 67_108_864;

/// Texts by name.
pub trait Texts {
    /// The texts with their names, where the object tells; of two texts of one name the first counts.
    ghost content: { Self → Option (List NamedText) };

    /// How many faults there were. The count never falls, and stands still at 2^64 - 1.
    ghost faults: { Self → ℕ };

    /// It is the same object still: of a borrow, that no other was put in its place.
    ghost same: { Self → Self → Type 0 };

    /// The text of that name. None of the texts changes.
    ///
    /// # Errors
    ///
    /// - `Failed` only where the count of faults rose.
    /// - `TooLong` for a text of more than 64 MiB (67,108,864 bytes).
    /// - `Memory` when out of memory.
    fn text(&mut self, alloc: Global, name: &str) -> Result<Octets, TextFault>
        ensures same { same self.old self.new }
        ensures kept { content self.new ≡ content self.old }
        ensures later { faults self.old ≤ faults self.new }
        ensures gives { HasText (content self.old) name.now (faults self.old)
            (faults self.new) result };

    ghost same_on: { (a b c : Self) → same a b → same b c → same a c };
}

impl<L: Texts> Texts for &mut L {
    ghost content = { λ s. L.content s.now };

    ghost faults = { λ s. L.faults s.now };

    ghost same = { λ a b. a.ghost_name ≡ b.ghost_name };

    ghost use Rattle.std.proofs.Common.{◌∙◌};

    ghost same_on = { λ a b c p q. p ∙ q };

    fn text(&mut self, alloc: Global, name: &str) -> Result<Octets, TextFault> {
        (**self).text(alloc, name)
    }
}
