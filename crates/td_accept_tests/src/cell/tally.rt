//! A book for tests: a sum of numbers, with how many were added.

ghost use Rattle.std.specs.Prelude.{◌≡◌, ℕ, ◌+◌, ◌≤◌};

use td_cell::Book;

/// A sum, and how many numbers were added to it.
#[derive(Drop)]
pub struct Tally {
    pub sum: u64,
    pub count: u64,
}

impl Book for Tally {
    type Act = u64;

    type Reply = u64;

    ghost use Rattle.td_accept_tests.specs.Tallies.{no_marks};

    ghost size = { λ t. t.count };

    ghost remembers = { λ t. no_marks };

    ghost later = { λ t u. t.count ≤ u.count };

    ghost acts = { λ t k r u. (t.count ≤ u.count) × (u.count ≤ t.count + 1) };

    /// Adds a number, and answers the sum.
    fn act(&mut self, a: u64) -> u64 {
        self.sum = self.sum.saturating_add(a);
        self.count = self.count.saturating_add(1);
        self.sum
    }

    fn changes(&self) -> u64 {
        self.count
    }

    fn marks(&self) -> u64 {
        0
    }

    ghost use Rattle.std.proofs.Common.{arith, inl, refl};
    ghost use Rattle.td_accept_tests.specs.Tallies.{marks_stay};

    ghost later_itself = { λ t. Prim.omega arith };

    ghost later_on = { λ t u v p q. Prim.omega arith };

    ghost later_size = { λ t u p. p };

    ghost later_marks = { λ t u p. marks_stay };

    ghost acts_later = { λ t k r u h. h.0 };

    ghost acts_once = { λ t k r u h. h.1 };

    ghost acts_mark = { λ t k r u h. inl refl };
}
