//! What the truth value before a batch of `next_n` says.

ghost use Rattle.std.specs.Prelude.{◌≡◌, ◌≤◌, nat_lt};
ghost use Rattle.td_iter.specs.Truths.{content};

/// What the truth value before a batch of `next_n` says.
#[derive(Clone, Copy)]
pub enum Truth {
    /// That something is left behind the batch (OMG's Trading Object Service, interfaces OfferIterator and
    /// OfferIdIterator).
    SomeLeft,
    /// That the batch isn't empty (OMG's Naming Service, interface BindingIterator).
    SomeGiven,
}

impl Truth {
    /// What it is for the first `count` of so many items.
    pub(crate) fn content(self, count: usize, all: usize) -> bool
        ensures { result ≡ content self (nat_lt 0 count) (nat_lt count all) }
    {
        match self {
            Truth::SomeLeft => count < all,
            Truth::SomeGiven => 0 < count,
        }
    }
}
