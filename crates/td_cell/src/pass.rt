//! What a pass knows.

ghost use Rattle.std.specs.Prelude.{◌≡◌, [], false, None, IsSome, length};
ghost use Rattle.std.specs.Option.{ForSome};
ghost use Rattle.td_cell.specs.Rules.{count_met};

use crate::book::Book;
use atomic_table::Seat;
use td_cdr::{List, Octets};

/// A mark that was made through a pass. It stands in proofs alone: no value of it is made.
pub struct Mark {
    pub identifier: Octets,
    /// The mark's number, from 1.
    pub number: u64,
    /// The value of the book's counter, where the identifier was made of it.
    pub made: Option<u64>,
}

/// What a pass knows. It stands in proofs alone: no value of it is made.
pub struct View<B> {
    /// The turn is held.
    pub holds: bool,
    /// The pass was met, and is no more.
    pub spent: bool,
    /// 0 for the opening pass, k for the k-th that was split off.
    pub number: u64,
    /// The book as it was seen last.
    pub seen: Option<B>,
    /// What a pass that is being met has seen.
    pub content: Option<B>,
    /// The opening pass keeps for each pass that was split off whether it was met.
    pub met: List<bool>,
    /// How many passes it has met.
    pub meetings: u64,
    /// How many turns were made through this pass, and through those that it has met.
    pub turns: u64,
    /// How many entries the history has that was seen.
    pub changes: u64,
    /// How many marks were made by then.
    pub marks: u64,
    /// The places of the entries that were made through this pass.
    pub own: List<u64>,
    /// The marks that were made through this pass.
    pub own_marks: List<Mark>,
}

/// A pass of a cell, by which one holder does acts on its book. The opening one counts the others, and those of them
/// that it has met: which ones they were is known in proofs alone.
#[derive(Drop)]
pub struct Pass<B: Book> {
    pub(crate) seat: Seat<B, View<B>>,
    pub(crate) changes: u64,
    /// How many passes were split off.
    pub(crate) splits: u64,
    /// How many of them were met.
    pub(crate) meetings: u64,
    ghost splits_counted: { splits ≡ length seat.me.0.met },
    ghost meetings_counted: { meetings ≡ seat.me.0.meetings },
    ghost meetings_are_met: { meetings ≡ count_met seat.me.0.met },
    ghost counted: { changes ≡ seat.me.0.changes },
    ghost live: { seat.me.0.spent ≡ false },
    ghost rests: { seat.me.0.holds ≡ false },
    ghost knows: { IsSome seat.me.0.seen },
    ghost sized: { ForSome seat.me.0.seen (λ b. changes ≡ B.size b) },
    ghost quiet: { seat.me.0.content ≡ None },
    ghost empty: { seat.me.1 ≡ [] },
}

impl<B: Book> Pass<B> {
    ghost use Rattle.td_cell.specs.Passes.{knowledge};

    /// How many entries the history has that the pass has seen. Makes no turn, and takes no memory.
    pub fn changes(&self) -> u64
        ensures { ForSome (knowledge self.now).seen (λ b. result ≡ B.size b) }
    {
        self.changes
    }
}
