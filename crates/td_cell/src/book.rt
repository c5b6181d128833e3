//! What is kept in a cell.

ghost use Rattle.std.specs.Prelude.{◌≡◌, ℕ, ◌+◌, ◌≤◌};
ghost use Rattle.td_cdr.specs.Marks.{Marks as TheMarks, Later};
ghost use Rattle.td_cell.specs.OwnMarks.{AddsMark};

/// A history of entries with the marks of queries, to which acts are done.
pub trait Book {
    /// What is asked of the book.
    type Act;

    /// What an act is answered with.
    type Reply;

    /// How many entries its history has.
    ghost size: { Self → ℕ };

    /// Its marks.
    ghost remembers: { Self → TheMarks };

    /// The second may be what the first has become: its fixed part is the same, and its history begins with the
    /// first's.
    ghost later: { Self → Self → Type 0 };

    /// What an act answers, and what it leaves.
    ghost acts: { Self → Self.Act → Self.Reply → Self → Type 0 };

    /// Does one act.
    fn act(&mut self, a: Self::Act) -> Self::Reply
        ensures { acts self.old a result self.new };

    /// How many entries the history has.
    fn changes(&self) -> u64
        ensures { result ≡ size self.now };

    /// How many marks were made.
    fn marks(&self) -> u64
        ensures { result ≡ (remembers self.now).count };

    ghost later_itself: { (b : Self) → later b b };

    ghost later_on: { (b c d : Self) → later b c → later c d → later b d };

    ghost later_size: { (b c : Self) → later b c → size b ≤ size c };

    ghost later_marks: { (b c : Self) → later b c → Later (remembers b) (remembers c) };

    ghost acts_later: { (b : Self) (a : Self.Act) (r : Self.Reply) (c : Self) → acts b a r c
        → later b c };

    ghost acts_once: { (b : Self) (a : Self.Act) (r : Self.Reply) (c : Self) → acts b a r c
        → size c ≤ size b + 1 };

    ghost acts_mark: { (b : Self) (a : Self.Act) (r : Self.Reply) (c : Self) →
        acts b a r c → AddsMark (remembers b) (remembers c) };
}
