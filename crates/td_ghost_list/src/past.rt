//! What was noted so far, for proofs alone.

ghost use Rattle.std.specs.Prelude.{◌≡◌, [], ◌∷◌, ◌++◌};
ghost use Rattle.td_ghost_list.specs.Entries.{entries_of};

use std::snapshot::Snapshot;

/// What was noted so far. Snapshots take no memory, and contracts see the whole as a list (`entries_of`).
#[derive(Drop)]
pub enum Past<E> {
    Start,
    Next(Snapshot<Past<E>>, Snapshot<E>),
}

impl<E> Past<E> {
    /// Nothing was noted.
    pub fn new() -> Past<E>
        ensures { entries_of result ≡ [] }
    {
        Past::Start
    }

    /// Notes an entry behind the others, which isn't kept. Takes no memory.
    pub fn note(&mut self, entry: &E)
        ensures { entries_of self.new ≡ entries_of self.old ++ entry.now ∷ [] }
    {
        let before = Snapshot::of(self);
        *self = Past::Next(before, Snapshot::of(entry));
    }
}
