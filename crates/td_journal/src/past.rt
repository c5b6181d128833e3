//! A journal whose entries stand in proofs alone.

ghost use Rattle.td_ghost_list.specs.Entries.{entries_of};

use crate::journal::Journal;
use std::alloc::Global;
use td_cdr::Memory;
use td_ghost_list::Past;
use td_servant::Entry;

/// A journal that takes no memory: an entry is dropped when it is noted, and only proofs see what was noted.
#[derive(Drop)]
pub struct PastJournal {
    past: Past<Entry>,
}

impl Journal for PastJournal {
    ghost entries = { λ j. entries_of j.past };

    ghost has_room = { λ _. Unit {0} };

    fn empty(_alloc: Global) -> PastJournal {
        PastJournal { past: Past::new() }
    }

    fn take_room(&mut self) -> Result<(), Memory> {
        Ok(())
    }

    fn note(&mut self, entry: Entry) {
        self.past.note(&entry);
        drop(entry);
    }
}
