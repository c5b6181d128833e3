//! A journal whose entries stand in proofs alone.

ghost use Rattle.td_ghost_list.specs.Entries.{entries_of};

use crate::entry::SharedEntry;
use crate::journal::SharedJournal;
use std::alloc::Global;
use td_cdr::Memory;
use td_ghost_list::Past;

/// A journal that takes no memory: an entry is dropped when it is noted, and only proofs see what was noted.
#[derive(Drop)]
pub struct PastSharedJournal {
    past: Past<SharedEntry>,
}

impl SharedJournal for PastSharedJournal {
    ghost entries = { λ j. entries_of j.past };

    ghost has_room = { λ _. Unit {0} };

    fn empty(_alloc: Global) -> PastSharedJournal {
        PastSharedJournal { past: Past::new() }
    }

    fn take_room(&mut self) -> Result<(), Memory> {
        Ok(())
    }

    fn note(&mut self, entry: SharedEntry) {
        self.past.note(&entry);
        drop(entry);
    }
}
