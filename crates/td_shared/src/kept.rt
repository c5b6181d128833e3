//! A journal that keeps its entries.

ghost use Rattle.std.specs.Prelude.{◌≡◌, ◌<◌, vec_capacity, vec_len};

use crate::entry::SharedEntry;
use crate::journal::SharedJournal;
use std::alloc::Global;
use td_cdr::Memory;

/// A journal that keeps its entries, and lends them.
#[derive(Drop)]
pub struct KeptSharedJournal {
    kept: Vec<SharedEntry>,
}

impl KeptSharedJournal {
    /// What was noted, in order.
    pub fn entries(&self) -> &[SharedEntry]
        ensures { result.now ≡ self.now.kept.items }
    {
        self.kept.as_slice()
    }
}

impl SharedJournal for KeptSharedJournal {
    ghost entries = { λ j. j.kept.items };

    ghost has_room = { λ j. vec_len j.kept < vec_capacity j.kept };

    fn empty(alloc: Global) -> KeptSharedJournal {
        KeptSharedJournal {
            kept: Vec::new(alloc),
        }
    }

    fn take_room(&mut self) -> Result<(), Memory> {
        self.kept.reserve(1)?;
        Ok(())
    }

    fn note(&mut self, entry: SharedEntry) {
        self.kept.push_reserved(entry);
    }
}
