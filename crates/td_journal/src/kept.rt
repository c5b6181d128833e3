//! A journal that keeps its entries.

ghost use Rattle.std.specs.Prelude.{◌≡◌, ◌<◌, ◌++◌, [], IfNone, vec_len, vec_capacity};
ghost use Rattle.td_journal.specs.Lists.{as_list};

use crate::journal::Journal;
use std::alloc::Global;
use td_cdr::Memory;
use td_servant::Entry;

/// A journal that keeps its entries, and lends them.
#[derive(Drop)]
pub struct KeptJournal {
    kept: Vec<Entry>,
}

impl KeptJournal {
    /// What was noted, in order.
    pub fn entries(&self) -> &[Entry]
        ensures { result.now ≡ self.now.kept.items }
    {
        self.kept.as_slice()
    }

    /// Takes the entry out that was noted last.
    pub fn pop(&mut self) -> Option<Entry>
        ensures taken { self.old.kept.items ≡ self.new.kept.items ++ as_list result }
        ensures none { IfNone result (self.old.kept.items ≡ []) }
    {
        self.kept.pop()
    }
}

impl Journal for KeptJournal {
    ghost entries = { λ j. j.kept.items };

    ghost has_room = { λ j. vec_len j.kept < vec_capacity j.kept };

    fn empty(alloc: Global) -> KeptJournal {
        KeptJournal {
            kept: Vec::new(alloc),
        }
    }

    fn take_room(&mut self) -> Result<(), Memory> {
        self.kept.reserve(1)?;
        Ok(())
    }

    fn note(&mut self, entry: Entry) {
        self.kept.push_reserved(entry);
    }
}
