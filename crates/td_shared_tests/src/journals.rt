//! Journals of both kinds.

ghost use Rattle.std.specs.Prelude.{◌≡◌, ◌∷◌, [], IfOk};
ghost use Rattle.td_shared.specs.declared.entry.SharedEntry.TheVariants as entry;

use std::alloc::Global;
use std::mem::size_of;
use std::process::Abort;
use std::test::Fail;
use td_cdr::Memory;
use td_shared::{KeptSharedJournal, PastSharedJournal, SharedEntry, SharedJournal};

/// A journal in which two calls of a desk are noted.
fn noted<J: SharedJournal + Drop>(alloc: Global) -> Result<J, Memory>
    ensures { IfOk result (λ j. J.entries j ≡ entry.Desk 3 ∷ entry.Desk 7 ∷ []) }
{
    let mut journal = J::empty(alloc);
    journal.take_room()?;
    journal.note(SharedEntry::Desk(3));
    journal.take_room()?;
    journal.note(SharedEntry::Desk(7));
    Ok(journal)
}

/// Both note the same, and the one that keeps it lends it; the other one has at most 8 bytes, whatever was noted.
#[test]
fn entries_are_noted(rt: HostRuntime) -> Result<(), Fail> {
    let kept: KeptSharedJournal = noted(rt.alloc())?;
    assert!(rt; matches!(kept.entries(), [SharedEntry::Desk(3), SharedEntry::Desk(7)]));
    let past: PastSharedJournal = noted(rt.alloc())?;
    drop(past);
    assert!(rt; size_of::<PastSharedJournal>() <= 8);
    Ok(())
}
