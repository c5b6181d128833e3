//! What a session does on the desk that it shares, and what it notes.

ghost use Rattle.std.specs.Prelude.{◌≡◌, OnOk};
ghost use Rattle.td_cell.specs.Passes.{Belongs, knowledge};
ghost use Rattle.td_desk.specs.OrderLaws.{in_order_prop};
ghost use Rattle.td_desk.specs.Sharing.{InOrder};

use crate::journal::SharedJournal;
use td_cdr::Memory;
use td_desk::{DeskPass, SharedDesk};

/// What a session calls the desk through, and what it notes of its messages.
#[derive(Drop)]
pub(crate) struct Sharing<'d, 's, 'j, R, J> {
    pub(crate) rt: &'d R,
    pub(crate) desk: &'d SharedDesk,
    pub(crate) pass: &'s mut DeskPass,
    pub(crate) journal: &'j mut J,
    /// A call of the desk was `Full`.
    pub(crate) full: bool,
    ghost own: { Belongs pass.now desk.now.cell },
    ghost order: { InOrder (knowledge pass.now) } by { in_order_prop (knowledge pass.now) },
}

/// Takes room to note one message more.
///
/// # Errors
///
/// `Memory` only when out of memory; nothing is changed then.
pub(crate) fn take_room<'d, 's, 'j, R, J: SharedJournal>(
    sharing: &mut Sharing<'d, 's, 'j, R, J>,
) -> Result<(), Memory>
    ensures pass { sharing.new.pass.ghost_name ≡ sharing.old.pass.ghost_name }
    ensures pass_stays { sharing.new.pass.now ≡ sharing.old.pass.now }
    ensures journal { sharing.new.journal.ghost_name ≡ sharing.old.journal.ghost_name }
    ensures noted { J.entries sharing.new.journal.now ≡ J.entries sharing.old.journal.now }
    ensures desk { sharing.new.desk ≡ sharing.old.desk }
    ensures full { sharing.new.full ≡ sharing.old.full }
    ensures room { OnOk result
        (J.has_room sharing.new.journal.now) }
{
    sharing.journal.take_room()
}
