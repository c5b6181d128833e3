//! Writing the messages that answer a Request and a LocateRequest.

ghost use Rattle.std.specs.Prelude.{◌≡◌, ◌≤◌, IsTrue, IsOk, OnOk};
ghost use Rattle.td_giop.specs.declared.header.TheConstants.{NEWEST_MINOR};
ghost use Rattle.td_name_ops.specs.Outcomes.{is_plain};
ghost use Rattle.td_name_session.specs.ReplyBytes.{IsWritable, locate_reply, outcome_reply};
ghost use Rattle.td_name_session.specs.Finishing.{AlwaysFits};

use crate::reply_to::ReplyTo;
use std::alloc::Global;
use td_cdr::{Memory, Order, Writer};
use td_giop::{seal, start_reply, write_locate_reply};
use td_name_ops::{NameOutcome, name_status, write_name_outcome};

/// Writes the Reply for an outcome, in place of what the writer held.
///
/// # Errors
///
/// `Memory` only when out of memory; with 1,300 bytes of room there is none for an outcome that always fits.
pub(crate) fn write_reply(
    alloc: Global,
    writer: &mut Writer,
    to: ReplyTo,
    outcome: &NameOutcome,
) -> Result<(), Memory>
    requires version { IsWritable to }
    ensures ok { OnOk result (writer.new.bytes ≡ outcome_reply to outcome.now) }
    ensures room { IsTrue (is_plain outcome.now) → writer.old.room ≤ writer.new.room }
    ensures fits { AlwaysFits outcome.now → 1300 ≤ writer.old.room → IsOk result }
{
    writer.restart(to.order);
    start_reply(writer, to.minor, to.id, name_status(outcome))?;
    write_name_outcome(alloc, writer, outcome)?;
    seal(writer);
    Ok(())
}

/// Writes the Reply for an outcome for which there is always room.
pub(crate) fn write_always(alloc: Global, writer: &mut Writer, to: ReplyTo, outcome: &NameOutcome)
    requires version { IsWritable to }
    requires fits { AlwaysFits outcome.now }
    requires room { 1300 ≤ writer.old.room }
    ensures bytes { writer.new.bytes ≡ outcome_reply to outcome.now }
    ensures room { 1300 ≤ writer.new.room }
{
    write_reply(alloc, writer, to, outcome).unwrap();
}

/// Writes a LocateReply, for which there is always room.
pub(crate) fn write_location(writer: &mut Writer, order: Order, minor: u8, id: u32, live: bool)
    requires room { 1300 ≤ writer.old.room }
    requires minor { minor ≤ NEWEST_MINOR }
    ensures bytes { writer.new.bytes ≡ locate_reply order minor id live }
    ensures room { 1300 ≤ writer.new.room }
{
    writer.restart(order);
    let status = u32::from(live);
    write_locate_reply(writer, minor, id, status).unwrap();
    seal(writer);
}
