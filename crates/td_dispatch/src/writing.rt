//! Writing the messages that answer a Request and a LocateRequest.

ghost use Rattle.std.specs.Prelude.{◌≡◌, ◌≤◌, IsTrue, IsOk, OnOk};
ghost use Rattle.td_ops.specs.Outcomes.{is_short};
ghost use Rattle.td_ops.specs.declared.outcome.Outcome.TheVariants.{Done};
ghost use Rattle.td_giop.specs.declared.header.TheConstants.{NEWEST_MINOR};
ghost use Rattle.td_dispatch.specs.ReplyBytes.{IsWritable, locate_reply, outcome_reply};

use crate::reply_to::ReplyTo;
use std::alloc::Global;
use td_cdr::{Memory, Order, Writer};
use td_giop::{seal, start_reply, write_locate_reply};
use td_ops::{Outcome, Reply, status_of, write_outcome};

/// How many bytes an id or a stem has at most that fits in the reserved bytes.
const SHORT_LENGTH: usize = 64;

/// Whether the reply for an outcome fits in the reserved bytes.
pub(crate) fn is_short(outcome: &Outcome) -> bool
    ensures { result ≡ is_short outcome.now }
{
    match outcome {
        Outcome::Done(reply) => is_short_reply(reply),
        Outcome::User(_) => false,
        Outcome::System { .. } => true,
    }
}

/// Whether a result fits in the reserved bytes.
fn is_short_reply(reply: &Reply) -> bool
    ensures { result ≡ is_short (Done reply.now) }
{
    match reply {
        Reply::Nothing
        | Reply::Number(_)
        | Reply::Truth(_)
        | Reply::Follow(_)
        | Reply::Incarnation(_) => true,
        Reply::Id(id) => id.as_slice().len() <= SHORT_LENGTH,
        Reply::Stem(stem) => stem.as_slice().len() <= SHORT_LENGTH,
        _ => false,
    }
}

/// Writes the Reply for an outcome, in place of what the writer held.
///
/// # Errors
///
/// `Memory` only when out of memory; with 512 bytes of room there is none for a short outcome.
pub(crate) fn write_reply(
    alloc: Global,
    writer: &mut Writer,
    to: ReplyTo,
    outcome: &Outcome,
) -> Result<(), Memory>
    requires version { IsWritable to }
    ensures ok { OnOk result (writer.new.bytes ≡ outcome_reply to outcome.now) }
    ensures room { IsTrue (is_short outcome.now) → writer.old.room ≤ writer.new.room }
    ensures fits { IsTrue (is_short outcome.now) → 512 ≤ writer.old.room → IsOk result }
{
    writer.restart(to.order);
    start_reply(writer, to.minor, to.id, status_of(outcome))?;
    write_outcome(alloc, writer, outcome)?;
    seal(writer);
    Ok(())
}

/// Writes the Reply for a short outcome, for which there is always room.
pub(crate) fn write_short(alloc: Global, writer: &mut Writer, to: ReplyTo, outcome: &Outcome)
    requires version { IsWritable to }
    requires short { IsTrue (is_short outcome.now) }
    requires room { 512 ≤ writer.old.room }
    ensures bytes { writer.new.bytes ≡ outcome_reply to outcome.now }
    ensures room { 512 ≤ writer.new.room }
{
    write_reply(alloc, writer, to, outcome).unwrap();
}

/// Writes a LocateReply, for which there is always room.
pub(crate) fn write_location(writer: &mut Writer, order: Order, minor: u8, id: u32, live: bool)
    requires room { 512 ≤ writer.old.room }
    requires version { minor ≤ NEWEST_MINOR }
    ensures bytes { writer.new.bytes ≡ locate_reply order minor id live }
    ensures room { 512 ≤ writer.new.room }
{
    writer.restart(order);
    let status = u32::from(live);
    write_locate_reply(writer, minor, id, status).unwrap();
    seal(writer);
}
