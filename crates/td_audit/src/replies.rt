//! Recorded replies against those that the server writes (CORBA, chapter on General Inter-ORB Protocol, "Reply
//! Message").

ghost use Rattle.std.specs.Prelude.{◌≡◌, ◌≤◌, length, nat_le, IfOk, MatchBool};
ghost use Rattle.std.specs.Str.{bytes_eq};
ghost use Rattle.td_typecode.specs.References.{reference as references};
ghost use Rattle.td_cdr.specs.declared.order.Order.TheVariants.{Big};
ghost use Rattle.td_giop.specs.Written.{reply_start, seal_size};
ghost use Rattle.td_giop.specs.declared.header.TheConstants.{HEADER_SIZE};
ghost use Rattle.td_iter.specs.Heads.{AreLimits};
ghost use Rattle.td_iter.specs.declared.limits.TheConstants.{REPLY_START};
ghost use Rattle.td_log.specs.Forms.{minor_of};
ghost use Rattle.td_audit.specs.Replies.{HasIds, HasOffers, ends_so, spelled_reply};
ghost use Rattle.td_audit.specs.Verdicts.{Compares};

use crate::verdict::{AuditStop, Cause};
use std::alloc::Global;
use td_cdr::{List, Memory, Order, Text, Writer};
use td_giop::{seal, start_reply};
use td_ior::is_nil;
use td_iter::{put_first, put_found};
use td_log::{Recorded, ReplyForm};
use td_ops::{Outcome, status_of, write_outcome};
use td_value::{Ior, Offer, write_ior};

/// How many bytes the reference of an iterator has at most.
const SMALL_REFERENCE: usize = 4096;

/// A writer that holds what stands in front of a reply's body.
#[tactic(auto, using(crate::proofs::Begun::start_length))]
pub(crate) fn begin_reply(alloc: Global, form: ReplyForm, status: u32) -> Result<Writer, Memory>
    ensures bytes { IfOk result (λ w. w.bytes
        ≡ reply_start form.order (minor_of form.version) form.id status) }
    ensures start { IfOk result (λ w. length w.bytes ≡ REPLY_START) }
    ensures order { IfOk result (λ w. w.order ≡ form.order) }
{
    let mut writer = Writer::new(alloc, form.order);
    start_reply(&mut writer, form.version.minor(), form.id, status)?;
    Ok(writer)
}

/// The whole Reply for an outcome.
///
/// # Errors
///
/// `Memory` only when out of memory.
pub(crate) fn write_reply(
    alloc: Global,
    form: ReplyForm,
    outcome: &Outcome,
) -> Result<Writer, Memory>
    ensures { IfOk result (λ w. w.bytes ≡ spelled_reply form outcome.now) }
{
    let mut writer = begin_reply(alloc, form, status_of(outcome))?;
    write_outcome(alloc, &mut writer, outcome)?;
    seal(&mut writer);
    Ok(writer)
}

/// Whether a recorded reply is the one for an outcome.
///
/// # Errors
///
/// `Memory` only when out of memory.
pub(crate) fn is_spelled(
    alloc: Global,
    form: ReplyForm,
    outcome: &Outcome,
    reply: &Recorded,
) -> Result<bool, Memory>
    ensures { IfOk result (λ b. b ≡ bytes_eq reply.now.bytes (spelled_reply form outcome.now)) }
{
    let writer = write_reply(alloc, form, outcome)?;
    Ok(reply.bytes.as_slice() == writer.bytes())
}

/// Compares a recorded reply with the one for an outcome.
pub(crate) fn compare(
    alloc: Global,
    form: ReplyForm,
    outcome: &Outcome,
    reply: &Recorded,
) -> Result<(), AuditStop>
    ensures { Compares (reply.now.bytes ≡ spelled_reply form outcome.now) result }
{
    match is_spelled(alloc, form, outcome, reply) {
        Ok(true) => Ok(()),
        Ok(false) => Err(AuditStop::At(Cause::Differs)),
        Err(Memory) => Err(AuditStop::Memory),
    }
}

/// Whether a reference has at most 4,096 bytes, written in big order from place 0 on.
fn is_small(alloc: Global, reference: &Ior) -> Result<bool, Memory>
    ensures { IfOk result (λ b. b
        ≡ nat_le (length (references.format.writes reference.now Big 0)) SMALL_REFERENCE) }
{
    let mut writer = Writer::new(alloc, Order::Big);
    write_ior(alloc, &mut writer, reference)?;
    Ok(writer.len() <= SMALL_REFERENCE)
}

/// Whether a recorded reply has the batch for n of these offers.
///
/// # Errors
///
/// `Memory` only when out of memory.
pub(crate) fn has_offers(
    alloc: Global,
    form: ReplyForm,
    n: u32,
    limits: &List<Text>,
    offers: &[Offer],
    reply: &Recorded,
) -> Result<bool, Memory>
    requires { AreLimits limits.now }
    ensures { IfOk result (λ b. MatchBool b (HasOffers form n limits.now offers.now reply.now)
        (HasOffers form n limits.now offers.now reply.now → ⊥)) }
{
    if !is_small(alloc, &reply.iterator)? {
        return Ok(false);
    }
    let mut writer = begin_reply(alloc, form, 0)?;
    let count = put_found(alloc, &mut writer, offers, n, &reply.iterator, limits)?;
    Ok(ends_so(count < offers.len(), writer, reply))
}

/// Whether a recorded reply has the batch for n of these ids.
///
/// # Errors
///
/// `Memory` only when out of memory.
pub(crate) fn has_ids(
    alloc: Global,
    form: ReplyForm,
    n: u32,
    ids: &[Text],
    reply: &Recorded,
) -> Result<bool, Memory>
    ensures { IfOk result (λ b. MatchBool b (HasIds form n ids.now reply.now)
        (HasIds form n ids.now reply.now → ⊥)) }
{
    if !is_small(alloc, &reply.iterator)? {
        return Ok(false);
    }
    let mut writer = begin_reply(alloc, form, 0)?;
    let count = put_first(alloc, &mut writer, ids, n, &reply.iterator)?;
    Ok(ends_so(count < ids.len(), writer, reply))
}

/// Whether a reply has the bytes that the writer holds, once they are sealed, and a nil reference exactly where nothing
/// is left.
fn ends_so(more: bool, writer: Writer, reply: &Recorded) -> bool
    requires { HEADER_SIZE ≤ length writer.bytes }
    ensures { result ≡ ends_so more reply.now (seal_size writer.order writer.bytes) }
{
    if is_nil(&reply.iterator) == more {
        return false;
    }
    let mut writer = writer;
    seal(&mut writer);
    reply.bytes.as_slice() == writer.bytes()
}
