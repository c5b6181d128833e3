//! From an answer to the bytes of its reply.

ghost use Rattle.std.specs.Prelude.{◌≡◌, ◌≤◌, IfOk, OnErr};
ghost use Rattle.td_name_session.specs.ReplyBytes.{IsWritable, outcome_reply};
ghost use Rattle.td_name_session.specs.Finishing.{AlwaysFits, HasHeader, FinishesReply, FinishesBody, WritesOutcome};
ghost use Rattle.td_name_session.specs.Finishing.{chosen};

use crate::answer::{AnswerBody, system};
use crate::reply_to::ReplyTo;
use crate::writing::{write_always, write_reply};
use std::alloc::Global;
use td_cdr::{Memory, Writer};
use td_giop::seal;
use td_name_ops::{NameOutcome, is_plain};
use td_ops::SystemKind;

/// Leaves the Reply for an answer in one of the writers, or NO_MEMORY when memory runs out for it; no bytes where none
/// is expected. Answers whether the long writer has it.
pub(crate) fn finish_reply(
    alloc: Global,
    short: &mut Writer,
    long: &mut Writer,
    to: ReplyTo,
    body: AnswerBody,
) -> bool
    requires version { IsWritable to }
    requires reserved { 1300 ≤ short.old.room }
    requires header { HasHeader body long.old }
    ensures settles { FinishesReply to body long.old (chosen result short.new long.new) }
    ensures reserved { 1300 ≤ short.new.room }
{
    if to.answered {
        finish_body(alloc, short, long, to, body)
    } else {
        drop(body);
        short.clear();
        false
    }
}

/// The reply that is expected.
fn finish_body(
    alloc: Global,
    short: &mut Writer,
    long: &mut Writer,
    to: ReplyTo,
    body: AnswerBody,
) -> bool
    requires version { IsWritable to }
    requires reserved { 1300 ≤ short.old.room }
    requires header { HasHeader body long.old }
    ensures settles { FinishesBody to body long.old (chosen result short.new long.new) }
    ensures reserved { 1300 ≤ short.new.room }
{
    match body {
        AnswerBody::Outcome(outcome) => tell(alloc, short, long, to, outcome),
        AnswerBody::Written => {
            seal(long);
            true
        }
    }
}

/// The reply for an outcome that is still to be written, or NO_MEMORY when memory runs out for it.
#[tactic(auto, using(crate::proofs::Short::content_fits))]
fn tell(
    alloc: Global,
    short: &mut Writer,
    long: &mut Writer,
    to: ReplyTo,
    outcome: NameOutcome,
) -> bool
    requires version { IsWritable to }
    requires reserved { 1300 ≤ short.old.room }
    ensures tells { WritesOutcome to outcome (chosen result short.new long.new) }
    ensures reserved { 1300 ≤ short.new.room }
{
    let content = write_outcome(alloc, short, long, to, &outcome);
    drop(outcome);
    match content {
        Ok(is_long) => is_long,
        Err(_) => {
            let no_memory_outcome = system(SystemKind::NoMemory);
            write_always(alloc, short, to, &no_memory_outcome);
            drop(no_memory_outcome);
            false
        }
    }
}

/// Writes the reply for an outcome, into the reserved bytes where it takes no memory but for a writer's room. Answers
/// whether the long writer has it.
///
/// # Errors
///
/// `Memory` only when out of memory; there is none for an outcome that always fits.
#[tactic(auto, using(crate::proofs::Fits::not_always, crate::proofs::Fits::not_plain))]
fn write_outcome(
    alloc: Global,
    short: &mut Writer,
    long: &mut Writer,
    to: ReplyTo,
    outcome: &NameOutcome,
) -> Result<bool, Memory>
    requires version { IsWritable to }
    requires reserved { 1300 ≤ short.old.room }
    ensures ok { IfOk result (λ is_long. chosen is_long short.new long.new
        ≡ outcome_reply to outcome.now) }
    ensures err { OnErr result (AlwaysFits outcome.now → ⊥) }
    ensures reserved { 1300 ≤ short.new.room }
{
    if is_plain(outcome) {
        write_reply(alloc, short, to, outcome)?;
        Ok(false)
    } else {
        write_reply(alloc, long, to, outcome)?;
        Ok(true)
    }
}
