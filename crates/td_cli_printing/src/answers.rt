//! The lines of an answer.

ghost use Rattle.std.specs.Prelude.{◌≡◌, ◌++◌, OnOk, IfOk};
ghost use Rattle.td_cli_printing.specs.Answers.{PutsLines, answer_lines, found_lines, reply_lines};

use crate::names::{put_exception, put_id, put_limits, put_names, put_total};
use crate::offers::{put_described, put_offers};
use std::alloc::Global;
use td_cdr::{Memory, Text};
use td_forms::put;
use td_ops::{Answered, Reply};
use td_value::Offer;

/// Puts the lines of the offers that a query found behind these bytes, then the line of its limits and that of the
/// count.
///
/// # Errors
///
/// `Memory` only when out of memory.
pub fn put_found(
    alloc: Global,
    out: &mut Vec<u8>,
    offers: &[Offer],
    limits: &[Text],
) -> Result<(), Memory>
    ensures { OnOk result (out.new.items ≡ out.old.items ++ found_lines offers.now limits.now) }
{
    put_offers(alloc, out, offers)?;
    put_limits(out, limits)?;
    put_total(out, offers.len())
}

/// Puts the lines of a result behind these bytes, where it is one that has lines.
fn put_reply(alloc: Global, out: &mut Vec<u8>, reply: &Reply) -> Result<bool, Memory>
    ensures { IfOk result (λ put. PutsLines (reply_lines reply.now) put out.old.items
        out.new.items) }
{
    match reply {
        Reply::Nothing => {
            put(out, b"ok\n")?;
            Ok(true)
        }
        Reply::Incarnation(_) => {
            put(out, b"ok\n")?;
            Ok(true)
        }
        Reply::Id(id) => {
            put_id(out, id.as_slice())?;
            Ok(true)
        }
        Reply::Names(names) => {
            put_names(out, names.as_slice())?;
            Ok(true)
        }
        Reply::Offer(info) => {
            put_described(alloc, out, &info.reference, info.properties.as_slice())?;
            Ok(true)
        }
        _ => Ok(false),
    }
}

/// Puts the lines of an answer behind these bytes, where there are any: those of a result, or the line of an
/// exception.
///
/// # Errors
///
/// `Memory` only when out of memory.
pub fn put_answer(alloc: Global, out: &mut Vec<u8>, answer: &Answered) -> Result<bool, Memory>
    ensures { IfOk result (λ put. PutsLines (answer_lines answer.now) put out.old.items
        out.new.items) }
{
    match answer {
        Answered::Done(reply) => put_reply(alloc, out, reply),
        Answered::User(id) => {
            put_exception(out, id.as_slice())?;
            Ok(true)
        }
        Answered::System { id, .. } => {
            put_exception(out, id.as_slice())?;
            Ok(true)
        }
    }
}
