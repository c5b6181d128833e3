//! Changes of a log.

ghost use Rattle.std.specs.Prelude.{◌≡◌, OnOk, IfOk};
ghost use Rattle.td_audit.specs.Changes.{ChangesTo, reply_at_place, point_at};
ghost use Rattle.td_audit.specs.Events.{IsWithinLimits};
ghost use Rattle.td_audit.specs.Replies.{spelled_reply};
ghost use Rattle.td_audit.specs.Verdicts.{Compares};
ghost use Rattle.td_ops.specs.declared.outcome.Outcome.TheVariants.{Done};

use crate::events::happen;
use crate::replies::compare;
use crate::verdict::{AuditStop, Cause};
use std::alloc::Global;
use td_cdr::{Boxed, Memory};
use td_log::{Recorded, ReplyForm};
use td_net::{Event, Net, NetFault};
use td_ops::{Change, Outcome, Reply};

/// How many changes a trader of the network has accepted.
fn point_at(net: &Net, trader: usize) -> Option<usize>
    ensures { result ≡ point_at net.now trader }
{
    match net.trader(trader) {
        Some(trader) => Some(trader.history().len()),
        None => None,
    }
}

/// What the change at this place of a trader's history was answered with.
fn reply_at_place(
    alloc: Global,
    net: &Net,
    trader: usize,
    place: usize,
) -> Result<Option<Reply>, Memory>
    ensures { IfOk result (λ r. r ≡ reply_at_place net.now trader place) }
{
    let Some(trader) = net.trader(trader) else {
        return Ok(None);
    };
    match trader.history().get(place) {
        Some(entry) => {
            let reply = entry.reply.reply(alloc)?;
            Ok(Some(reply))
        }
        None => Ok(None),
    }
}

/// Has a trader judge a change, and compares the recorded reply with what it was answered with.
pub(crate) fn change(
    alloc: Global,
    net: &mut Net,
    trader: usize,
    form: ReplyForm,
    change: Boxed<Change>,
    reply: &Recorded,
) -> Result<(), AuditStop>
    requires sound { IsWithinLimits net.old }
    ensures changes { ChangesTo net.old trader form change reply.now result net.new }
    ensures sound { OnOk result (IsWithinLimits net.new) }
{
    let Some(before) = point_at(net, trader) else {
        return Err(AuditStop::At(Cause::Net(NetFault::NoTrader)));
    };
    happen(net, Event::Change { trader, change })?;
    match reply_at_place(alloc, net, trader, before) {
        Ok(Some(content)) => compare_done(alloc, form, content, reply),
        Ok(None) => Err(AuditStop::At(Cause::Refused)),
        Err(Memory) => Err(AuditStop::Memory),
    }
}

/// Compares a recorded reply with the one for a result.
fn compare_done(
    alloc: Global,
    form: ReplyForm,
    content: Reply,
    reply: &Recorded,
) -> Result<(), AuditStop>
    ensures { Compares (reply.now.bytes ≡ spelled_reply form (Done content)) result }
{
    let outcome = Outcome::Done(content);
    let compared = compare(alloc, form, &outcome, reply);
    drop(outcome);
    compared
}
