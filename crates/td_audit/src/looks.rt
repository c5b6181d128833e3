//! Looks of a log.

ghost use Rattle.std.specs.Prelude.{◌≡◌, IfOk};
ghost use Rattle.td_audit.specs.Answers.{LooksAt};
ghost use Rattle.td_audit.specs.Replies.{IsFoundReply};
ghost use Rattle.td_audit.specs.Verdicts.{Compares};
ghost use Rattle.td_servant.specs.Looking.{ids_in};

use crate::answers::differ_unless;
use crate::replies::{compare, has_ids};
use crate::verdict::{AuditStop, Cause};
use std::alloc::Global;
use td_cdr::Memory;
use td_log::{Recorded, ReplyForm};
use td_net::{Net, NetFault};
use td_ops::{Look, Outcome, Reply};
use td_servant::how_many;

/// Compares the recorded reply of a look with what the network's trader answers.
pub(crate) fn look(
    alloc: Global,
    net: &Net,
    trader: usize,
    form: ReplyForm,
    look: &Look,
    reply: &Recorded,
) -> Result<(), AuditStop>
    ensures { LooksAt net.now trader form look.now reply.now result }
{
    let Some(trader) = net.trader(trader) else {
        return Err(AuditStop::At(Cause::Net(NetFault::NoTrader)));
    };
    match trader.look(look) {
        Ok((found, max_list)) => {
            let n = how_many(look).min(max_list);
            let compared = compare_found(alloc, form, n, &found, reply);
            drop(found);
            compared
        }
        Err(Memory) => Err(AuditStop::Memory),
    }
}

/// Compares a recorded reply with what was found: ids in a batch for n of them, and anything else as it is.
#[tactic(auto, using(crate::proofs::Differing::compares))]
fn compare_found(
    alloc: Global,
    form: ReplyForm,
    n: u32,
    found: &Outcome,
    reply: &Recorded,
) -> Result<(), AuditStop>
    ensures { Compares (IsFoundReply form n (ids_in found.now) found.now reply.now) result }
{
    match found {
        Outcome::Done(Reply::Ids { ids, .. }) => differ_unless(has_ids(
            alloc,
            form,
            n,
            ids.as_slice(),
            reply,
        )),
        _ => compare(alloc, form, found, reply),
    }
}
