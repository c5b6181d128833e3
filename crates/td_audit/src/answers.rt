//! Replies to the queries of a log.

ghost use Rattle.std.specs.Prelude.{◌≡◌, IfOk, MatchBool, map, min};
ghost use Rattle.td_audit.specs.Answers.{RepliesTo};
ghost use Rattle.td_audit.specs.Events.{IsWithinLimits};
ghost use Rattle.td_audit.specs.Replies.{HasOffers, IsVisitReply};
ghost use Rattle.td_audit.specs.Verdicts.{Compares, IsVerdict};
ghost use Rattle.td_iter.specs.Heads.{AreLimits};
ghost use Rattle.td_lookup.specs.Choosing.{chosen};
ghost use Rattle.td_lookup.specs.Answering.{HasLimits};

use crate::asked::{AskedQuery, asked_of};
use crate::replies::{compare, has_offers};
use crate::verdict::{AuditStop, Cause};
use std::alloc::Global;
use td_cdr::{Memory, Twin};
use td_log::Recorded;
use td_lookup::choose_each;
use td_net::Net;
use td_walk::{SubAnswer, Visit};

/// A comparison that was made.
pub(crate) fn differ_unless(same: Result<bool, Memory>) -> Result<(), AuditStop>
    ensures { IsVerdict same result }
{
    match same {
        Ok(true) => Ok(()),
        Ok(false) => Err(AuditStop::At(Cause::Differs)),
        Err(Memory) => Err(AuditStop::Memory),
    }
}

/// Compares the recorded reply to the query of a call with what the call has ended with.
pub(crate) fn reply(
    alloc: Global,
    net: &Net,
    asked: &[AskedQuery],
    call: usize,
    reply: &Recorded,
) -> Result<(), AuditStop>
    requires { IsWithinLimits net.now }
    ensures { RepliesTo net.now asked.now call reply.now result }
{
    let Some(asked) = asked_of(asked, call) else {
        return Err(AuditStop::At(Cause::NotEnded));
    };
    match net.answer(call) {
        Some(visit) => compare_visit(alloc, asked, visit, reply),
        None => Err(AuditStop::At(Cause::NotEnded)),
    }
}

/// Compares a recorded reply with what a visit came to.
#[tactic(auto, using(crate::proofs::Differing::compares))]
fn compare_visit(
    alloc: Global,
    asked: &AskedQuery,
    visit: &Visit,
    reply: &Recorded,
) -> Result<(), AuditStop>
    requires { HasLimits visit.now }
    ensures { Compares (IsVisitReply asked.now visit.now reply.now) result }
{
    match visit {
        Visit::Answered { answer, max_list } => differ_unless(has_answer(
            alloc, asked, answer, *max_list, reply,
        )),
        Visit::Refused(outcome) => compare(alloc, asked.form, outcome.get(), reply),
    }
}

/// Whether a recorded reply has the first batch of an answer's offers.
fn has_answer(
    alloc: Global,
    asked: &AskedQuery,
    answer: &SubAnswer,
    max_list: u32,
    reply: &Recorded,
) -> Result<bool, Memory>
    requires { AreLimits answer.now.limits }
    ensures { IfOk result (λ b. MatchBool b
        (HasOffers asked.now.form (min asked.now.how_many max_list) answer.now.limits
        (map (chosen asked.now.desired) answer.now.offers) reply.now)
        (HasOffers asked.now.form (min asked.now.how_many max_list) answer.now.limits
        (map (chosen asked.now.desired) answer.now.offers) reply.now → ⊥)) }
{
    let offers = answer.offers.copy(alloc)?;
    let offers = choose_each(alloc, &asked.desired, offers)?;
    let n = asked.how_many.min(max_list);
    has_offers(
        alloc,
        asked.form,
        n,
        &answer.limits,
        offers.as_slice(),
        reply,
    )
}
