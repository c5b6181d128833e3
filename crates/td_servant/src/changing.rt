//! Changes (OMG's Trading Object Service, interfaces Register, Link, Proxy, Admin and
//! CosTradingRepos::ServiceTypeRepository).

ghost use Rattle.std.specs.Prelude.{◌≡◌, ◌<◌, length, IfOk, OnErr};
ghost use Rattle.td_servant.specs.Answers.{IfLong, AnswersPlainly};
ghost use Rattle.td_servant.specs.Changing.{ChangeComes, changes_before};
ghost use Rattle.td_trader.specs.Admitted.{AdmitsChange};
ghost use Rattle.td_trader.specs.Worlds.{AdmittedAt, Watches, history_at};

use crate::answer::{Answer, ReplyBody};
use crate::entry::Entry;
use td_cdr::Memory;
use td_ops::{Change, Outcome};
use td_trader::Traders;

/// What a change is answered with.
///
/// # Errors
///
/// `Memory` only when out of memory; the change isn't made then.
#[tactic(auto, using(crate::proofs::Seen::changed_within, crate::proofs::Backing::change_back))]
pub fn answer_change<T: Traders>(
    traders: &mut T,
    trader: usize,
    c: Change,
) -> Result<Answer, Memory>
    requires trader { trader < length (T.world traders.old) }
    requires admitted { AdmitsChange c }
    ensures same { T.same traders.old traders.new }
    ensures ok { IfOk result (λ a. AnswersPlainly (λ o e.
        ChangeComes T.others T.later (T.world traders.old) trader c o e (T.world traders.new)) a) }
    // What may still want memory can be taken back: it wasn't done.
    ensures if_no_memory { IfOk result (λ a. IfLong a.body
        (Watches T.others T.later (T.world traders.old) trader (T.world traders.new))) }
    ensures err { OnErr result
        (Watches T.others T.later (T.world traders.old) trader (T.world traders.new)) }
{
    let outcome = traders.change(trader, c)?;
    let point = point_of(traders, trader, &outcome);
    Ok(Answer {
        body: ReplyBody::Outcome(outcome),
        entry: Entry::Point { trader, point },
    })
}

/// How many changes had come before the last one, which has this outcome.
pub(crate) fn point_of<T: Traders>(traders: &T, trader: usize, outcome: &Outcome) -> u64
    requires { trader < length (T.world traders.now) }
    ensures point { result ≡ changes_before outcome.now
        (length (history_at (T.world traders.now) trader)) }
    ensures admitted { AdmittedAt (T.world traders.now) trader }
{
    changes_before(outcome, traders.point(trader))
}

fn changes_before(outcome: &Outcome, after: u64) -> u64
    ensures { result ≡ changes_before outcome.now after }
{
    match outcome {
        Outcome::Done(_) => after.saturating_sub(1),
        Outcome::User(_) => after,
        Outcome::System { .. } => after,
    }
}
