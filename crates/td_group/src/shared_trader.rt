//! A trader as the book of a cell.

ghost use Rattle.std.specs.Prelude.{◌≡◌};
ghost use Rattle.td_group.specs.Acting.{ChangesWritably, StartsQuery};
ghost use Rattle.td_trader.specs.Admitted.{AdmitsChange};
ghost use Rattle.td_trader.specs.Following.{ActsLook};

use std::marker::Model;
use td_cdr::{Memory, Shared};
use td_cell::Book;
use td_ops::{Change, Look, Outcome, Query};
use td_trader::{Begin, Trader};

/// A change whose values can be written. Contracts see the change.
#[derive(Drop)]
pub struct AdmittedChange {
    change: Change,
}

impl Model for AdmittedChange {
    ghost use Rattle.td_ops.specs.contracts.call.Change as change_row;
    ghost use Rattle.td_ops.specs.declared.call.Change.{Change};
    ghost use Rattle.td_trader.specs.Admitted.{AdmitsChange};

    ghost Value = { Change };

    ghost coded = { change_row.the_row.coded };

    ghost view = { λ c. c.change };

    ghost invariant = { λ c. AdmitsChange c.change };
}

impl AdmittedChange {
    /// The change, whose values can be written.
    pub fn of(change: Change) -> AdmittedChange
        requires { AdmitsChange change }
        ensures { result ≡ change }
    {
        AdmittedChange { change }
    }

    /// The change.
    fn into_change(self) -> Change
        ensures same { result ≡ self }
        ensures admitted { AdmitsChange result }
    {
        self.change
    }
}

/// A call of a trader, with its arguments. Only a change whose values can be written is an act.
#[derive(Drop)]
pub enum Act {
    Change(AdmittedChange),
    Look(Look),
    Query(Shared<Query>),
}

/// What it is answered with.
#[derive(Drop)]
pub enum Reply {
    Changed(Result<Outcome, Memory>),
    Looked(Result<(Outcome, u32), Memory>),
    Begun(Result<Begin, Memory>),
}

/// A trader that stands in a cell. Contracts see the trader's own record.
#[derive(Drop)]
pub struct SharedTrader {
    pub trader: Trader,
}

impl Model for SharedTrader {
    ghost use Rattle.td_trader.specs.PlainTraders.{PlainTrader};
    ghost use Rattle.td_trader.specs.contracts.trader.Trader as trader_row;

    ghost Value = { PlainTrader };

    ghost coded = { trader_row.the_row.coded };

    ghost view = { λ s. s.trader };
}

impl Book for SharedTrader {
    type Act = Act;

    type Reply = Reply;

    ghost use Rattle.std.specs.Prelude.{length};
    ghost use Rattle.td_group.specs.Acting.{TraderActs};
    ghost use Rattle.td_trader.specs.Following.{FollowsWritably};

    ghost size = { λ t. length t.history };

    ghost remembers = { λ t. t.marks };

    ghost later = { FollowsWritably };

    ghost acts = { TraderActs };

    /// Does what the trader's own method does.
    fn act(&mut self, a: Act) -> Reply {
        match a {
            Act::Change(c) => Reply::Changed(make(&mut self.trader, c)),
            Act::Look(l) => Reply::Looked(tell(&self.trader, l)),
            Act::Query(q) => Reply::Begun(start(&mut self.trader, q)),
        }
    }

    fn changes(&self) -> u64 {
        self.trader.point()
    }

    fn marks(&self) -> u64 {
        self.trader.marks()
    }

    ghost use Rattle.td_group.specs.BookLaws.{acts_follow, acts_within, makes_one_mark};
    ghost use Rattle.td_group.specs.BookLaws.{follows_itself, follows_on, grows, marks_later};

    ghost later_itself = { follows_itself };

    ghost later_on = { follows_on };

    ghost later_size = { grows };

    ghost later_marks = { marks_later };

    ghost acts_later = { acts_follow };

    ghost acts_once = { acts_within };

    ghost acts_mark = { makes_one_mark };
}

/// What a change comes to.
fn make(trader: &mut Trader, c: AdmittedChange) -> Result<Outcome, Memory>
    ensures { ChangesWritably trader.old c result trader.new }
{
    trader.change(c.into_change())
}

/// What a look is answered with.
#[tactic(auto, using(crate::proofs::Acted::looks))]
fn tell(trader: &Trader, l: Look) -> Result<(Outcome, u32), Memory>
    ensures { ActsLook trader.now l result trader.now }
{
    let answer = trader.look(&l);
    drop(l);
    answer
}

/// How a query begins. That the trader is in order, which `marks` tells, makes it one mark at most.
#[tactic(auto, using(crate::proofs::Acted::starts))]
fn start(trader: &mut Trader, q: Shared<Query>) -> Result<Begin, Memory>
    ensures { StartsQuery trader.old q result trader.new }
{
    let _ = trader.marks();
    let begun = trader.begin(&q);
    drop(q);
    begun
}
