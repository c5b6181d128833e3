//! Looks (OMG's Trading Object Service, interfaces Register, Link, Proxy, Admin and
//! CosTradingRepos::ServiceTypeRepository).

ghost use Rattle.std.specs.Prelude.{◌≡◌, ◌<◌, ◌^◌, length, IfOk, OnErr};
ghost use Rattle.td_iter.specs.declared.limits.TheConstants.{REPLY_START};
ghost use Rattle.td_objects.specs.References.{IsAddress};
ghost use Rattle.td_servant.specs.Answers.{IfLong, AnswersWith};
ghost use Rattle.td_servant.specs.Looking.{LookComes, how_many};
ghost use Rattle.td_servant.specs.Objects.{IsNamed};
ghost use Rattle.td_trader.specs.Worlds.{Watches};

use crate::answer::Answer;
use crate::entry::Entry;
use crate::listing::tell_found;
use std::alloc::Global;
use td_cdr::{Memory, Writer};
use td_iter::Desk;
use td_ops::Look;
use td_trader::Traders;
use td_walk::Address;

/// What a look is answered with. The writer holds what stands before the body of a reply with a result. Of a list of
/// ids the first batch is appended, and the desk keeps the others.
///
/// # Errors
///
/// `Memory` when out of memory, or for a list that no iterator can hold; the desk and what the writer holds are then as
/// they were.
#[tactic(auto, using(crate::proofs::Seen::look_in, crate::proofs::Seen::look_named, crate::proofs::Seen::look_watches))]
pub fn answer_look<T: Traders>(
    alloc: Global,
    traders: &mut T,
    home: &Address,
    trader: usize,
    l: &Look,
    desk: &mut Desk,
    w: &mut Writer,
) -> Result<Answer, Memory>
    requires named { IsNamed (T.world traders.old) trader }
    requires home { IsAddress home.now }
    requires start { length w.old.bytes ≡ REPLY_START }
    requires numbers { desk.old.1 < 2 ^ 63 }
    ensures same { T.same traders.old traders.new }
    ensures watches { Watches T.others T.later (T.world traders.old) trader (T.world traders.new) }
    ensures ok { IfOk result
        (λ a. AnswersWith (λ o e. LookComes T.others T.later home.now (T.world traders.old)
        desk.old trader l.now w.old o e (T.world traders.new) desk.new) a w.old w.new) }
    // What may still want memory can be taken back: the desk is as it was.
    ensures if_no_memory { IfOk result (λ a. IfLong a.body (desk.new ≡ desk.old)) }
    ensures err { OnErr result ((desk.new ≡ desk.old) × (w.new.bytes ≡ w.old.bytes)) }
    ensures order { w.new.order ≡ w.old.order }
{
    let (found, max_list) = traders.look(trader, l)?;
    let point = traders.point(trader);
    let n = how_many(l).min(max_list);
    let body = tell_found(alloc, home, traders.name(trader), n, found, desk, w)?;
    Ok(Answer {
        body,
        entry: Entry::Point { trader, point },
    })
}

/// How many ids a list is asked for; 0 of any other look.
pub fn how_many(l: &Look) -> u32
    ensures { result ≡ how_many l.now }
{
    match l {
        Look::ListOffers { how_many } => *how_many,
        Look::ListProxies { how_many } => *how_many,
        Look::Describe { .. } => 0,
        Look::DescribeLink { .. } => 0,
        Look::ListLinks => 0,
        Look::DescribeProxy { .. } => 0,
        Look::ListTypes { .. } => 0,
        Look::DescribeType { .. } => 0,
        Look::FullyDescribeType { .. } => 0,
        Look::Get(_) => 0,
    }
}
