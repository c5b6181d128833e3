//! Calls of iterators (OMG's Trading Object Service, interfaces OfferIterator and OfferIdIterator).

ghost use Rattle.std.specs.Prelude.{◌≡◌, true, length, option_map, IfOk, OnOk, OnErr};
ghost use Rattle.td_cdr.specs.Writing.{Draft};
ghost use Rattle.td_iter.specs.Desks.{item_of};
ghost use Rattle.td_iter.specs.declared.limits.TheConstants.{REPLY_START};
ghost use Rattle.td_ops.specs.declared.call.IterCall.TheVariants as iter;
ghost use Rattle.td_ops.specs.Outcomes.{is_short};
ghost use Rattle.td_servant.specs.Answers.{IfLong, AnswersWith};
ghost use Rattle.td_servant.specs.Iterating.{IteratorComes, IteratorDone, AnswersIterator, PutsNext, gone, left_in};
ghost use Rattle.td_servant.specs.Iterating.{max_left_outcome};

use crate::answer::{Answer, ReplyBody, system};
use crate::entry::Entry;
use std::alloc::Global;
use td_cdr::{Memory, Text, Writer};
use td_iter::{Desk, Item};
use td_ops::{IterCall, Outcome, Reply, SystemKind};

/// What a call of the iterator of this number is answered with, that the desk keeps for the trader of this name. The
/// writer holds what stands before the body of a reply with a result; a batch is appended.
///
/// # Errors
///
/// `Memory` only when out of memory; the desk and what the writer holds are then as they were.
#[tactic(auto, using(crate::proofs::Nexts::iterator_content))]
pub fn answer_iterator(
    alloc: Global,
    desk: &mut Desk,
    name: &Text,
    number: u64,
    call: &IterCall,
    w: &mut Writer,
) -> Result<Answer, Memory>
    requires { length w.old.bytes ≡ REPLY_START }
    ensures ok { IfOk result (λ a. AnswersWith (λ o e.
        IteratorComes name.now number call.now desk.old w.old o e desk.new) a w.old w.new) }
    // What may still want memory can be taken back: the desk is as it was.
    ensures if_no_memory { IfOk result (λ a. IfLong a.body (desk.new ≡ desk.old)) }
    ensures err { OnErr result ((desk.new ≡ desk.old) × (w.new.bytes ≡ w.old.bytes)) }
    ensures order { w.new.order ≡ w.old.order }
{
    let body = tell_iterator(alloc, desk, name, number, call, w)?;
    Ok(Answer {
        body,
        entry: Entry::Plain,
    })
}

#[tactic(auto, using(crate::proofs::Backing::short_back))]
fn tell_iterator(
    alloc: Global,
    desk: &mut Desk,
    name: &Text,
    number: u64,
    call: &IterCall,
    w: &mut Writer,
) -> Result<ReplyBody, Memory>
    requires { length w.old.bytes ≡ REPLY_START }
    ensures ok { IfOk result
        (λ b. AnswersIterator name.now number call.now desk.old w.old b w.new desk.new) }
    ensures if_no_memory { IfOk result (λ b. IfLong b (desk.new ≡ desk.old)) }
    ensures err { OnErr result ((desk.new ≡ desk.old) × (w.new.bytes ≡ w.old.bytes)) }
    ensures order { w.new.order ≡ w.old.order }
{
    match call {
        IterCall::MaxLeft => Ok(ReplyBody::Outcome(max_left(desk, name, number))),
        IterCall::NextN { n } => next_n(alloc, desk, name, number, *n, w),
        IterCall::Destroy => Ok(ReplyBody::Outcome(destroy(desk, name, number))),
    }
}

/// What stands for the answer of an iterator that isn't there.
fn gone() -> Outcome
    ensures { result ≡ gone }
{
    system(SystemKind::ObjectNotExist, 0)
}

/// How many items are left.
fn max_left(desk: &mut Desk, name: &Text, number: u64) -> Outcome
    ensures content { result
        ≡ max_left_outcome (option_map left_in (item_of name.now number desk.old)) }
    ensures same { desk.new ≡ desk.old }
{
    match left_of(desk, name, number) {
        Some(left) => Outcome::Done(Reply::Number(left)),
        None => gone(),
    }
}

/// How many items the iterator of this trader and number has left, where the desk keeps it.
#[tactic(auto, using(crate::proofs::Keeping::item_kept))]
fn left_of(desk: &mut Desk, name: &Text, number: u64) -> Option<u32>
    ensures left { result ≡ option_map left_in (item_of name.now number desk.old) }
    ensures same { desk.new ≡ desk.old }
{
    match desk.get_mut(name, number) {
        Some(item) => Some(left_in(item)),
        None => None,
    }
}

fn left_in(item: &Item) -> u32
    ensures { result ≡ left_in item.now }
{
    match item {
        Item::Offers(left) => left.max_left(),
        Item::Ids(left) => left.max_left(),
    }
}

/// Gives the next batch for n items. Once it is written nothing fails any more.
#[tactic(auto, using(crate::proofs::Keeping::item_kept))]
fn next_n(
    alloc: Global,
    desk: &mut Desk,
    name: &Text,
    number: u64,
    n: u32,
    w: &mut Writer,
) -> Result<ReplyBody, Memory>
    requires { length w.old.bytes ≡ REPLY_START }
    ensures ok { IfOk result
        (λ b. AnswersIterator name.now number (iter.NextN n) desk.old w.old b w.new desk.new) }
    ensures if_no_memory { IfOk result (λ b. IfLong b (desk.new ≡ desk.old)) }
    ensures err { OnErr result ((desk.new ≡ desk.old) × (w.new.bytes ≡ w.old.bytes)) }
    ensures order { w.new.order ≡ w.old.order }
{
    match desk.get_mut(name, number) {
        Some(left) => put_next(alloc, left, n, w),
        None => Ok(ReplyBody::Outcome(gone())),
    }
}

/// Appends the next batch for n of what is left.
#[tactic(auto, using(crate::proofs::Nexts::next_of_offers, crate::proofs::Nexts::next_of_ids))]
fn put_next(alloc: Global, left: &mut Item, n: u32, w: &mut Writer) -> Result<ReplyBody, Memory>
    requires { length w.old.bytes ≡ REPLY_START }
    ensures written { IfOk result (λ b. b ≡ ReplyBody.Written) }
    ensures puts { OnOk result (PutsNext n left.old w.old w.new left.new) }
    ensures err { OnErr result ((left.new ≡ left.old) × (w.new.bytes ≡ w.old.bytes)) }
    ensures order { w.new.order ≡ w.old.order }
{
    match left {
        Item::Offers(offers) => {
            let _more = offers.next_n(alloc, n, w)?;
            Ok(ReplyBody::Written)
        }
        Item::Ids(ids) => {
            let _more = ids.next_n(alloc, n, w)?;
            Ok(ReplyBody::Written)
        }
    }
}

/// Takes an iterator away.
fn destroy(desk: &mut Desk, name: &Text, number: u64) -> Outcome
    ensures removed { (w : Draft)
        → IteratorDone name.now number (item_of name.now number desk.old)
        iter.Destroy desk.old w result desk.new }
    ensures short { is_short result ≡ true }
{
    match left_of(desk, name, number) {
        Some(_) => {
            let _found = desk.remove(name, number);
            Outcome::Done(Reply::Nothing)
        }
        None => gone(),
    }
}
