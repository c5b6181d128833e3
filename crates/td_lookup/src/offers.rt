//! The offers that a query is answered with: their first batch (OMG's Trading Object Service, interface Lookup, query).

ghost use Rattle.std.specs.Prelude.{◌≡◌, ◌<◌, ◌^◌, length, if◌then◌else◌, IfOk, IfSome, OnOk, OnErr};
ghost use Rattle.td_cdr.specs.Names.{IsTraderName};
ghost use Rattle.td_iter.specs.Desks.{with_added};
ghost use Rattle.td_iter.specs.Heads.{AreLimits, AreSmallOffers, IsSmallReference};
ghost use Rattle.td_iter.specs.declared.item.Item.TheVariants.{Offers};
ghost use Rattle.td_iter.specs.declared.limits.TheConstants.{REPLY_START};
ghost use Rattle.td_lookup.specs.Answering.{PutsFirst};
ghost use Rattle.td_objects.specs.References.{IsAddress, offer_iterator};
ghost use Rattle.td_walk.specs.declared.trace.Address.{Address as TheAddress};

use std::alloc::Global;
use td_cdr::{List, Memory, Text, Writer};
use td_iter::{Desk, Item, OfferIter};
use td_objects::offer_iterator;
use td_servant::DeskLabel;
use td_value::Offer;
use td_walk::{Address, SubAnswer};

/// How many offers an iterator holds at most.
const MOST_OFFERS: usize = 4294967295;

/// Appends the first batch for n of the offers of an answer; the desk keeps the others for an iterator of the trader of
/// this name.
///
/// # Errors
///
/// `Memory` when out of memory, or for more offers than an iterator can hold; the desk and what the writer holds are
/// then as they were.
pub(crate) fn put_offers(
    alloc: Global,
    home: &Address,
    name: &Text,
    n: u32,
    answer: SubAnswer,
    desk: &mut Desk,
    w: &mut Writer,
) -> Result<(), Memory>
    requires home { IsAddress home.now }
    requires name { IsTraderName name.now }
    requires limits { AreLimits answer.limits }
    requires small { AreSmallOffers answer.offers }
    requires start { length w.old.bytes ≡ REPLY_START }
    requires numbers { desk.old.1 < 2 ^ 63 }
    ensures puts { OnOk result (PutsFirst home.now name.now n answer.limits answer.offers w.old
        w.new desk.old desk.new) }
    ensures err { OnErr result ((desk.new ≡ desk.old) × (w.new.bytes ≡ w.old.bytes)) }
    ensures order { w.new.order ≡ w.old.order }
{
    let SubAnswer { offers, limits } = answer;
    let Some(mut left) = over_offers(offers) else {
        drop(limits);
        return Err(Memory);
    };
    // A batch that has all offers needs no iterator.
    match left.whole_batch(alloc, n, w, &limits) {
        Ok(true) => {
            drop(left);
            drop(limits);
            Ok(())
        }
        Ok(false) => match label_for(alloc, home, name, desk.next_number()) {
            Ok(label) => put_first(alloc, n, label, left, limits, desk, w),
            Err(memory) => {
                drop(left);
                drop(limits);
                Err(memory)
            }
        },
        Err(memory) => {
            drop(left);
            drop(limits);
            Err(memory)
        }
    }
}

/// An iterator over these offers, where it can hold them.
fn over_offers(offers: List<Offer>) -> Option<OfferIter>
    requires { AreSmallOffers offers }
    ensures { IfSome result (λ left. left ≡ offers) }
{
    if offers.len() <= MOST_OFFERS {
        Some(OfferIter::new(offers))
    } else {
        None
    }
}

/// What the iterator of this number is put on the desk with.
fn label_for(alloc: Global, home: &Address, name: &Text, number: u64) -> Result<DeskLabel, Memory>
    requires home { IsAddress home.now }
    requires name { IsTraderName name.now }
    ensures trader { IfOk result (λ l. l.trader ≡ name.now) }
    ensures reference { IfOk result (λ l. l.reference ≡ offer_iterator home.now name.now number) }
    ensures small { IfOk result (λ l. IsSmallReference l.reference) }
{
    let reference = offer_iterator(alloc, home, name, number)?;
    DeskLabel::new(alloc, name, reference)
}

// A function of its own, since the batch is written last: what is owned here is dropped at two
// exits, and at each exit of a longer function it would be again.
/// Appends the first batch for n of what is left, and keeps the rest. Where the batch is written nothing fails any
/// more.
fn put_first(
    alloc: Global,
    n: u32,
    label: DeskLabel,
    left: OfferIter,
    limits: List<Text>,
    desk: &mut Desk,
    w: &mut Writer,
) -> Result<(), Memory>
    requires small { IsSmallReference label.reference }
    requires limits { AreLimits limits }
    requires start { length w.old.bytes ≡ REPLY_START }
    requires numbers { desk.old.1 < 2 ^ 63 }
    ensures puts { (home : TheAddress)
        → label.reference ≡ offer_iterator home label.trader desk.old.1 → OnOk result
        (PutsFirst home label.trader n limits left w.old w.new desk.old desk.new) }
    ensures err { OnErr result ((desk.new ≡ desk.old) × (w.new.bytes ≡ w.old.bytes)) }
    ensures order { w.new.order ≡ w.old.order }
{
    let mut left = left;
    let DeskLabel { trader, reference } = label;
    match left.first_batch(alloc, n, w, &reference, &limits) {
        Ok(more) => {
            drop(reference);
            drop(limits);
            keep(desk, trader, left, more);
            Ok(())
        }
        Err(memory) => {
            drop(reference);
            drop(limits);
            drop(trader);
            drop(left);
            Err(memory)
        }
    }
}

/// Keeps what is left, where there is any.
fn keep(desk: &mut Desk, trader: Text, left: OfferIter, more: bool)
    requires { desk.old.1 < 2 ^ 63 }
    ensures { desk.new ≡ (if more then with_added trader (Offers left) desk.old else desk.old) }
{
    if more {
        let _number = desk.add(trader, Item::Offers(left));
    } else {
        drop(trader);
        drop(left);
    }
}
