//! Lists of ids: their first batch (OMG's Trading Object Service, interface Admin, list_offers and list_proxies).

ghost use Rattle.std.specs.Prelude.{◌≡◌, ◌<◌, ◌^◌, length, if◌then◌else◌, IsTrue, IfOk, IfSome, OnOk, OnErr};
ghost use Rattle.std.specs.List.{list_all};
ghost use Rattle.td_cdr.specs.Names.{IsTraderName};
ghost use Rattle.td_iter.specs.Desks.{with_added};
ghost use Rattle.td_iter.specs.Heads.{AreSmallIds, IsSmallReference};
ghost use Rattle.td_iter.specs.declared.item.Item.TheVariants.{Ids};
ghost use Rattle.td_iter.specs.declared.limits.TheConstants.{REPLY_START};
ghost use Rattle.td_objects.specs.References.{IsAddress, iterator_reference};
ghost use Rattle.td_ops.specs.declared.outcome.Outcome.TheVariants.{Done};
ghost use Rattle.td_servant.specs.Answers.{IfLong};
ghost use Rattle.td_servant.specs.Listing.{IsListed, has_small_size};
ghost use Rattle.td_servant.specs.Looking.{Cuts, PutsFirst};
ghost use Rattle.td_walk.specs.declared.trace.Address.{Address as TheAddress};

use crate::answer::ReplyBody;
use crate::desk_label::DeskLabel;
use std::alloc::Global;
use td_cdr::{List, Memory, Text, Writer};
use td_iter::{Desk, IdIter, Item};
use td_objects::iterator_reference;
use td_ops::{Outcome, Reply};
use td_walk::Address;

/// How many bytes an id has at most that an iterator holds.
const LONGEST_ID: usize = 256;

/// How many ids an iterator holds at most.
const MOST_IDS: usize = 4294967295;

/// Tells what a look came to: of a list of ids the first batch for n is appended, and the desk keeps the others for an
/// iterator of the trader of this name.
///
/// # Errors
///
/// `Memory` when out of memory, or for a list that no iterator can hold; the desk and what the writer holds are then as
/// they were.
#[tactic(auto, using(crate::proofs::FirstBatch::cut_other, crate::proofs::Backing::written_back))]
pub(crate) fn tell_found(
    alloc: Global,
    home: &Address,
    name: &Text,
    n: u32,
    found: Outcome,
    desk: &mut Desk,
    w: &mut Writer,
) -> Result<ReplyBody, Memory>
    requires home { IsAddress home.now }
    requires name { IsTraderName name.now }
    requires start { length w.old.bytes ≡ REPLY_START }
    requires numbers { desk.old.1 < 2 ^ 63 }
    ensures cuts { IfOk result
        (λ b. Cuts home.now name.now n found w.old desk.old b w.new desk.new) }
    ensures if_no_memory { IfOk result (λ b. IfLong b (desk.new ≡ desk.old)) }
    ensures err { OnErr result ((desk.new ≡ desk.old) × (w.new.bytes ≡ w.old.bytes)) }
    ensures order { w.new.order ≡ w.old.order }
{
    match listed(found) {
        Ok(ids) => tell_ids(alloc, home, name, n, ids, desk, w),
        Err(outcome) => Ok(ReplyBody::Outcome(outcome)),
    }
}

/// The ids of a result that lists them, or the outcome as it is.
fn listed(found: Outcome) -> Result<List<Text>, Outcome>
    ensures { IsListed found result }
{
    match found {
        Outcome::Done(reply) => listed_in(reply),
        Outcome::User(exception) => Err(Outcome::User(exception)),
        Outcome::System {
            kind,
            minor,
            completion,
        } => Err(Outcome::System {
            kind,
            minor,
            completion,
        }),
    }
}

fn listed_in(reply: Reply) -> Result<List<Text>, Outcome>
    ensures { IsListed (Done reply) result }
{
    match reply {
        Reply::Ids { ids, iterator } => {
            drop(iterator);
            Ok(ids)
        }
        Reply::Nothing => Err(Outcome::Done(Reply::Nothing)),
        Reply::Id(id) => Err(Outcome::Done(Reply::Id(id))),
        Reply::Number(number) => Err(Outcome::Done(Reply::Number(number))),
        Reply::Truth(truth) => Err(Outcome::Done(Reply::Truth(truth))),
        Reply::Reference(reference) => Err(Outcome::Done(Reply::Reference(reference))),
        Reply::Follow(rule) => Err(Outcome::Done(Reply::Follow(rule))),
        Reply::Stem(stem) => Err(Outcome::Done(Reply::Stem(stem))),
        Reply::Incarnation(number) => Err(Outcome::Done(Reply::Incarnation(number))),
        Reply::Names(names) => Err(Outcome::Done(Reply::Names(names))),
        Reply::Offer(offer) => Err(Outcome::Done(Reply::Offer(offer))),
        Reply::Link(link) => Err(Outcome::Done(Reply::Link(link))),
        Reply::Proxy(proxy) => Err(Outcome::Done(Reply::Proxy(proxy))),
        Reply::Typed(described) => Err(Outcome::Done(Reply::Typed(described))),
        Reply::Found {
            offers,
            iterator,
            limits,
        } => Err(Outcome::Done(Reply::Found {
            offers,
            iterator,
            limits,
        })),
        Reply::Batch { more, offers } => Err(Outcome::Done(Reply::Batch { more, offers })),
        Reply::IdBatch { more, ids } => Err(Outcome::Done(Reply::IdBatch { more, ids })),
    }
}

/// Appends the first batch for n of these ids; the desk keeps the others.
#[tactic(auto, using(crate::proofs::FirstBatch::tell_first))]
fn tell_ids(
    alloc: Global,
    home: &Address,
    name: &Text,
    n: u32,
    ids: List<Text>,
    desk: &mut Desk,
    w: &mut Writer,
) -> Result<ReplyBody, Memory>
    requires home { IsAddress home.now }
    requires name { IsTraderName name.now }
    requires start { length w.old.bytes ≡ REPLY_START }
    requires numbers { desk.old.1 < 2 ^ 63 }
    ensures written { IfOk result (λ b. b ≡ ReplyBody.Written) }
    ensures puts { OnOk result (PutsFirst home.now name.now n ids w.old w.new desk.old desk.new) }
    ensures err { OnErr result ((desk.new ≡ desk.old) × (w.new.bytes ≡ w.old.bytes)) }
    ensures order { w.new.order ≡ w.old.order }
{
    let Some(left) = over_ids(ids) else {
        return Err(Memory);
    };
    match label_for(alloc, home, name, desk.next_number()) {
        Ok(label) => put_first(alloc, n, label, left, desk, w),
        Err(memory) => {
            drop(left);
            Err(memory)
        }
    }
}

/// An iterator over these ids, where it can hold them.
fn over_ids(ids: List<Text>) -> Option<IdIter>
    ensures { IfSome result (λ left. left ≡ ids) }
{
    if ids.len() <= MOST_IDS && have_small_sizes(ids.as_slice()) {
        Some(IdIter::new(ids))
    } else {
        None
    }
}

/// Whether each of these ids is so short that an iterator holds it.
#[tactic(auto, using(crate::proofs::FirstBatch::all_small))]
fn have_small_sizes(ids: &[Text]) -> bool
    ensures { IsTrue result → AreSmallIds ids.now }
{
    all_small(ids)
}

fn all_small(ids: &[Text]) -> bool
    ensures { result ≡ list_all has_small_size ids.now }
{
    ids.iter().all(|id| has_small_size(id))
}

fn has_small_size(id: &Text) -> bool
    ensures { result ≡ has_small_size id.now }
{
    id.len() <= LONGEST_ID
}

/// What the iterator of this number is put on the desk with.
fn label_for(alloc: Global, home: &Address, name: &Text, number: u64) -> Result<DeskLabel, Memory>
    requires home { IsAddress home.now }
    requires name { IsTraderName name.now }
    ensures trader { IfOk result (λ l. l.trader ≡ name.now) }
    ensures reference { IfOk result (λ l. l.reference
        ≡ iterator_reference home.now name.now number) }
    ensures small { IfOk result (λ l. IsSmallReference l.reference) }
{
    let reference = iterator_reference(alloc, home, name, number)?;
    DeskLabel::new(alloc, name, reference)
}

/// Appends the first batch for n of what is left, and keeps the rest. Where the batch is written nothing fails any
/// more.
fn put_first(
    alloc: Global,
    n: u32,
    label: DeskLabel,
    left: IdIter,
    desk: &mut Desk,
    w: &mut Writer,
) -> Result<ReplyBody, Memory>
    requires small { IsSmallReference label.reference }
    requires start { length w.old.bytes ≡ REPLY_START }
    requires numbers { desk.old.1 < 2 ^ 63 }
    ensures written { IfOk result (λ b. b ≡ ReplyBody.Written) }
    ensures puts { (home : TheAddress)
        → label.reference ≡ iterator_reference home label.trader desk.old.1 → OnOk result
        (PutsFirst home label.trader n left w.old w.new desk.old desk.new) }
    ensures err { OnErr result ((desk.new ≡ desk.old) × (w.new.bytes ≡ w.old.bytes)) }
    ensures order { w.new.order ≡ w.old.order }
{
    let mut left = left;
    let DeskLabel { trader, reference } = label;
    match left.first_batch(alloc, n, w, &reference) {
        Ok(more) => {
            drop(reference);
            keep(desk, trader, left, more);
            Ok(ReplyBody::Written)
        }
        Err(memory) => {
            drop(reference);
            drop(trader);
            drop(left);
            Err(memory)
        }
    }
}

/// Keeps what is left, where there is any.
fn keep(desk: &mut Desk, trader: Text, left: IdIter, more: bool)
    requires { desk.old.1 < 2 ^ 63 }
    ensures { desk.new ≡ (if more then with_added trader (Ids left) desk.old else desk.old) }
{
    if more {
        let _number = desk.add(trader, Item::Ids(left));
    } else {
        drop(trader);
        drop(left);
    }
}
