//! Iterators by their places.

ghost use Rattle.std.specs.Prelude.{◌≡◌, ◌-◌, ◌≤◌, length, drop, false, slice_get, IfOk, OnErr};
ghost use Rattle.std.specs.List.{remove};
ghost use Rattle.std.specs.VecDeque.{deque_capacity};
ghost use Rattle.td_desk.specs.Acting.{dropped_entry, found_by, result_of};
ghost use Rattle.td_desk.specs.Batching.{is_offers, size_of};
ghost use Rattle.td_desk.specs.Placing.{GivesAt, IsNext, cut_out, or_absent};
ghost use Rattle.td_iter.specs.Desks.{is_called, place_of};
ghost use Rattle.td_iter.specs.declared.limits.TheConstants.{REPLY_START};

use crate::fault::DeskFault;
use std::alloc::Global;
use std::collections::VecDeque;
use td_cdr::{Memory, Text, Writer};
use td_iter::{DeskEntry, Item};

/// How many iterators the desk keeps at most.
pub(crate) const MOST_ITEMS: usize = 4096;

/// Whether an iterator has this number and is of this trader.
fn is_called(entry: &DeskEntry<Item>, trader: &Text, number: u64) -> bool
    ensures { result ≡ is_called trader.now number entry.now }
{
    entry.number == number && entry.trader.as_slice() == trader.as_slice()
}

/// The place of the first that is called so; how many there are, where none is.
pub(crate) fn place_of(entries: &VecDeque<DeskEntry<Item>>, trader: &Text, number: u64) -> usize
    ensures place { result ≡ place_of trader.now number entries.now.items }
    ensures within { result ≤ length entries.now.items }
{
    let mut place = 0;
    while place < entries.len() {
        if is_called(&entries[place], trader, number) {
            return place;
        }
        place += 1;
    }
    place
}

/// Takes the oldest out where there are as many as may be.
pub(crate) fn make_room(entries: &mut VecDeque<DeskEntry<Item>>) -> Option<DeskEntry<Item>>
    requires { length entries.old.items ≤ 4096 }
    ensures dropped { result ≡ dropped_entry entries.old.items }
    ensures items { entries.new.items ≡ drop (length entries.old.items - 4095) entries.old.items }
    ensures capacity { deque_capacity entries.new ≡ deque_capacity entries.old }
{
    if entries.len() == MOST_ITEMS {
        entries.pop_front()
    } else {
        None
    }
}

/// How many are left at a place, and whether they are offers.
pub(crate) fn size_at(
    entries: &VecDeque<DeskEntry<Item>>,
    place: usize,
) -> Result<(u32, bool), DeskFault>
    ensures { result ≡ result_of (λ e. (size_of e.item, is_offers e.item))
        (found_by false (slice_get entries.now.items place)) }
{
    match entries.get(place) {
        Some(entry) => Ok(size_of(&entry.item)),
        None => Err(DeskFault::Absent),
    }
}

fn size_of(item: &Item) -> (u32, bool)
    ensures { result ≡ (size_of item.now, is_offers item.now) }
{
    match item {
        Item::Offers(left) => (left.max_left(), true),
        Item::Ids(left) => (left.max_left(), false),
    }
}

/// Takes the one at a place out.
pub(crate) fn take_out(
    entries: &mut VecDeque<DeskEntry<Item>>,
    place: usize,
) -> Result<DeskEntry<Item>, DeskFault>
    ensures taken { result ≡ found_by false (slice_get entries.old.items place) }
    ensures items { entries.new.items ≡ cut_out place entries.old.items }
    ensures capacity { deque_capacity entries.new ≡ deque_capacity entries.old }
{
    match entries.remove(place) {
        Some(entry) => Ok(entry),
        None => Err(DeskFault::Absent),
    }
}

/// Appends the batch of the one at a place to what the writer holds. Answers whether something is left behind it, and
/// nothing where none stands there.
///
/// # Errors
///
/// `Memory` only when out of memory; the iterator and what the writer holds are then unchanged.
pub(crate) fn give(
    alloc: Global,
    entries: &mut VecDeque<DeskEntry<Item>>,
    place: usize,
    n: u32,
    w: &mut Writer,
) -> Result<Option<bool>, Memory>
    requires { length w.old.bytes ≡ REPLY_START }
    ensures given { GivesAt n place entries.old.items entries.new.items w.old w.new result }
    ensures capacity { deque_capacity entries.new ≡ deque_capacity entries.old }
    ensures order { w.new.order ≡ w.old.order }
{
    if place >= entries.len() {
        return Ok(None);
    }
    match next_of(alloc, &mut entries[place], n, w) {
        Ok(more) => Ok(Some(more)),
        Err(memory) => Err(memory),
    }
}

/// Appends the batch of an iterator. Answers whether something is left behind it.
fn next_of(
    alloc: Global,
    entry: &mut DeskEntry<Item>,
    n: u32,
    w: &mut Writer,
) -> Result<bool, Memory>
    requires { length w.old.bytes ≡ REPLY_START }
    ensures next { IfOk result (λ more. IsNext n w.old w.new entry.old.item entry.new.item more) }
    ensures rest { entry.new ≡ record entry.old { item = entry.new.item } }
    ensures err { OnErr result ((entry.new.item ≡ entry.old.item) × (w.new.bytes ≡ w.old.bytes)) }
    ensures order { w.new.order ≡ w.old.order }
{
    next_n(alloc, &mut entry.item, n, w)
}

/// Appends the batch of what is left.
#[tactic(auto, using(crate::proofs::Counting::offers_next, crate::proofs::Counting::ids_next))]
fn next_n(alloc: Global, item: &mut Item, n: u32, w: &mut Writer) -> Result<bool, Memory>
    requires { length w.old.bytes ≡ REPLY_START }
    ensures next { IfOk result (λ more. IsNext n w.old w.new item.old item.new more) }
    ensures err { OnErr result ((item.new ≡ item.old) × (w.new.bytes ≡ w.old.bytes)) }
    ensures order { w.new.order ≡ w.old.order }
{
    match item {
        Item::Offers(offers) => {
            let more = offers.next_n(alloc, n, w)?;
            Ok(more)
        }
        Item::Ids(ids) => {
            let more = ids.next_n(alloc, n, w)?;
            Ok(more)
        }
    }
}

/// Whether something is left behind what was given, where an iterator was there.
pub(crate) fn or_absent(given: Option<bool>) -> Result<bool, DeskFault>
    ensures { result ≡ or_absent given }
{
    match given {
        Some(more) => Ok(more),
        None => Err(DeskFault::Absent),
    }
}
