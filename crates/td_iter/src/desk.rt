//! The iterators that a connection keeps.

ghost use Rattle.std.specs.Prelude.{◌≡◌, ◌<◌, ◌≤◌, ◌^◌, ◌-◌, ◌+◌, ◌++◌, [], length, take, drop, nat_lt, Some, IfOk};
ghost use Rattle.std.specs.Prelude.{slice_get};
ghost use Rattle.std.specs.Vec.{vec_capacity};
ghost use Rattle.std.specs.Option.{option_copied_mut};
ghost use Rattle.std.specs.Borrow.{Lends, sem};
ghost use Rattle.td_iter.specs.Desks.{with_added, is_called, is_live, item_at, item_of, place_of, without_item};
ghost use Rattle.td_iter.specs.Desks.{without_oldest};

use crate::item::Item;
use std::alloc::Global;
use std::marker::Model;
use td_cdr::{Memory, Text};

/// How many iterators a connection keeps at most.
const MOST_ITEMS: usize = 256;

/// An iterator: the name of the trader that answered, its number, and what is left.
pub struct DeskEntry<I> {
    pub trader: Text,
    pub number: u64,
    pub item: I,
}

// By hand, since a derived drop is written out at each exit, and proved again in each crate above.
impl<I: Drop> Drop for DeskEntry<I> {
    fn drop(self) {
        let DeskEntry {
            trader: _trader,
            number: _number,
            item: _item,
        } = self;
    }
}

impl<I> DeskEntry<I> {
    ghost use Rattle.td_iter.specs.contracts.desk.DeskEntry.{the_row};

    /// What is left.
    fn item_mut(&mut self) -> &mut I
        ensures* writes_back { sem 𝓛 (Lends (the_row I.row) I.row self.entry result
            (λ item. record self.entry.now { item = item })) }
        ensures value { result.now ≡ self.old.item }
    {
        &mut self.item
    }
}

/// Iterators over what is left of answers, oldest first: at most 256, whose places are taken at once. A new one
/// drops the oldest. Contracts see the list of them, and the number that the next one gets.
pub struct Desk<I = Item> {
    entries: Vec<DeskEntry<I>>,
    next: u64,
}

// By hand, since a derived drop is written out at each exit, and proved again in each crate above.
impl<I: Drop> Drop for Desk<I> {
    fn drop(self) {
        let Desk {
            entries: _entries,
            next: _next,
        } = self;
    }
}

impl<I> Model for Desk<I> {
    ghost use Rattle.std.specs.Prelude.{List, ℕ, length, ◌≤◌, ◌^◌};
    ghost use Rattle.std.specs.Vec.{vec_capacity};
    ghost use Rattle.std.specs.Coded.{codes};
    ghost use Rattle.td_iter.specs.declared.desk.DeskEntry.{DeskEntry as an_entry};

    ghost Value = { List (an_entry I) × ℕ };

    ghost coded = { Prim.hlevel (codes, I.code) };

    ghost view = { λ d. (d.entries.items, d.next) };

    ghost invariant = { λ d. (length d.entries.items ≤ 256) × (256 ≤ vec_capacity d.entries)
        × (d.next ≤ 2 ^ 63) };
}

impl<I: Drop> Desk<I> {
    ghost use Rattle.td_iter.specs.Lends.{lends_at, lends_item};

    /// A desk without iterators, with places for 256. The first one gets this number.
    ///
    /// # Errors
    ///
    /// `Memory` only when out of memory.
    pub fn new(alloc: Global, first: u64) -> Result<Desk<I>, Memory>
        requires low { 1 ≤ first }
        requires high { first ≤ 2 ^ 62 }
        ensures { IfOk result (λ d. d ≡ ([], first)) }
    {
        Ok(Desk {
            entries: Vec::with_capacity(alloc, MOST_ITEMS)?,
            next: first,
        })
    }

    /// The number that the next one gets.
    pub fn next_number(&self) -> u64
        ensures { result ≡ self.now.1 }
    {
        self.next
    }

    /// Adds an iterator, and answers its number. Of 256 the oldest is dropped. Takes no memory.
    pub fn add(&mut self, trader: Text, item: I) -> u64
        requires { self.old.1 < 2 ^ 63 }
        ensures number { result ≡ self.old.1 }
        ensures added { self.new ≡ with_added trader item self.old }
    {
        let number = self.next;
        make_room(&mut self.entries);
        self.entries.push_reserved(DeskEntry {
            trader,
            number,
            item,
        });
        self.next = number + 1;
        number
    }

    /// What is left of the iterator of this trader and number, for reading on. Takes no memory.
    pub fn get_mut(&mut self, trader: &Text, number: u64) -> Option<&mut I>
        ensures* writes_back { sem 𝓛 (lends_item I.row self.entry trader.now number result) }
        ensures value { option_copied_mut result ≡ item_of trader.now number self.old }
    {
        let place = place_of(self.entries.as_slice(), trader, number);
        if place < self.entries.len() {
            Some(self.item_mut(place))
        } else {
            None
        }
    }

    /// What is left of the iterator at a place.
    fn item_mut(&mut self, place: usize) -> &mut I
        requires { place < length self.old.0 }
        ensures* writes_back { sem 𝓛 (lends_at I.row self.entry place result) }
        ensures value { item_at self.old.0 place ≡ Some result.now }
    {
        self.entries[place].item_mut()
    }

    /// Takes the iterator of this trader and number away, and answers whether there was one. Takes no
    /// memory.
    pub fn remove(&mut self, trader: &Text, number: u64) -> bool
        ensures found { result ≡ is_live trader.now number self.old }
        ensures removed { self.new ≡ without_item trader.now number self.old }
    {
        let place = place_of(self.entries.as_slice(), trader, number);
        take_out(&mut self.entries, place)
    }

    /// Takes the oldest iterator away, and gives it. Takes no memory.
    pub fn pop_front(&mut self) -> Option<DeskEntry<I>>
        ensures oldest { result ≡ slice_get self.old.0 0 }
        ensures rest { self.new ≡ without_oldest self.old }
    {
        if self.entries.is_empty() {
            None
        } else {
            Some(self.entries.remove(0))
        }
    }

    /// Drops all iterators. The next one gets this number. Takes no memory.
    pub fn restart(&mut self, first: u64)
        requires low { 1 ≤ first }
        requires high { first ≤ 2 ^ 62 }
        ensures { self.new ≡ ([], first) }
    {
        self.entries.clear();
        self.next = first;
    }
}

/// Drops the oldest where there are as many as may be.
fn make_room<I: Drop>(entries: &mut Vec<DeskEntry<I>>)
    requires { length entries.old.items ≤ 256 }
    ensures items { entries.new.items ≡ drop (length entries.old.items - 255) entries.old.items }
    ensures capacity { vec_capacity entries.new ≡ vec_capacity entries.old }
{
    if entries.len() == MOST_ITEMS {
        let _oldest = entries.remove(0);
    }
}

/// Takes the entry at a place away, and answers whether there was one.
fn take_out<I: Drop>(entries: &mut Vec<DeskEntry<I>>, place: usize) -> bool
    requires { place ≤ length entries.old.items }
    ensures found { result ≡ nat_lt place (length entries.old.items) }
    ensures items { entries.new.items ≡ take place entries.old.items
        ++ drop (place + 1) entries.old.items }
    ensures capacity { vec_capacity entries.new ≡ vec_capacity entries.old }
{
    let found = place < entries.len();
    if found {
        let _removed = entries.remove(place);
    }
    found
}

/// Whether an entry has this number and is of this trader.
fn is_called<I>(entry: &DeskEntry<I>, trader: &Text, number: u64) -> bool
    ensures { result ≡ is_called trader.now number entry.now }
{
    entry.number == number && entry.trader.as_slice() == trader.as_slice()
}

/// The place of the first that is called so; how many there are, where none is.
fn place_of<I>(entries: &[DeskEntry<I>], trader: &Text, number: u64) -> usize
    ensures place { result ≡ place_of trader.now number entries.now }
    ensures within { result ≤ length entries.now }
{
    let mut place = 0;
    for entry in entries {
        if is_called(entry, trader, number) {
            return place;
        }
        place += 1;
    }
    place
}
