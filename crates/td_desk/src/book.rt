//! The book: what stands on the desk, and how many calls were done.

ghost use Rattle.std.specs.Prelude.{◌≡◌, ◌<◌, ◌≤◌, ◌+◌, [], length, IfOk};
ghost use Rattle.td_desk.specs.Acting.{AddsIterator, Counts, DestroysIterator, DrawsNumber, GivesBatch};
ghost use Rattle.td_iter.specs.declared.desk.DeskEntry.{DeskEntry as TheEntry};
ghost use Rattle.td_iter.specs.declared.item.Item.{Item as AnItem};

use crate::act::Begun;
use crate::event::Event;
use crate::fault::DeskFault;
use crate::places::{MOST_ITEMS, give, make_room, or_absent, place_of, size_at, take_out};
use std::alloc::Global;
use std::collections::VecDeque;
use std::marker::Model;
use td_cdr::{Memory, Text, Writer};
use td_ghost_list::Past;
use td_iter::{DeskEntry, Item};

/// How many numbers are drawn at most, how many iterators are put on the desk, and how many calls of these are done.
const MOST: u64 = 1 << 40;

/// Iterators, oldest first: at most 4,096, whose places are taken at once. A new one drops the oldest. Contracts see
/// the history of the calls.
pub struct DeskBook {
    alloc: Global,
    entries: VecDeque<DeskEntry<Item>>,
    draws: u64,
    adds: u64,
    calls: u64,
    past: Past<Event>,
}

// By hand, since a derived drop is written out at each exit, and proved again in each crate above.
impl Drop for DeskBook {
    fn drop(self) {
        let DeskBook {
            alloc: _alloc,
            entries: _entries,
            draws: _draws,
            adds: _adds,
            calls: _calls,
            past: _past,
        } = self;
    }
}

impl Model for DeskBook {
    ghost use Rattle.std.specs.Prelude.{List, ◌≤◌};
    ghost use Rattle.std.specs.Coded.{codes};
    ghost use Rattle.std.specs.VecDeque.{deque_capacity};
    ghost use Rattle.td_typecode.specs.contracts.code.TypeCode as code;
    ghost use Rattle.td_typecode.specs.contracts.code.Value as value;
    ghost use Rattle.td_desk.specs.declared.event.Event.{Event as an_event};
    ghost use Rattle.td_ghost_list.specs.Entries.{entries_of};

    ghost Value = { List an_event };

    ghost coded = { Prim.hlevel (codes, code.the_row.coded, value.the_row.coded) };

    ghost use Rattle.td_desk.specs.Standings.{IsReplayed};

    ghost view = { λ d. entries_of d.past };

    ghost invariant = { λ d.
        IsReplayed (entries_of d.past) d.entries.items d.draws d.adds d.calls
        × (4096 ≤ deque_capacity d.entries) };
}

impl DeskBook {
    /// A desk without iterators, with places for 4,096, on which nothing was done.
    ///
    /// # Errors
    ///
    /// `Memory` only when out of memory.
    pub fn new(alloc: Global) -> Result<DeskBook, Memory>
        ensures { IfOk result (λ d. d ≡ []) }
    {
        Ok(DeskBook {
            alloc,
            entries: VecDeque::with_capacity(alloc, MOST_ITEMS)?,
            draws: 0,
            adds: 0,
            calls: 0,
            past: Past::new(),
        })
    }

    /// How many calls were done.
    pub fn done(&self) -> u64
        ensures { result ≡ length self.now }
    {
        self.draws + self.adds + self.calls
    }

    /// Draws the next number, from 1 on. Takes no memory.
    ///
    /// # Errors
    ///
    /// `Full` exactly where 2^40 were drawn; nothing has then changed.
    pub fn draw(&mut self) -> Result<u64, DeskFault>
        ensures { DrawsNumber self.old result self.new }
    {
        if self.draws >= MOST {
            return Err(DeskFault::Full);
        }
        self.past.note(&Event::Draw);
        self.draws += 1;
        Ok(self.draws)
    }

    /// Puts an iterator on the desk. Of 4,096 the oldest is dropped, and comes back. After 2^40 of them it comes back
    /// itself, and nothing has changed. Takes no memory.
    pub fn add(&mut self, entry: DeskEntry<Item>) -> Option<DeskEntry<Item>>
        ensures { AddsIterator self.old entry result self.new }
    {
        if self.adds >= MOST {
            return Some(entry);
        }
        let event = Event::Add(entry);
        self.past.note(&event);
        let dropped = make_room(&mut self.entries);
        self.entries.push_back_reserved(entry_of(event));
        self.adds += 1;
        dropped
    }

    /// How many are left of the iterator of this trader and number, and whether they are offers. Takes no memory.
    ///
    /// # Errors
    ///
    /// `Full` exactly where 2^40 calls of iterators were done; else `Absent` exactly where none is called so.
    pub fn max_left(&mut self, trader: Text, number: u64) -> Result<(u32, bool), DeskFault>
        ensures { Counts self.old trader number result self.new }
    {
        if self.calls >= MOST {
            drop(trader);
            return Err(DeskFault::Full);
        }
        let place = place_of(&self.entries, &trader, number);
        let left = size_at(&self.entries, place);
        self.past.note(&Event::Left { trader, number });
        self.calls += 1;
        left
    }

    /// Appends the result of `next_n` to what the writer holds, which is handed back: whether something is left behind
    /// the batch for n items, and the batch. Answers whether something is left.
    ///
    /// # Errors
    ///
    /// `Full` exactly where 2^40 calls of iterators were done; else `Absent` exactly where none is called so. `Memory`
    /// only when out of memory. What the writer holds is then as it was, and so is the iterator; where it was `Full`
    /// or `Memory`, so is the history.
    pub fn next_n(
        &mut self,
        trader: Text,
        number: u64,
        n: u32,
        begun: Begun,
    ) -> (Writer, Result<bool, DeskFault>)
        ensures { GivesBatch self.old trader number n begun.writer result.0 self.new result.1 }
    {
        let Begun { mut writer } = begun;
        if self.calls >= MOST {
            drop(trader);
            return (writer, Err(DeskFault::Full));
        }
        let order = writer.order();
        let place = place_of(&self.entries, &trader, number);
        match give(self.alloc, &mut self.entries, place, n, &mut writer) {
            Err(Memory) => {
                drop(trader);
                (writer, Err(DeskFault::Memory))
            }
            Ok(given) => {
                self.past.note(&Event::Next {
                    trader,
                    number,
                    n,
                    order,
                });
                self.calls += 1;
                (writer, or_absent(given))
            }
        }
    }

    /// Takes the iterator of this trader and number off the desk. Takes no memory.
    ///
    /// # Errors
    ///
    /// `Full` exactly where 2^40 calls of iterators were done; else `Absent` exactly where none is called so.
    pub fn destroy(&mut self, trader: Text, number: u64) -> Result<DeskEntry<Item>, DeskFault>
        ensures { DestroysIterator self.old trader number result self.new }
    {
        if self.calls >= MOST {
            drop(trader);
            return Err(DeskFault::Full);
        }
        let place = place_of(&self.entries, &trader, number);
        let taken = take_out(&mut self.entries, place);
        self.past.note(&Event::Destroy { trader, number });
        self.calls += 1;
        taken
    }
}

/// The iterator that was put on the desk.
fn entry_of(event: Event) -> DeskEntry<Item>
    requires { (e : TheEntry AnItem) × (event ≡ Event.Add e) }
    ensures { event ≡ Event.Add result }
{
    match event {
        Event::Draw => unreachable!(),
        Event::Add(entry) => entry,
        Event::Left {
            trader: _trader,
            number: _number,
        } => unreachable!(),
        Event::Next {
            trader: _trader,
            number: _number,
            n: _n,
            order: _order,
        } => unreachable!(),
        Event::Destroy {
            trader: _trader,
            number: _number,
        } => unreachable!(),
    }
}
