//! Iterators over items of any kind.

ghost use Rattle.std.specs.Prelude.{◌≡◌, ◌<◌, ◌≤◌, ◌^◌, length, drop, IfOk, OnOk, OnErr};
ghost use Rattle.td_typecode.specs.Formats.{is_nonempty};
ghost use Rattle.td_iter.specs.Batches.{GivesBatch};
ghost use Rattle.td_iter.specs.Filling.{next_piece};
ghost use Rattle.td_iter.specs.Heads.{items_found, AreShort, IsSmallReference};
ghost use Rattle.td_iter.specs.declared.limits.TheConstants.{REPLY_START};

use crate::first::put_first;
use crate::next::put_next;
use crate::truth::Truth;
use std::alloc::Global;
use std::marker::Model;
use td_cdr::{List, Memory, Spelled, Writer};
use td_value::Ior;

/// The items that are left of an answer, which contracts see as their list.
pub struct Iter<T> {
    items: List<T>,
    /// How many of them were given.
    given: usize,
}

// By hand, since a derived drop is written out at each exit, and proved again in each crate above.
impl<T: Drop> Drop for Iter<T> {
    fn drop(self) {
        let Iter {
            items: _items,
            given: _given,
        } = self;
    }
}

impl<T> Model for Iter<T> {
    ghost use Rattle.std.specs.Prelude.{List as Row, drop, length, ◌≤◌, ◌<◌, ◌^◌};
    ghost use Rattle.std.specs.Coded.{coded_list};

    ghost Value = { Row T };

    ghost coded = { coded_list T.code };

    ghost view = { λ it. drop it.given it.items };

    ghost invariant = { λ it. (it.given ≤ length it.items) × (length it.items < 2 ^ 32) };
}

impl<T> Iter<T> {
    /// An iterator over these items.
    pub fn new(left: List<T>) -> Iter<T>
        requires { length left < 2 ^ 32 }
        ensures { result ≡ left }
    {
        Iter {
            items: left,
            given: 0,
        }
    }

    /// How many are left.
    pub fn max_left(&self) -> u32
        ensures { result ≡ length self.now }
    {
        (self.items.len() - self.given) as u32
    }

    /// Those that are left.
    pub fn left(&self) -> &[T]
        ensures { result.now ≡ self.now }
    {
        let (_given, left) = self.items.as_slice().split_at(self.given);
        left
    }

    /// Gives the first so many. Answers whether something is left.
    pub fn give(&mut self, count: usize) -> bool
        requires { count ≤ length self.old }
        ensures left { self.new ≡ drop count self.old }
        ensures more { result ≡ is_nonempty self.new }
    {
        self.given += count;
        self.given < self.items.len()
    }
}

impl<T: Spelled> Iter<T> {
    /// Appends the batch for n items, and the iterator's reference where something is left behind it and
    /// nil where nothing is. Answers whether something is left. The writer holds what stands before the
    /// body of a reply. Where each item has at most 12 MiB, n is at least 1 and something is left, the
    /// batch isn't empty.
    ///
    /// # Errors
    ///
    /// `Memory` only when out of memory; the iterator and what the writer holds are then unchanged.
    pub fn first_batch(
        &mut self,
        alloc: Global,
        n: u32,
        w: &mut Writer,
        iterator: &Ior,
    ) -> Result<bool, Memory>
        requires start { length w.old.bytes ≡ REPLY_START }
        requires reference { IsSmallReference iterator.now }
        ensures batch { IfOk result (λ more.
            GivesBatch (items_found T.format.writes iterator.now)
            self.old n self.new w.old w.new more) }
        ensures some { OnOk result
            (AreShort T.format.writes self.old → 0 < n → 0 < length self.old → length self.new
            < length self.old) }
        ensures err { OnErr result ((self.new ≡ self.old) × (w.new.bytes ≡ w.old.bytes)) }
        ensures order { w.new.order ≡ w.old.order }
    {
        let count = put_first(alloc, w, self.left(), n, iterator)?;
        Ok(self.give(count))
    }

    /// Appends the result of `next_n`: a truth value, which says what is asked for, and the batch for n
    /// items. Answers whether something is left. The writer holds what stands before the body of a
    /// reply. Where each item has at most 12 MiB, n is at least 1 and something is left, the batch isn't
    /// empty.
    ///
    /// # Errors
    ///
    /// `Memory` only when out of memory; the iterator and what the writer holds are then unchanged.
    pub fn next_n(
        &mut self,
        alloc: Global,
        n: u32,
        w: &mut Writer,
        truth: Truth,
    ) -> Result<bool, Memory>
        requires { length w.old.bytes ≡ REPLY_START }
        ensures batch { IfOk result (λ more.
            GivesBatch (next_piece truth T.format.writes) self.old n self.new w.old w.new more) }
        ensures some { OnOk result
            (AreShort T.format.writes self.old → 0 < n → 0 < length self.old → length self.new
            < length self.old) }
        ensures err { OnErr result ((self.new ≡ self.old) × (w.new.bytes ≡ w.old.bytes)) }
        ensures order { w.new.order ≡ w.old.order }
    {
        let count = put_next(alloc, w, self.left(), n, truth)?;
        Ok(self.give(count))
    }
}
