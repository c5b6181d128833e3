//! Iterators over the ids of offers.

ghost use Rattle.std.specs.Prelude.{◌≡◌, ◌<◌, ◌^◌, length, IfOk, OnOk, OnErr};
ghost use Rattle.td_iter.specs.Batches.{GivesBatch};
ghost use Rattle.td_iter.specs.Heads.{ids_found, next_ids, AreSmallIds, IsSmallReference};
ghost use Rattle.td_iter.specs.declared.limits.TheConstants.{REPLY_START};

use crate::iter::Iter;
use crate::truth::Truth;
use std::alloc::Global;
use std::marker::Model;
use td_cdr::{List, Memory, Text, Writer};
use td_value::Ior;

/// The ids that are left of an answer, which contracts see as their list (OMG's Trading Object
/// Service, interface OfferIdIterator).
pub struct IdIter {
    left: Iter<Text>,
}

// By hand, since a derived drop is written out at each exit, and proved again in each crate above.
impl Drop for IdIter {
    fn drop(self) {
        let IdIter { left: _left } = self;
    }
}

impl Model for IdIter {
    ghost use Rattle.std.specs.Prelude.{List as Row, ℕ};
    ghost use Rattle.td_iter.specs.Heads.{AreSmallIds as are_small};

    ghost Value = { Row (Row ℕ) };

    ghost view = { λ it. it.left };

    ghost invariant = { λ it. are_small it.left };
}

impl IdIter {
    /// An iterator over these ids, each of at most 256 bytes.
    pub fn new(left: List<Text>) -> IdIter
        requires few { length left < 2 ^ 32 }
        requires small { AreSmallIds left }
        ensures { result ≡ left }
    {
        IdIter {
            left: Iter::new(left),
        }
    }

    /// How many are left.
    pub fn max_left(&self) -> u32
        ensures { result ≡ length self.now }
    {
        self.left.max_left()
    }

    /// Appends the result of `list_offers` or `list_proxies`: the batch for n ids, and the iterator's
    /// reference where something is left behind it and nil where nothing is. Answers whether something
    /// is left. The writer holds what stands before the body of a reply. Where n is at least 1 and
    /// something is left, the batch isn't empty.
    ///
    /// # Errors
    ///
    /// `Memory` only when out of memory; the iterator and what the writer holds are then unchanged.
    pub fn first_batch(
        &mut self,
        alloc: Global,
        n: u32,
        w: &mut Writer,
        iterator: &Ior,
    ) -> Result<bool, Memory>
        requires start { length w.old.bytes ≡ REPLY_START }
        requires reference { IsSmallReference iterator.now }
        ensures batch { IfOk result (λ more.
            GivesBatch (ids_found iterator.now) self.old n self.new w.old w.new more) }
        ensures some { OnOk result (0 < n → 0 < length self.old → length self.new
            < length self.old) }
        ensures err { OnErr result ((self.new ≡ self.old) × (w.new.bytes ≡ w.old.bytes)) }
        ensures order { w.new.order ≡ w.old.order }
    {
        self.left.first_batch(alloc, n, w, iterator)
    }

    /// Appends the result of `next_n`: whether something is left behind the batch for n ids, and the
    /// batch. Answers whether something is left. The writer holds what stands before the body of a
    /// reply. Where n is at least 1 and something is left, the batch isn't empty.
    ///
    /// # Errors
    ///
    /// `Memory` only when out of memory; the iterator and what the writer holds are then unchanged.
    pub fn next_n(&mut self, alloc: Global, n: u32, w: &mut Writer) -> Result<bool, Memory>
        requires { length w.old.bytes ≡ REPLY_START }
        ensures batch { IfOk result
            (λ more. GivesBatch next_ids self.old n self.new w.old w.new more) }
        ensures some { OnOk result (0 < n → 0 < length self.old → length self.new
            < length self.old) }
        ensures err { OnErr result ((self.new ≡ self.old) × (w.new.bytes ≡ w.old.bytes)) }
        ensures order { w.new.order ≡ w.old.order }
    {
        self.left.next_n(alloc, n, w, Truth::SomeLeft)
    }
}
