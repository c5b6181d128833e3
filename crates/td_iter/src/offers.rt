//! Iterators over offers.

ghost use Rattle.std.specs.Prelude.{◌≡◌, ◌<◌, ◌^◌, length, IfOk, OnOk, OnErr};
ghost use Rattle.td_typecode.specs.declared.reference.Ior.{Ior as Reference};
ghost use Rattle.td_iter.specs.Batches.{GivesBatch, GivesWhole};
ghost use Rattle.td_iter.specs.Heads.{offers_found, next_offers, AreSmallOffers, IsSmallReference, AreLimits};
ghost use Rattle.td_iter.specs.declared.limits.TheConstants.{REPLY_START};

use crate::first::{put_found, put_whole};
use crate::iter::Iter;
use crate::truth::Truth;
use std::alloc::Global;
use std::marker::Model;
use td_cdr::{List, Memory, Text, Writer};
use td_value::{Ior, Offer};

/// The offers that are left of an answer, which contracts see as their list (OMG's Trading Object
/// Service, interface OfferIterator).
pub struct OfferIter {
    left: Iter<Offer>,
}

// By hand, since a derived drop is written out at each exit, and proved again in each crate above.
impl Drop for OfferIter {
    fn drop(self) {
        let OfferIter { left: _left } = self;
    }
}

impl Model for OfferIter {
    ghost use Rattle.std.specs.Prelude.{List as Row};
    ghost use Rattle.std.specs.Coded.{codes};
    ghost use Rattle.td_typecode.specs.contracts.code.TypeCode as code;
    ghost use Rattle.td_typecode.specs.contracts.code.Value as value;
    ghost use Rattle.td_value.specs.declared.structures.Offer.{Offer as an_offer};
    ghost use Rattle.td_iter.specs.Heads.{AreSmallOffers as are_small};

    ghost Value = { Row an_offer };

    ghost coded = { Prim.hlevel (codes, code.the_row.coded, value.the_row.coded) };

    ghost view = { λ it. it.left };

    ghost invariant = { λ it. are_small it.left };
}

impl OfferIter {
    /// An iterator over these offers, each of at most 12 MiB wherever it is written.
    pub fn new(left: List<Offer>) -> OfferIter
        requires few { length left < 2 ^ 32 }
        requires small { AreSmallOffers left }
        ensures { result ≡ left }
    {
        OfferIter {
            left: Iter::new(left),
        }
    }

    /// How many are left.
    pub fn max_left(&self) -> u32
        ensures { result ≡ length self.now }
    {
        self.left.max_left()
    }

    /// Appends the result of a query: the batch for n offers, the iterator's reference where something
    /// is left behind it and nil where nothing is, and the limits. Answers whether something is left.
    /// The writer holds what stands before the body of a reply. Where n is at least 1 and something is
    /// left, the batch isn't empty.
    ///
    /// # Errors
    ///
    /// `Memory` only when out of memory; the iterator and what the writer holds are then unchanged.
    pub fn first_batch(
        &mut self,
        alloc: Global,
        n: u32,
        w: &mut Writer,
        iterator: &Ior,
        limits: &List<Text>,
    ) -> Result<bool, Memory>
        requires start { length w.old.bytes ≡ REPLY_START }
        requires reference { IsSmallReference iterator.now }
        requires limits { AreLimits limits.now }
        ensures batch { IfOk result (λ more.
            GivesBatch (offers_found iterator.now limits.now)
            self.old n self.new w.old w.new more) }
        ensures some { OnOk result (0 < n → 0 < length self.old → length self.new
            < length self.old) }
        ensures err { OnErr result ((self.new ≡ self.old) × (w.new.bytes ≡ w.old.bytes)) }
        ensures order { w.new.order ≡ w.old.order }
    {
        let count = put_found(alloc, w, self.left.left(), n, iterator, limits)?;
        Ok(self.left.give(count))
    }

    /// Appends the result of a query, where its batch for n has all offers that are left: these, the nil reference and
    /// the limits. Answers whether it has; where it hasn't, nothing was written. So an iterator that nobody needs is
    /// given no reference.
    ///
    /// # Errors
    ///
    /// `Memory` only when out of memory; the iterator and what the writer holds are then unchanged.
    pub fn whole_batch(
        &mut self,
        alloc: Global,
        n: u32,
        w: &mut Writer,
        limits: &List<Text>,
    ) -> Result<bool, Memory>
        requires start { length w.old.bytes ≡ REPLY_START }
        requires limits { AreLimits limits.now }
        ensures whole { IfOk result (λ whole. (iterator : Reference)
            → GivesWhole (offers_found iterator limits.now) self.old n self.new w.old w.new whole) }
        ensures err { OnErr result ((self.new ≡ self.old) × (w.new.bytes ≡ w.old.bytes)) }
        ensures order { w.new.order ≡ w.old.order }
    {
        let all = self.left.left().len();
        if (n as usize) < all {
            return Ok(false);
        }
        let whole = put_whole(alloc, w, self.left.left(), n, limits)?;
        if whole {
            let _more = self.left.give(all);
        }
        Ok(whole)
    }

    /// Appends the result of `next_n`: whether something is left behind the batch for n offers, and the
    /// batch. Answers whether something is left. The writer holds what stands before the body of a
    /// reply. Where n is at least 1 and something is left, the batch isn't empty.
    ///
    /// # Errors
    ///
    /// `Memory` only when out of memory; the iterator and what the writer holds are then unchanged.
    pub fn next_n(&mut self, alloc: Global, n: u32, w: &mut Writer) -> Result<bool, Memory>
        requires { length w.old.bytes ≡ REPLY_START }
        ensures batch { IfOk result
            (λ more. GivesBatch next_offers self.old n self.new w.old w.new more) }
        ensures some { OnOk result (0 < n → 0 < length self.old → length self.new
            < length self.old) }
        ensures err { OnErr result ((self.new ≡ self.old) × (w.new.bytes ≡ w.old.bytes)) }
        ensures order { w.new.order ≡ w.old.order }
    {
        self.left.next_n(alloc, n, w, Truth::SomeLeft)
    }
}
