//! One trader: its store, and the history that leads to it.

ghost use Rattle.std.specs.Prelude.{◌≡◌, ◌≤◌, ◌<◌, true, false, length, vec_len, vec_capacity, IfOk, OnOk, OnErr, IsOk};
ghost use Rattle.td_cdr.specs.Marks.{KeepsLatest};
ghost use Rattle.td_marks.specs.Keeping.{AreRingMarks as AreMarks};
ghost use Rattle.td_changes.specs.Applying.{apply_counted, is_at_limit, is_free, seek};
ghost use Rattle.td_changes.specs.Histories.{Legal};
ghost use Rattle.td_changes.specs.Numbering.{AreNumbered};
ghost use Rattle.td_trader.specs.Caching.{IsCacheOf};
ghost use Rattle.td_trader.specs.OfferLimits.{HasLimitedOffers};
ghost use Rattle.td_trader.specs.PlainTraders.{AreBounds, HasShortReplies, after_begin, after_change, begin_at};
ghost use Rattle.td_trader.specs.PlainTraders.{new_trader, outcome_of, store_of};
ghost use Rattle.td_changes.specs.Recording.{HasRoom, Records};

use crate::begin::{Begin, begin_cached};
use crate::cache::Cache;
use std::alloc::Global;
use std::marker::Model;
use std::snapshot::Snapshot;
use td_cdr::{Memory, Octets, Shared, Text};
use td_changes::{Bounds, MOST_CHANGES, acceptance, apply_change, not_done, seek};
use td_marks::Ring;
use td_ops::{Change, Look, Outcome, Query};
use td_register::Accepted;
use td_store::Store;

/// A trader: its store, the changes that it accepted since it was opened, with their replies, and the marks of
/// the queries that it searched.
pub struct Trader {
    alloc: Global,
    name: Text,
    bounds: Bounds,
    opening: Snapshot<Store>,
    store: Store,
    history: Vec<Accepted>,
    ring: Ring,
    /// There is room for one more entry of the history.
    reserved: bool,
    /// What queries were served with since the last accepted change.
    cache: Cache,
}

// By hand, since a derived drop is written out at each exit, and proved again in each crate above.
impl Drop for Trader {
    fn drop(self) {
        let Trader {
            alloc: _alloc,
            name: _name,
            bounds: _bounds,
            opening: _opening,
            store: _store,
            history: _history,
            ring: _ring,
            reserved: _reserved,
            cache: _cache,
        } = self;
    }
}

impl Model for Trader {
    ghost use Rattle.std.specs.Prelude.{◌≡◌, vec_len, vec_capacity};
    ghost use Rattle.std.specs.Coded.{codes};
    ghost use Rattle.td_typecode.specs.contracts.code.TypeCode as code;
    ghost use Rattle.td_typecode.specs.contracts.code.Value as value;
    ghost use Rattle.td_trader.specs.Caching.{IsCacheOf};
    ghost use Rattle.td_trader.specs.OfferLimits.{HasLimitedOffers};
    ghost use Rattle.td_trader.specs.PlainTraders.{AreBounds, HasShortReplies, IsValidTrader, PlainTrader};
    ghost use Rattle.td_changes.specs.Recording.{HasRoom};

    ghost Value = { PlainTrader };

    ghost coded = { Prim.hlevel (codes, code.the_row.coded, value.the_row.coded) };

    ghost view = { λ t. record {
      name = t.name;
      opening = t.opening.value;
      bounds = t.bounds;
      history = t.history.items;
      marks = t.ring;
      reserved = t.reserved;
    } };

    ghost invariant = { λ t. AreBounds t.bounds
        × IsValidTrader t.bounds t.opening.value t.store t.history.items
        × HasRoom t.reserved (vec_len t.history) (vec_capacity t.history)
        × HasShortReplies t.opening.value
        × HasLimitedOffers t.opening.value × IsCacheOf t.store t.cache };
}

impl Trader {
    /// A trader that was just opened. It keeps the allocator.
    ///
    /// # Errors
    ///
    /// `Memory` only when out of memory.
    pub fn new(
        alloc: Global,
        name: Text,
        opening: Store,
        stem: Octets,
        bounds: Bounds,
    ) -> Result<Trader, Memory>
        requires bounds { AreBounds bounds }
        // Its offers are within their limits.
        requires limited { HasLimitedOffers opening }
        // It is the opening store's own.
        requires stem { (stem ≡ opening.attributes.request_id_stem) × (length stem ≤ 64) }
        ensures { IfOk result (λ t. t ≡ new_trader name opening bounds) }
    {
        drop(stem);
        let history = Vec::new(alloc);
        let cache = Cache::new();
        match Ring::new(alloc, bounds.ring) {
            Ok(ring) => Ok(Trader {
                alloc,
                name,
                bounds,
                opening: Snapshot::of(&opening),
                store: opening,
                history,
                ring,
                reserved: false,
                cache,
            }),
            Err(memory) => {
                drop(opening);
                Err(memory)
            }
        }
    }

    /// The trader's name.
    pub fn name(&self) -> &Text
        ensures { result.now ≡ self.now.name }
    {
        &self.name
    }

    /// The store as it is now. Takes no memory.
    pub fn store(&self) -> &Store
        ensures { result.now ≡ store_of self.now }
    {
        &self.store
    }

    /// The changes that were accepted, with their replies. Takes no memory.
    pub fn history(&self) -> &[Accepted]
        ensures entries { result.now ≡ self.now.history }
        ensures legal { Legal self.now.bounds self.now.opening self.now.history }
    {
        self.history.as_slice()
    }

    /// How many changes were accepted. Takes no memory.
    pub fn point(&self) -> u64
        ensures count { result ≡ length self.now.history }
        ensures legal { Legal self.now.bounds self.now.opening self.now.history }
        ensures admitted { HasShortReplies self.now.opening }
    {
        self.history.len() as u64
    }

    /// How many marks were made. Takes no memory.
    pub fn marks(&self) -> u64
        ensures count { result ≡ self.now.marks.count }
        ensures orderly { KeepsLatest self.now.marks }
        ensures kept { AreMarks self.now.marks }
        ensures bounds { AreBounds self.now.bounds }
    {
        self.ring.keeps();
        self.ring.count()
    }

    /// What a look is answered with, and the store's max_list.
    ///
    /// # Errors
    ///
    /// `Memory` only when out of memory.
    pub fn look(&self, l: &Look) -> Result<(Outcome, u32), Memory>
        ensures { IfOk result (λ a. a ≡ seek (store_of self.now) l.now) }
    {
        seek(self.alloc, &self.store, l)
    }

    /// Takes room for one more entry of the history, so that the next change that is accepted needs none.
    ///
    /// # Errors
    ///
    /// `Memory` only when out of memory. The trader is then as it was.
    pub fn reserve_change(&mut self) -> Result<(), Memory>
        ensures ok { OnOk result (self.new ≡ record self.old { reserved = true }) }
        ensures err { OnErr result (self.new ≡ self.old) }
    {
        self.history.reserve(1)?;
        self.reserved = true;
        Ok(())
    }

    /// What a change comes to. An accepted one stands at the end of the history then; where so many were
    /// accepted that no more is, it is refused, with IMP_LIMIT if nothing else refuses it.
    ///
    /// # Errors
    ///
    /// `Memory` only when out of memory; never for a change that takes none, where room was reserved. The
    /// trader is then as it was.
    pub fn change(&mut self, c: Change) -> Result<Outcome, Memory>
        ensures outcome { IfOk result (λ o. o ≡ outcome_of self.old c) }
        ensures after { OnOk result (self.new ≡ after_change self.old c) }
        ensures err { OnErr result (self.new ≡ self.old) }
        ensures free { self.old.reserved ≡ true → is_free c ≡ true → IsOk result }
    {
        let Trader {
            alloc,
            bounds,
            store,
            history,
            reserved,
            cache,
            ..
        } = self;
        record_change(*alloc, bounds, store, cache, history, reserved, c)
    }

    /// How a query begins at the store as it is now, whose offers are within their limits. Where it is
    /// searched here it is marked.
    ///
    /// # Errors
    ///
    /// `Memory` only when out of memory. The trader is then as it was.
    pub fn begin(&mut self, q: &Shared<Query>) -> Result<Begin, Memory>
        ensures begin { IfOk result (λ b. b ≡ begin_at self.old q.now) }
        ensures limited { HasLimitedOffers (store_of self.old) }
        ensures after { IfOk result (λ b. self.new ≡ after_begin self.old q.now b) }
        ensures err { OnErr result (self.new ≡ self.old) }
    {
        let Trader {
            alloc,
            bounds,
            store,
            history,
            ring,
            cache,
            ..
        } = self;
        begin_cached(*alloc, bounds, store, cache, history.len() as u64, ring, q)
    }
}

/// Whether so many changes were accepted that no more is.
fn is_at_limit(bounds: &Bounds, count: usize) -> bool
    ensures { result ≡ is_at_limit bounds.now count }
{
    count as u64 >= bounds.changes || count >= MOST_CHANGES
}

/// Does a change, and puts it at the end of the history if it is accepted; nothing that queries were
/// served with is kept then. Room for the entry and for the outcome is taken first. Where so many changes
/// were accepted that no more is, only what else refuses it is looked for.
#[tactic(auto, using(crate::proofs::Cached::nothing_kept))]
fn record_change(
    alloc: Global,
    bounds: &Bounds,
    store: &mut Store,
    cache: &mut Cache,
    history: &mut Vec<Accepted>,
    reserved: &mut bool,
    c: Change,
) -> Result<Outcome, Memory>
    requires numbered { AreNumbered store.old }
    requires cache { IsCacheOf store.old cache.old }
    requires room { HasRoom reserved.old (vec_len history.old) (vec_capacity history.old) }
    ensures records { Records c (apply_counted bounds.now (length history.old.items) store.old c)
        store.old store.new history.old.items history.new.items reserved.old reserved.new result }
    ensures room { HasRoom reserved.new (vec_len history.new) (vec_capacity history.new) }
    ensures free { reserved.old ≡ true → is_free c ≡ true → IsOk result }
    ensures cache { IsCacheOf store.new cache.new }
{
    history.reserve(1)?;
    let full = is_at_limit(bounds, history.len());
    let content = acceptance(alloc, store, &c)?;
    match apply_change(alloc, store, full, c) {
        Ok(accepted) => {
            history.push_reserved(accepted);
            *reserved = false;
            *cache = Cache::new();
            Ok(Outcome::Done(content))
        }
        Err(fault) => {
            drop(content);
            not_done(fault)
        }
    }
}
