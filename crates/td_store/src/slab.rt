//! A slab whose values stand on chains.

ghost use Rattle.std.specs.Prelude.{◌≡◌, ◌≢◌, ◌+◌, ◌-◌, ◌*◌, ◌^◌, ◌<◌, ◌≤◌, ◌&&◌, ◌⊎◌, [], ◌∷◌, ◌++◌, ℕ, length, map};
ghost use Rattle.std.specs.Prelude.{None, Some, IfOk, IfErr, OnOk, OnErr, OnSome, MatchOption, MatchResult, is_some};
ghost use Rattle.std.specs.Prelude.{IsSome, ⊤, true, false, option_copied, option_map, slice_set};
ghost use Rattle.std.specs.Option.{option_copied_mut};
ghost use Rattle.std.specs.Borrow.{sem};
ghost use Rattle.td_store.specs.Slabs.{chain_of, value_at, held, is_in, first_of, IsNext, InsertsValue, RemovesValue};
ghost use Rattle.td_store.specs.Rings.{with_links, left, with_free, GrowsFor};
ghost use Rattle.td_store.specs.Kept.{next_place, place_of};
ghost use Rattle.td_store.specs.Slots.{value_of};

use crate::rings::Rings;
use crate::slot::Slot;
use crate::steps::Steps;
use std::alloc::Global;
use std::marker::Model;
use std::sync::ledger::Ledger;
use td_cdr::Memory;

/// Values at places, each on two chains. A chain has its places in the order of putting.
#[derive(Drop)]
pub struct Slab<T> {
    values: Vec<Slot<T>>,
    rings: Rings,
    count: u32,
}

impl<T> Model for Slab<T> {
    ghost use Rattle.std.specs.Prelude.{map, length};
    ghost use Rattle.td_store.specs.Slabs.{Slab as Seen, slab_code};

    ghost Value = { Seen T };

    ghost coded = { slab_code T.code };

    ghost use Rattle.td_store.specs.Slots.{value_of};
    ghost use Rattle.td_store.specs.Kept.{slab_of, IsSlab};

    ghost view = { λ s. slab_of (map value_of s.values.items) s.rings.linked.0 s.count };

    ghost invariant = { λ s. IsSlab (map value_of s.values.items) s.rings.linked.0
        (length s.rings.joints.items) s.count };
}

impl<T> Slab<T> {
    ghost use Rattle.td_store.specs.Lends.{lends_change, lends_value};

    /// The slab with no values and no chains.
    ///
    /// # Errors
    ///
    /// `Memory` only when out of memory.
    pub fn new(alloc: Global) -> Result<Slab<T>, Memory>
        ensures { IfOk result (λ s. s ≡ record { slots = []; chains = []; spare = 0 }) }
    {
        let mut rings = Rings::new(alloc);
        rings.grow()?;
        Ok(Slab {
            values: Vec::new(alloc),
            rings,
            count: 0,
        })
    }

    /// One chain more, with nothing on it. Answers its number.
    ///
    /// # Errors
    ///
    /// `Memory` only when out of memory; nothing has then changed.
    pub fn add_chain(&mut self) -> Result<u32, Memory>
        requires few { length self.old.chains < 2 ^ 32 - 1 }
        ensures ok { IfOk result (λ c. c ≡ length self.old.chains) }
        ensures added { OnOk result (self.new
            ≡ record self.old { chains = self.old.chains ++ [] ∷ [] }) }
        ensures err { OnErr result (self.new ≡ self.old) }
    {
        let chain = self.count;
        reserve(&mut self.rings, chain as usize + 2)?;
        self.count = chain + 1;
        Ok(chain)
    }

    /// Puts a value at a place that has none, a free one first, and that place at the end of two chains.
    ///
    /// # Errors
    ///
    /// The value with `Memory` only when out of memory; nothing has then changed. No free place runs out of memory.
    pub fn put(&mut self, first: u32, second: u32, value: T) -> Result<u32, (T, Memory)>
        requires first { first < length self.old.chains }
        requires second { second < length self.old.chains }
        requires apart { first ≢ second }
        requires room { held self.old.slots < 2 ^ 32 - 1 }
        ensures ok { IfOk result (λ place. InsertsValue self.old self.new first second value
            place) }
        ensures err { OnErr result (self.new ≡ self.old) }
        ensures value { IfErr result (λ e. e.0 ≡ value) }
        ensures memory { OnErr result (self.old.spare ≡ 0) }
    {
        let head = self.rings.after(0);
        if head != 0 {
            return Ok(put_free(
                &mut self.values,
                &mut self.rings,
                head / 3,
                first as usize + 1,
                second as usize + 1,
                value,
            ));
        }
        let refused = match put_new(
            &mut self.values,
            &mut self.rings,
            first as usize + 1,
            second as usize + 1,
            value,
        ) {
            Ok(place) => return Ok(place),
            Err(refused) => refused,
        };
        Err(refused)
    }

    /// Takes the value at a place away, and the place off its chains. Takes no memory.
    pub fn take(&mut self, place: u32) -> Option<T>
        ensures value { result ≡ value_at self.old.slots place }
        ensures none { MatchOption result (self.new ≡ self.old)
            (λ _. RemovesValue self.old self.new place) }
    {
        let place = place as usize;
        if place >= self.values.len() {
            return None;
        }
        match self.values[place].take() {
            None => None,
            Some(value) => {
                free(&mut self.rings, place);
                Some(value)
            }
        }
    }

    /// The first place of a chain. One step.
    pub fn head<L: Ledger>(&self, chain: u32, steps: &mut Steps<L>) -> Option<u32>
        ensures value { result ≡ first_of (chain_of self.now.chains chain) }
        ensures step { steps.new ≡ steps.old + 1 }
    {
        steps.add();
        if chain >= self.count {
            return None;
        }
        place_at(self.rings.after(3 * (chain as usize + 1)))
    }

    /// The value at a place of a chain, and the place after it. One step.
    pub fn read<L: Ledger>(
        &self,
        chain: u32,
        place: u32,
        steps: &mut Steps<L>,
    ) -> Option<(&T, Option<u32>)>
        ensures found { is_some result ≡ is_in place (chain_of self.now.chains chain) }
        ensures value { OnSome result (option_map (λ r. r.0.now) result
            ≡ value_at self.now.slots place) }
        ensures next { MatchOption result ⊤
            (λ r. IsNext (chain_of self.now.chains chain) place r.1) }
        ensures step { steps.new ≡ steps.old + 1 }
    {
        steps.add();
        if chain >= self.count {
            return None;
        }
        if place as usize >= self.values.len() {
            return None;
        }
        match self.values[place as usize].value() {
            None => None,
            Some(value) => match next_on(&self.rings, chain as usize + 1, place as usize) {
                None => None,
                Some(next) => Some((value, next)),
            },
        }
    }

    /// How many chains there are.
    pub fn chain_count(&self) -> u32
        ensures { result ≡ length self.now.chains }
    {
        self.count
    }

    /// The value at a place. One step.
    pub fn look<L: Ledger>(&self, place: u32, steps: &mut Steps<L>) -> Option<&T>
        ensures value { option_copied result ≡ value_at self.now.slots place }
        ensures step { steps.new ≡ steps.old + 1 }
    {
        steps.add();
        if place as usize >= self.values.len() {
            return None;
        }
        self.values[place as usize].value()
    }

    /// Whether a place has a value.
    fn holds(&self, place: usize) -> bool
        ensures { result ≡ is_some (value_at self.now.slots place) }
    {
        place < self.values.len() && self.values[place].value().is_some()
    }

    /// The value at a place that has one, for writing.
    fn value_mut(&mut self, place: usize) -> &mut T
        requires { IsSome (value_at self.old.slots place) }
        ensures* writes_back { sem 𝓛 (lends_value T.row self.entry place result) }
        ensures value { value_at self.old.slots place ≡ Some result.now }
    {
        self.values[place].value_mut()
    }

    /// The value at a place, for writing. One step.
    pub fn change<L: Ledger>(&mut self, place: u32, steps: &mut Steps<L>) -> Option<&mut T>
        ensures* writes_back { sem 𝓛 (lends_change T.row self.entry place result) }
        ensures value { option_copied_mut result ≡ value_at self.old.slots place }
        ensures step { steps.new ≡ steps.old + 1 }
    {
        steps.add();
        if self.holds(place as usize) {
            Some(self.value_mut(place as usize))
        } else {
            None
        }
    }
}

/// The place of a link, and nothing at a joint that closes a ring.
fn place_at(joint: usize) -> Option<u32>
    requires small { joint < 3 * 2 ^ 32 }
    ensures { result ≡ next_place joint }
{
    if joint % 3 == 0 {
        None
    } else {
        Some((joint / 3) as u32)
    }
}

/// Takes both links of a place off their rings, and puts its first link at the end of the free ones.
fn free(rings: &mut Rings, place: usize)
    requires within { 3 * place + 2 < length rings.old.joints.items }
    ensures len { length rings.new.joints.items ≡ length rings.old.joints.items }
    ensures rings { (k : ℕ) → rings.new.linked.0 k ≡ with_free place rings.old.linked.0 k }
{
    let first = 3 * place + 1;
    rings.unlink(first);
    rings.unlink(first + 1);
    rings.append(first, 0);
}

/// Puts both links of a place at the ends of two rings.
fn enter(rings: &mut Rings, place: usize, first: usize, second: usize)
    requires within { 3 * place + 2 < length rings.old.joints.items }
    requires first { 3 * first < length rings.old.joints.items }
    requires second { 3 * second < length rings.old.joints.items }
    requires first_off { (k : ℕ) → is_in (3 * place + 1) (rings.old.linked.0 k) ≡ false }
    requires second_off { (k : ℕ) → is_in (3 * place + 2) (rings.old.linked.0 k) ≡ false }
    ensures len { length rings.new.joints.items ≡ length rings.old.joints.items }
    ensures rings { (k : ℕ) → rings.new.linked.0 k
        ≡ with_links place first second rings.old.linked.0 k }
{
    let link = 3 * place + 1;
    rings.append(link, first);
    rings.append(link + 1, second);
}

/// Makes sure that there are so many rows of joints.
///
/// # Errors
///
/// `Memory` only when out of memory.
fn reserve(rings: &mut Rings, rows: usize) -> Result<(), Memory>
    requires near { 3 * rows ≤ length rings.old.joints.items + 3 }
    ensures ok { OnOk result (3 * rows ≤ length rings.new.joints.items) }
    ensures len { GrowsFor rows (length rings.old.joints.items) (length rings.new.joints.items) }
    ensures rings { (k : ℕ) → rings.new.linked.0 k ≡ rings.old.linked.0 k }
{
    if rings.len() < 3 * rows {
        return rings.grow();
    }
    Ok(())
}

/// The place after this one on a ring, where the place is on that ring.
fn next_on(rings: &Rings, ring: usize, place: usize) -> Option<Option<u32>>
    requires within { 3 * place + 2 < length rings.now.joints.items }
    requires small { length rings.now.joints.items ≤ 3 * 2 ^ 32 }
    requires ring { ring < 2 ^ 34 }
    requires apart { is_in (3 * place + 1) (rings.now.linked.0 ring) ≡ true →
        is_in (3 * place + 2) (rings.now.linked.0 ring) ≡ false }
    ensures found { is_some result ≡ is_in place (map place_of (rings.now.linked.0 ring)) }
    ensures next { MatchOption result ⊤
        (λ next. IsNext (map place_of (rings.now.linked.0 ring)) place next) }
{
    let link = 3 * place + 1;
    if rings.is_on(link, ring) {
        return Some(place_at(rings.after(link)));
    }
    if rings.is_on(link + 1, ring) {
        return Some(place_at(rings.after(link + 1)));
    }
    None
}

/// Puts a value at a new place, and that place at the end of two rings.
///
/// # Errors
///
/// The value with `Memory` only when out of memory.
fn put_new<T>(
    values: &mut Vec<Slot<T>>,
    rings: &mut Rings,
    first: usize,
    second: usize,
    value: T,
) -> Result<u32, (T, Memory)>
    requires room { 3 * length values.old.items ≤ length rings.old.joints.items }
    requires small { length values.old.items < 2 ^ 32 - 1 }
    requires first { 3 * first < length rings.old.joints.items }
    requires second { 3 * second < length rings.old.joints.items }
    requires first_off { (k : ℕ) → is_in (3 * length values.old.items + 1) (rings.old.linked.0 k)
        ≡ false }
    requires second_off { (k : ℕ) → is_in (3 * length values.old.items + 2) (rings.old.linked.0 k)
        ≡ false }
    ensures place { IfOk result (λ place. place ≡ length values.old.items) }
    ensures slots { OnOk result (values.new.items ≡ values.old.items ++ Slot.Occupied value ∷ []) }
    ensures rings { OnOk result ((k : ℕ) → rings.new.linked.0 k
        ≡ with_links (length values.old.items) first second rings.old.linked.0 k) }
    ensures grown { OnOk result (3 * (length values.old.items + 1)
        ≤ length rings.new.joints.items) }
    ensures len { GrowsFor (length values.old.items + 1) (length rings.old.joints.items)
        (length rings.new.joints.items) }
    ensures err_slots { OnErr result (values.new.items ≡ values.old.items) }
    ensures err_rings { OnErr result ((k : ℕ) → rings.new.linked.0 k ≡ rings.old.linked.0 k) }
    ensures err_value { IfErr result (λ e. e.0 ≡ value) }
{
    let place = values.len();
    if reserve(rings, place + 1).is_err() {
        return Err((value, Memory));
    }
    match values.push(Slot::Occupied(value)) {
        Err(refused) => Err((refused.value.into_value(), Memory)),
        Ok(()) => {
            enter(rings, place, first, second);
            Ok(place as u32)
        }
    }
}

/// Puts a value at a free place, and that place at the end of two rings.
fn put_free<T>(
    values: &mut Vec<Slot<T>>,
    rings: &mut Rings,
    place: usize,
    first: usize,
    second: usize,
    value: T,
) -> u32
    requires there { place < length values.old.items }
    requires vacant { value_at (map value_of values.old.items) place ≡ None }
    requires small { length values.old.items < 2 ^ 32 }
    requires room { 3 * length values.old.items ≤ length rings.old.joints.items }
    requires first { 3 * first < length rings.old.joints.items }
    requires second { 3 * second < length rings.old.joints.items }
    requires second_off { (k : ℕ) → is_in (3 * place + 2) (rings.old.linked.0 k) ≡ false }
    ensures place { result ≡ place }
    ensures slots { values.new.items ≡ slice_set values.old.items place (Slot.Occupied value) }
    ensures len { length rings.new.joints.items ≡ length rings.old.joints.items }
    ensures rings { (k : ℕ) → rings.new.linked.0 k
        ≡ with_links place first second (left (3 * place + 1) rings.old.linked.0) k }
{
    rings.unlink(3 * place + 1);
    values[place].fill(value);
    enter(rings, place, first, second);
    place as u32
}
