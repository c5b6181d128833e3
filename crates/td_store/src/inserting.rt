//! Putting an offer on its chains.

ghost use Rattle.std.specs.Prelude.{◌≡◌, ◌≢◌, ◌<◌, ◌-◌, ◌^◌, ℕ, None, Some, IfOk, OnOk, OnErr, length};
ghost use Rattle.std.specs.BTreeMap.{get, IsOrdered};
ghost use Rattle.std.specs.List.{AllByRecursion};
ghost use Rattle.std.specs.Ordering.{nat_cmp};
ghost use Rattle.td_store.specs.Homes.{AreChains, places_of};
ghost use Rattle.td_store.specs.Puts.{IsPut, IsAsBefore};
ghost use Rattle.td_store.specs.Slabs.{chain_of, held, InsertsValue};

use crate::record::OfferRecord;
use crate::slab::Slab;
use std::collections::BTreeMap;
use td_cdr::Memory;

/// The chain of an incarnation, a new one where it has none.
///
/// # Errors
///
/// `Memory` only when out of memory; the chains of all incarnations are then as before.
pub(crate) fn chain_for(
    slab: &mut Slab<OfferRecord>,
    chains: &mut BTreeMap<u64, u32>,
    incarnation: u64,
) -> Result<u32, Memory>
    requires { AreChains (get nat_cmp chains.old) (length slab.old.chains) }
    ensures found { IfOk result (λ c. get nat_cmp chains.new incarnation ≡ Some c) }
    ensures chains { AreChains (get nat_cmp chains.new) (length slab.new.chains) }
    ensures slots { slab.new.slots ≡ slab.old.slots }
    ensures places { (c : ℕ) → chain_of slab.new.chains c ≡ chain_of slab.old.chains c }
    ensures of_types { (i : ℕ) →
        places_of (chain_of slab.new.chains) (get nat_cmp chains.new i)
        ≡ places_of (chain_of slab.old.chains) (get nat_cmp chains.old i) }
{
    match chains.get(&incarnation).copied() {
        Some(chain) => Ok(chain),
        None => add_chain_for(slab, chains, incarnation),
    }
}

/// A new chain for an incarnation that has none.
fn add_chain_for(
    slab: &mut Slab<OfferRecord>,
    chains: &mut BTreeMap<u64, u32>,
    incarnation: u64,
) -> Result<u32, Memory>
    requires chains { AreChains (get nat_cmp chains.old) (length slab.old.chains) }
    requires absent { get nat_cmp chains.old incarnation ≡ None }
    ensures found { IfOk result (λ c. get nat_cmp chains.new incarnation ≡ Some c) }
    ensures chains { AreChains (get nat_cmp chains.new) (length slab.new.chains) }
    ensures slots { slab.new.slots ≡ slab.old.slots }
    ensures places { (c : ℕ) → chain_of slab.new.chains c ≡ chain_of slab.old.chains c }
    ensures of_types { (i : ℕ) →
        places_of (chain_of slab.new.chains) (get nat_cmp chains.new i)
        ≡ places_of (chain_of slab.old.chains) (get nat_cmp chains.old i) }
{
    if slab.chain_count() == u32::MAX {
        return Err(Memory);
    }
    let chain = slab.add_chain()?;
    chains.insert(incarnation, chain)?;
    Ok(chain)
}

/// Puts an offer whose number is above all others at a place of both chains, and notes the place.
///
/// # Errors
///
/// `Memory` only when out of memory; each place, each chain and all numbers are then as before.
pub(crate) fn put_offer(
    slab: &mut Slab<OfferRecord>,
    numbers: &mut BTreeMap<u32, u32>,
    of_type: u32,
    of_kind: u32,
    offer: OfferRecord,
) -> Result<(), Memory>
    requires first { of_type < length slab.old.chains }
    requires second { of_kind < length slab.old.chains }
    requires apart { of_type ≢ of_kind }
    requires room { held slab.old.slots < 2 ^ 32 - 1 }
    requires above { AllByRecursion (λ e. e.0 < offer.number) numbers.old.entries }
    requires ordered { IsOrdered nat_cmp numbers.old }
    ensures put { OnOk result
        (IsPut slab.old slab.new of_type of_kind offer numbers.old.entries numbers.new.entries) }
    ensures ordered { IsOrdered nat_cmp numbers.new }
    ensures as_before { OnErr result (IsAsBefore slab.old slab.new) }
    ensures numbers { OnErr result (numbers.new.entries ≡ numbers.old.entries) }
{
    let number = offer.number;
    let place = put_at(slab, of_type, of_kind, offer)?;
    match numbers.insert(number, place) {
        Ok(_) => Ok(()),
        Err(_) => {
            slab.take(place);
            Err(Memory)
        }
    }
}

/// Puts an offer at a place of both chains.
fn put_at(
    slab: &mut Slab<OfferRecord>,
    of_type: u32,
    of_kind: u32,
    offer: OfferRecord,
) -> Result<u32, Memory>
    requires first { of_type < length slab.old.chains }
    requires second { of_kind < length slab.old.chains }
    requires apart { of_type ≢ of_kind }
    requires room { held slab.old.slots < 2 ^ 32 - 1 }
    ensures put { IfOk result (λ place. InsertsValue slab.old slab.new of_type of_kind offer
        place) }
    ensures err { OnErr result (slab.new ≡ slab.old) }
{
    match slab.put(of_type, of_kind, offer) {
        Ok(place) => Ok(place),
        Err(refused) => {
            drop(refused);
            Err(Memory)
        }
    }
}
