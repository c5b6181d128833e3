//! Walking the chains.

ghost use Rattle.std.specs.Prelude.{◌≡◌, ◌+◌, ◌≤◌, ◌++◌, length, map, IfOk, OnOk};
ghost use Rattle.std.specs.BTreeMap.{get};
ghost use Rattle.std.specs.Ordering.{nat_cmp};
ghost use Rattle.td_store.specs.Slabs.{chain_of, value_at};
ghost use Rattle.td_store.specs.Walks.{values_on, values_of, places_on};

use crate::record::OfferRecord;
use crate::slab::Slab;
use crate::steps::Steps;
use std::alloc::Global;
use std::collections::BTreeMap;
use std::marker::Brand;
use std::sync::ledger::{Blank, Ledger};
use td_cdr::{List, Memory};

/// Adds the values on a chain, in its order. One step, and one for each value.
///
/// # Errors
///
/// `Memory` only when out of memory.
pub(crate) fn gather<'a, T, L: Ledger>(
    slab: &'a Slab<T>,
    chain: u32,
    into: &mut Vec<&'a T>,
    steps: &mut Steps<L>,
) -> Result<(), Memory>
    ensures ok { OnOk result (map (λ r. r.now) into.new.items
        ≡ map (λ r. r.now) into.old.items
        ++ values_on slab.now.slots (chain_of slab.now.chains chain)) }
    ensures steps { steps.new
        ≤ steps.old + 1 + length (values_on slab.now.slots (chain_of slab.now.chains chain)) }
{
    let mut next = slab.head(chain, steps);
    while let Some(place) = next {
        match slab.read(chain, place, steps) {
            None => unreachable!(),
            Some((value, after)) => {
                into.push(value)?;
                next = after;
            }
        }
    }
    Ok(())
}

/// The chain of an incarnation.
fn chain_at(chains: &BTreeMap<u64, u32>, incarnation: u64) -> Option<u32>
    ensures { result ≡ get nat_cmp chains.now incarnation }
{
    chains.get(&incarnation).copied()
}

/// Adds the values on a chain, if there is one.
///
/// # Errors
///
/// `Memory` only when out of memory.
fn gather_from<'a, T, L: Ledger>(
    slab: &'a Slab<T>,
    chain: Option<u32>,
    into: &mut Vec<&'a T>,
    steps: &mut Steps<L>,
) -> Result<(), Memory>
    ensures ok { OnOk result (map (λ r. r.now) into.new.items
        ≡ map (λ r. r.now) into.old.items
        ++ values_on slab.now.slots (places_on slab.now.chains chain)) }
    ensures steps { steps.new
        ≤ steps.old + 1 + length (values_on slab.now.slots (places_on slab.now.chains chain)) }
{
    match chain {
        None => Ok(()),
        Some(chain) => gather(slab, chain, into, steps),
    }
}

/// Adds the values on the chains of these incarnations, chain by chain. At most one step for each
/// incarnation, and one for each value.
///
/// # Errors
///
/// `Memory` only when out of memory.
pub(crate) fn gather_all<'a, T, L: Ledger>(
    slab: &'a Slab<T>,
    chains: &BTreeMap<u64, u32>,
    incarnations: &[u64],
    into: &mut Vec<&'a T>,
    steps: &mut Steps<L>,
) -> Result<(), Memory>
    ensures ok { OnOk result (map (λ r. r.now) into.new.items
        ≡ map (λ r. r.now) into.old.items
        ++ values_of slab.now.slots slab.now.chains chains.now incarnations.now) }
    ensures steps { steps.new ≤ steps.old + length incarnations.now
        + length (values_of slab.now.slots slab.now.chains chains.now incarnations.now) }
{
    for incarnation in incarnations {
        gather_from(slab, chain_at(chains, *incarnation), into, steps)?;
    }
    Ok(())
}

/// The numbers of the offers on a chain, in its order.
///
/// # Errors
///
/// `Memory` only when out of memory.
pub(crate) fn numbers_on(
    alloc: Global,
    slab: &Slab<OfferRecord>,
    chain: u32,
) -> Result<List<u32>, Memory>
    ensures { IfOk result
        (λ numbers. numbers ≡ map (λ o. o.number)
        (values_on slab.now.slots (chain_of slab.now.chains chain))) }
{
    counted_numbers::<Brand>(alloc, slab, chain, Blank::new(1))
}

fn counted_numbers<L: Ledger>(
    alloc: Global,
    slab: &Slab<OfferRecord>,
    chain: u32,
    blank: Blank,
) -> Result<List<u32>, Memory>
    requires name { blank.name ≡ L.name }
    requires parts { blank.parts ≡ L.parts }
    requires one { L.parts ≡ 1 }
    ensures { IfOk result
        (λ numbers. numbers ≡ map (λ o. o.number)
        (values_on slab.now.slots (chain_of slab.now.chains chain))) }
{
    let mut steps = Steps::<L>::new(blank);
    let mut offers = Vec::new(alloc);
    gather(slab, chain, &mut offers, &mut steps)?;
    numbers_of(alloc, offers.as_slice())
}

/// The numbers of these offers.
///
/// # Errors
///
/// `Memory` only when out of memory.
fn numbers_of(alloc: Global, offers: &[&OfferRecord]) -> Result<List<u32>, Memory>
    ensures { IfOk result (λ numbers. numbers ≡ map (λ o. o.number) (map (λ r. r.now) offers.now)) }
{
    let mut numbers = List::new(alloc);
    for offer in offers {
        numbers.push(offer.number)?;
    }
    Ok(numbers)
}
