//! The offers that a query searches.

ghost use Rattle.std.specs.Prelude.{◌≡◌, ◌+◌, ◌≤◌, List as Row, filter, length, map, IfOk};
ghost use Rattle.td_store.specs.Candidates.{candidates, has_conforming_type, is_among};
ghost use Rattle.td_store.specs.Searches.{AreDistinct, AreChained, only, searched_types};
ghost use Rattle.td_store.specs.declared.record.OfferRecord.{OfferRecord as an_offer};

use crate::condition::{has_conforming_type, is_candidate};
use crate::gathering::gather_all;
use crate::record::OfferRecord;
use crate::slab::Slab;
use crate::steps::Steps;
use std::alloc::Global;
use std::collections::BTreeMap;
use std::sync::ledger::Ledger;
use td_cdr::{List, Memory, Text, Twin};
use td_policy::{Attributes, Stated};
use td_types::Types;

/// The incarnations of the types that conform to a type, or its own alone.
///
/// # Errors
///
/// `Memory` only when out of memory.
pub(crate) fn searched_types(
    alloc: Global,
    types: &Types,
    exact: bool,
    asked: &Text,
) -> Result<List<u64>, Memory>
    ensures answer { IfOk result (λ numbers. numbers
        ≡ searched_types types.now.types exact asked.now) }
    ensures apart { IfOk result AreDistinct }
{
    if exact {
        only(alloc, types.incarnation_of(asked.as_slice()))
    } else {
        types.subtypes(asked)
    }
}

/// The incarnation alone, if there is one.
///
/// # Errors
///
/// `Memory` only when out of memory.
fn only(alloc: Global, incarnation: Option<u64>) -> Result<List<u64>, Memory>
    ensures { IfOk result (λ numbers. numbers ≡ only incarnation) }
{
    let mut numbers = List::new(alloc);
    if let Some(incarnation) = incarnation {
        numbers.push(incarnation)?;
    }
    Ok(numbers)
}

/// The offers that came under these incarnations, by rising number. At most one step for each
/// incarnation, and one for each of these offers.
///
/// # Errors
///
/// `Memory` only when out of memory.
pub(crate) fn conforming<'a, L: Ledger>(
    alloc: Global,
    slab: &'a Slab<OfferRecord>,
    chains: &BTreeMap<u64, u32>,
    incarnations: &[u64],
    steps: &mut Steps<L>,
) -> Result<Vec<&'a OfferRecord>, Memory>
    requires apart { AreDistinct incarnations.now }
    ensures ok { (offers : Row an_offer) → AreChained slab.now chains.now offers →
        IfOk result (λ v. map (λ o. o.now) v.items ≡ filter (is_among incarnations.now) offers) }
    ensures steps { (offers : Row an_offer) → AreChained slab.now chains.now offers →
        steps.new ≤ steps.old + length incarnations.now
        + length (filter (is_among incarnations.now) offers) }
{
    let mut found = Vec::new(alloc);
    gather_all(slab, chains, incarnations, &mut found, steps)?;
    found.sort_by_key(|offer| offer.number)?;
    Ok(found)
}

/// Copies of the first so many of these that the query searches.
///
/// # Errors
///
/// `Memory` only when out of memory.
pub(crate) fn candidates(
    alloc: Global,
    types: &Types,
    attributes: &Attributes,
    stated: &Stated,
    asked: &Text,
    count: u32,
    offers: &[&OfferRecord],
) -> Result<List<OfferRecord>, Memory>
    ensures { IfOk result (λ found. found
        ≡ candidates types.now.types attributes.now stated.now asked.now count
        (map (λ r. r.now) offers.now)) }
{
    let mut found = List::new(alloc);
    for offer in offers {
        if found.len() >= count as usize {
            return Ok(found);
        }
        if is_candidate(types, attributes, stated, asked, offer) {
            found.push(offer.copy(alloc)?)?;
        }
    }
    Ok(found)
}

/// Those of these offers whose type conforms to the asked one.
///
/// # Errors
///
/// `Memory` only when out of memory.
pub(crate) fn of_conforming_types<'a>(
    alloc: Global,
    types: &Types,
    asked: &Text,
    offers: &[&'a OfferRecord],
) -> Result<Vec<&'a OfferRecord>, Memory>
    ensures { IfOk result (λ v. map (λ o. o.now) v.items
        ≡ filter (has_conforming_type types.now.types asked.now) (map (λ r. r.now) offers.now)) }
{
    let mut found = Vec::new(alloc);
    for offer in offers {
        if has_conforming_type(types, asked, offer) {
            found.push(*offer)?;
        }
    }
    Ok(found)
}
