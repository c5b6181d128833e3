//! Which offers a query searches.

ghost use Rattle.std.specs.Prelude.{◌≡◌};

use crate::lines::{Start, follows};
use crate::policies::stated_of;
use crate::telling::put_number;
use crate::words::{cut, text, ulong_of};
use std::alloc::Global;
use std::marker::Brand;
use std::sync::ledger::{Blank, Ledger};
use std::test::Fail;
use td_cdr::{Memory, Text};
use td_policy::Stated;
use td_store::{OfferRecord, Steps, Store};

/// Three types, each below the one before.
pub(crate) const TYPES: &str = "add Device - Serial:long:readonly,Queue:long:both - = 1
add Printer - Cost:long:mandatory Device = 2
add Laser - Room:long:normal Printer = 3";

/// The types, their incarnations, and what the offers have; their numbers are 1 to 8.
const OFFERS: &str = "Device 1
Printer 2 Serial
Laser 3 Serial Room
Laser 3 proxy Serial
Printer 2 dynamic-Queue
Laser 3 Note
Laser 3 Serial Cost
Laser 3 alias-Serial";

const START: Start = Start {
    interfaces: "",
    offers: OFFERS,
    lines: TYPES,
};

/// What is asked: the type, how many are searched at most, and the policies that are stated; then the numbers of the
/// offers found. Serial is readonly and Queue mandatory_readonly, Cost is mandatory and Room normal; no type names
/// Note.
const QUERIES: &str = "query Device 9 = 1 2 3 4 5 6 7 8
query Printer 9 = 2 3 4 5 6 7 8
query Laser 9 = 3 4 6 7 8
query Scanner 9 =
query Device 9 exact_type_match:truth = 1
query Printer 9 exact_type_match:truth = 2 5
query Scanner 9 exact_type_match:truth =
query Device 9 exact_type_match:truth:no = 1 2 3 4 5 6 7 8
query Device 9 use_proxy_offers:truth:no = 1 2 3 5 6 7 8
query Device 9 use_proxy_offers:truth = 1 2 3 4 5 6 7 8
set supports_proxy_offers 0 =
query Device 9 = 1 2 3 5 6 7 8
set supports_proxy_offers 1 =
query Device 9 use_dynamic_properties:truth:no = 1 2 3 4 6 7
query Device 9 use_dynamic_properties:truth = 1 2 3 4 5 6 7 8
set supports_dynamic_properties 0 =
query Device 9 = 1 2 3 4 6 7
set supports_dynamic_properties 1 =
query Device 9 use_modifiable_properties:truth:no = 1 2 4 5 8
query Device 9 use_modifiable_properties:truth = 1 2 3 4 5 6 7 8
set supports_modifiable_properties 0 =
query Device 9 use_modifiable_properties:truth:no = 1 2 3 4 5 6 7 8
set supports_modifiable_properties 1 =
query Laser 9 use_proxy_offers:truth:no use_dynamic_properties:truth:no use_modifiable_properties:truth:no =
query Printer 9 exact_type_match:truth use_dynamic_properties:truth:no = 2
query Device 1 = 1
query Device 0 =
query Device 3 use_modifiable_properties:truth:no = 1 2 4";

#[test]
fn queries(rt: HostRuntime) -> Result<(), Fail> {
    follows(&rt, rt.alloc(), &START, QUERIES)
}

/// The second and the fourth of Laser go, so that the proxy offers' chain is empty, and both of Printer.
const REMOVALS: &str = "withdraw 4 = 4
withdraw 6 = 6
withdraw 2 = 2
withdraw 5 = 5
query Device 9 = 1 3 7 8
query Laser 9 = 3 7 8
query Printer 9 exact_type_match:truth =";

#[test]
fn removed_offers(rt: HostRuntime) -> Result<(), Fail> {
    follows(&rt, rt.alloc(), &START, REMOVALS)
}

/// Laser is removed and added again: its old offers are found no more.
const ADDED_AGAIN: &str = "remove Laser = removed
add Laser - Room:long:normal Printer = 4
query Laser 9 =
query Laser 9 exact_type_match:truth =
query Device 9 = 1 2 5";

#[test]
fn a_type_removed_and_added_again(rt: HostRuntime) -> Result<(), Fail> {
    follows(&rt, rt.alloc(), &START, ADDED_AGAIN)
}

/// All offers whose type conforms, proxy offers too.
const CONFORMING: &str = "how_many_offers = 8
conforming Device = 1 2 3 4 5 6 7 8
conforming Printer = 2 3 4 5 6 7 8
conforming Scanner =";

#[test]
fn offers_of_conforming_types(rt: HostRuntime) -> Result<(), Fail> {
    follows(&rt, rt.alloc(), &START, CONFORMING)
}

/// Tells the numbers of the offers that a query of `TYPE COUNT POLICIES` finds, or of those whose type conforms, on a
/// counter of its own.
pub(crate) fn query(
    alloc: Global,
    store: &Store,
    word: &str,
    rest: &str,
    content: &mut Vec<u8>,
) -> Result<(), Memory> {
    let (asked, rest) = cut(rest);
    let (count, policies) = cut(rest);
    let asked = text(alloc, asked, 0)?;
    if word == "conforming" {
        return conforming::<Brand>(alloc, store, &asked, content, Blank::new(1));
    }
    let stated = stated_of(alloc, policies)?;
    search::<Brand>(
        alloc,
        store,
        stated.get(),
        &asked,
        ulong_of(count),
        content,
        Blank::new(1),
    )
}

fn search<L: Ledger>(
    alloc: Global,
    store: &Store,
    stated: &Stated,
    asked: &Text,
    count: u32,
    content: &mut Vec<u8>,
    blank: Blank,
) -> Result<(), Memory>
    requires name { blank.name ≡ L.name }
    requires parts { blank.parts ≡ L.parts }
    requires one { L.parts ≡ 1 }
{
    let mut steps = Steps::<L>::new(blank);
    match store.offers.candidates(
        alloc,
        &store.types,
        &store.attributes,
        stated,
        asked,
        count,
        &mut steps,
    ) {
        Ok(found) => put_found(alloc, content, found.as_slice()),
        Err(memory) => Err(memory),
    }
}

fn conforming<L: Ledger>(
    alloc: Global,
    store: &Store,
    asked: &Text,
    content: &mut Vec<u8>,
    blank: Blank,
) -> Result<(), Memory>
    requires name { blank.name ≡ L.name }
    requires parts { blank.parts ≡ L.parts }
    requires one { L.parts ≡ 1 }
{
    let mut steps = Steps::<L>::new(blank);
    match store
        .offers
        .conforming(alloc, &store.types, asked, &mut steps)
    {
        Ok(found) => put_conforming(alloc, content, found.as_slice()),
        Err(memory) => Err(memory),
    }
}

fn put_found(alloc: Global, content: &mut Vec<u8>, found: &[OfferRecord]) -> Result<(), Memory> {
    for offer in found {
        put_number(alloc, content, Some(offer.number as u64))?;
    }
    Ok(())
}

fn put_conforming(
    alloc: Global,
    content: &mut Vec<u8>,
    found: &[&OfferRecord],
) -> Result<(), Memory> {
    for offer in found {
        put_number(alloc, content, Some(offer.number as u64))?;
    }
    Ok(())
}
