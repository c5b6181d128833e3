//! Offers by their numbers.

use crate::lines::{Start, follows};
use crate::making::{offer_properties, shared};
use crate::telling::{put, put_number, put_truth};
use crate::words::{cut, ulong_of};
use std::alloc::Global;
use std::test::Fail;
use td_cdr::{Memory, Twin};
use td_store::{OfferRecord, Offers};

/// Five offers, of which two are proxy offers.
const START: Start = Start {
    interfaces: "",
    offers: "Device 1 Serial
Printer 2 Cost
Printer 2 proxy
Printer 2 Cost Room
Laser 3 proxy",
    lines: "",
};

#[test]
fn ids_of_both_kinds(rt: HostRuntime) -> Result<(), Fail> {
    follows(&rt, rt.alloc(), &START, "ids = 1 2 4\nproxies = 3 5")
}

/// The second Printer is in the middle of its type's chain and of its kind's.
const MIDDLE: &str = "withdraw 2 = 2
withdraw 2 = none
ids = 1 4
proxies = 3 5
offer 4 = 4 Printer 2 2 no
offer 1 = 1 Device 1 1 no
offer 2 = none";

#[test]
fn removing_from_the_middle(rt: HostRuntime) -> Result<(), Fail> {
    follows(&rt, rt.alloc(), &START, MIDDLE)
}

/// The last offer of a type and the last one of a kind go, and others stay.
const LAST: &str = "withdraw 5 = 5
withdraw 3 = 3
ids = 1 2 4
proxies =";

#[test]
fn removing_the_last(rt: HostRuntime) -> Result<(), Fail> {
    follows(&rt, rt.alloc(), &START, LAST)
}

const MODIFIED: &str = "modify 2 Cost Room Note = yes
offer 2 = 2 Printer 2 3 no
offer 4 = 4 Printer 2 2 no
modify 6 - = no";

#[test]
fn modifying(rt: HostRuntime) -> Result<(), Fail> {
    follows(&rt, rt.alloc(), &START, MODIFIED)
}

const LASERS: Start = Start {
    interfaces: "",
    offers: "Laser 3 Cost
Laser 3 proxy Cost",
    lines: "",
};

/// Copies of an ordinary offer and of a proxy offer.
#[test]
fn copies(rt: HostRuntime) -> Result<(), Fail> {
    follows(
        &rt,
        rt.alloc(),
        &LASERS,
        "copied_offer 1 = 1 Laser 3 1 no\ncopied_offer 2 = 2 Laser 3 1 yes",
    )
}

/// Takes the offer of a number away, or gives it the properties of the words behind the number.
pub(crate) fn change_offer(
    alloc: Global,
    offers: &mut Offers,
    word: &str,
    rest: &str,
    content: &mut Vec<u8>,
) -> Result<(), Memory> {
    let (number, words) = cut(rest);
    let number = ulong_of(number);
    match word {
        "withdraw" => put_number(alloc, content, removed(offers, number)),
        _ => {
            let properties = shared(alloc, offer_properties(alloc, words))?;
            put_truth(content, Some(offers.modify(number, properties)))
        }
    }
}

/// The number of the offer that is taken away, where there is one.
fn removed(offers: &mut Offers, number: u32) -> Option<u64> {
    match offers.remove(number) {
        None => None,
        Some(offer) => Some(offer.number as u64),
    }
}

/// Tells the numbers of the ordinary offers or of the proxy offers.
pub(crate) fn see_ids(
    alloc: Global,
    offers: &Offers,
    word: &str,
    content: &mut Vec<u8>,
) -> Result<(), Memory> {
    let ids = offers.ids(alloc, word == "proxies")?;
    for id in ids.as_slice() {
        put_number(alloc, content, Some(*id as u64))?;
    }
    Ok(())
}

/// Tells what the offer of a number has, or what a copy of it has.
pub(crate) fn see_offer(
    alloc: Global,
    offers: &Offers,
    word: &str,
    number: &str,
    content: &mut Vec<u8>,
) -> Result<(), Memory> {
    match offers.get(ulong_of(number)) {
        None => put(content, b"none"),
        Some(offer) => {
            if word == "offer" {
                return put_offer(alloc, content, offer);
            }
            let twin = offer.copy(alloc)?;
            put_offer(alloc, content, &twin)
        }
    }
}

/// The number, the type, its incarnation, how many properties there are, and whether it is a proxy offer.
fn put_offer(alloc: Global, content: &mut Vec<u8>, offer: &OfferRecord) -> Result<(), Memory> {
    put_number(alloc, content, Some(offer.number as u64))?;
    put(content, offer.service_type.as_slice())?;
    put_number(alloc, content, Some(offer.incarnation))?;
    put_number(alloc, content, Some(offer.properties.len() as u64))?;
    put_truth(content, Some(offer.proxy.is_some()))
}
