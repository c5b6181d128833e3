//! Stores from words.

ghost use Rattle.std.specs.Prelude.{◌≡◌, ℕ, ◌<◌, ◌+◌, [], List as Row, filter, length, IfOk, OnOk};
ghost use Rattle.std.specs.List.{AllByRecursion};
ghost use Rattle.td_store.specs.Candidates.{is_among};
ghost use Rattle.td_store_tests.specs.Counting.{count_among};

use crate::lines::Start;
use crate::words::{cut, names, number_of, text};
use std::alloc::Global;
use td_cdr::{List, Memory, Order, Reader, Shared, Text};
use td_policy::{Attributes, OwnReferences, default_attributes};
use td_store::{Links, OfferRecord, Offers, ProxyPart, Store, StoreFault};
use td_types::Types;
use td_value::{Ior, Property, read_any};

/// The store with which lines begin, but for those that it follows first.
pub(crate) fn made_store(alloc: Global, start: &Start) -> Result<Store, Memory> {
    let types = repository(alloc, start.interfaces)?;
    let offers = made_offers(alloc, start.offers)?;
    let attributes = attributes(alloc)?;
    Ok(Store {
        types,
        offers,
        links: Links::new(alloc),
        attributes,
        last_offer: 0,
    })
}

/// A repository with interfaces and without types. Each line is `ID:BASES`.
fn repository(alloc: Global, lines: &str) -> Result<Types, Memory> {
    let mut interfaces = List::new(alloc);
    for line in lines.lines() {
        interfaces.push(interface(alloc, line)?)?;
    }
    Types::new(alloc, interfaces)
}

fn interface(alloc: Global, line: &str) -> Result<(Text, List<Text>), Memory> {
    let (id, bases) = line.split_once(':').unwrap_or((line, "-"));
    let bases = names(alloc, bases, 0)?;
    Ok((text(alloc, id, 0)?, bases))
}

/// The attributes of trader A when it is new.
fn attributes(alloc: Global) -> Result<Attributes, Memory> {
    let name = text(alloc, "A", 0)?;
    let own = own_references(alloc)?;
    default_attributes(alloc, &name, own)
}

/// References with the ids of trader A.
fn own_references(alloc: Global) -> Result<OwnReferences, Memory> {
    let (lookup, (register, link)) = three(alloc, "A/L", "A/R", "A/K")?;
    let (proxy, (admin, types)) = three(alloc, "A/P", "A/A", "A/T")?;
    Ok(OwnReferences {
        lookup,
        register,
        link,
        proxy,
        admin,
        types,
    })
}

/// Three references with these ids.
fn three(
    alloc: Global,
    first: &str,
    second: &str,
    third: &str,
) -> Result<(Shared<Ior>, (Shared<Ior>, Shared<Ior>)), Memory> {
    let first = shared(alloc, reference(alloc, first))?;
    let second = shared(alloc, reference(alloc, second))?;
    let third = shared(alloc, reference(alloc, third))?;
    Ok((first, (second, third)))
}

/// A reference with this id and no profiles.
pub(crate) fn reference(alloc: Global, id: &str) -> Result<Ior, Memory> {
    Ok(Ior {
        id: text(alloc, id, 0)?,
        profiles: List::new(alloc),
    })
}

/// Offers numbered from 1 on. Each line is `TYPE INCARNATION WORDS`, with the incarnation of the type.
fn made_offers(alloc: Global, lines: &str) -> Result<Offers, Memory> {
    let mut offers = Offers::new(alloc)?;
    match append_all(alloc, &mut offers, lines) {
        Ok(()) => Ok(offers),
        Err(_) => {
            drop(offers);
            Err(Memory)
        }
    }
}

fn append_all(alloc: Global, offers: &mut Offers, lines: &str) -> Result<(), StoreFault>
    requires { offers.old ≡ [] }
{
    let mut number = 0;
    for line in lines.lines() {
        if number >= 100 {
            return Err(StoreFault::Full);
        }
        number += 1;
        append_line(alloc, offers, number, line)?;
    }
    Ok(())
}

fn append_line(
    alloc: Global,
    offers: &mut Offers,
    number: u32,
    line: &str,
) -> Result<(), StoreFault>
    requires { AllByRecursion (λ o. o.number < number) offers.old }
    ensures { OnOk result (AllByRecursion (λ o. o.number < number + 1) offers.new) }
{
    let (service_type, rest) = cut(line);
    let (incarnation, words) = cut(rest);
    append(
        alloc,
        offers,
        number,
        service_type,
        number_of(incarnation),
        words,
    )
}

/// Adds an offer behind all others.
pub(crate) fn append(
    alloc: Global,
    offers: &mut Offers,
    number: u32,
    service_type: &str,
    incarnation: u64,
    words: &str,
) -> Result<(), StoreFault>
    requires above { AllByRecursion (λ o. o.number < number) offers.old }
    ensures below { OnOk result (AllByRecursion (λ o. o.number < number + 1) offers.new) }
    ensures among { OnOk result ((types : Row ℕ) → length (filter (is_among types) offers.new)
        ≡ length (filter (is_among types) offers.old) + count_among types incarnation) }
{
    let offer = offer(alloc, number, service_type, incarnation, words)?;
    offers.insert(offer)
}

/// What was made, in a block of its own.
pub(crate) fn shared<T: Drop>(alloc: Global, made: Result<T, Memory>) -> Result<Shared<T>, Memory> {
    Shared::new(alloc, made?)
}

/// An offer with these words: `proxy` makes it a proxy offer, and the others are its properties.
fn offer(
    alloc: Global,
    number: u32,
    service_type: &str,
    incarnation: u64,
    words: &str,
) -> Result<OfferRecord, Memory>
    ensures { IfOk result (λ o. (o.number ≡ number) × (o.incarnation ≡ incarnation)) }
{
    let reference = shared(alloc, reference(alloc, "IDL:Printer:1.0"))?;
    let service_type = shared(alloc, text(alloc, service_type, 0))?;
    let properties = shared(alloc, offer_properties(alloc, words))?;
    let proxy = proxy(alloc, words)?;
    Ok(OfferRecord {
        number,
        reference,
        service_type,
        incarnation,
        properties,
        proxy,
    })
}

/// A proxy's part, where a word says so.
fn proxy(alloc: Global, words: &str) -> Result<Option<Shared<ProxyPart>>, Memory> {
    if words.contains("proxy") {
        Ok(Some(shared(alloc, proxy_part(alloc))?))
    } else {
        Ok(None)
    }
}

fn proxy_part(alloc: Global) -> Result<ProxyPart, Memory> {
    Ok(ProxyPart {
        if_match_all: true,
        recipe: Text::from_slice(alloc, b"$*")?,
        policies: List::new(alloc),
    })
}

/// The properties of an offer's words, but for `proxy`; `-` is none.
pub(crate) fn offer_properties(alloc: Global, words: &str) -> Result<List<Property>, Memory> {
    let mut properties = List::new(alloc);
    for word in words.split(' ') {
        if word != "-" && word != "proxy" {
            properties.push(property(alloc, word)?)?;
        }
    }
    Ok(properties)
}

/// A ulong of 7.
const ULONG: &[u8] = b"\0\0\0\x05\0\0\0\x07";

/// A DynamicProp: the nil evaluator, a returned type of ulong, and no extra_info.
const DYNAMIC: &[u8] = b"\
    \0\0\0\x0f\0\0\0\x80\0\0\0\0\0\0\0.IDL:omg.org/CosTradingDynamic/DynamicProp:1.0\0\0\0\0\0\0\
    \x01\0\0\0\0\0\0\0\x03\0\0\0\x01\0\0\0\0\0\0\0\x0e\0\0\0\x11\0\0\0\0\0\0\0\x01\0\0\0\0\0\0\0\
    \x01\0\0\0\0\0\0\0\x01\0\0\0\0\0\0\0\x0c\0\0\0\x01\0\0\0\0\0\0\0\x0b\0\0\0\x01\0\0\0\0\0\0\0\
    \0\0\0\0\x05\0\0\0\0";

/// The same DynamicProp, its TypeCode behind an alias.
const ALIASED: &[u8] = b"\
    \0\0\0\x15\0\0\0\x9c\0\0\0\0\0\0\0\x01\0\0\0\0\0\0\0\x01\0\0\0\0\
    \0\0\0\x0f\0\0\0\x80\0\0\0\0\0\0\0.IDL:omg.org/CosTradingDynamic/DynamicProp:1.0\0\0\0\0\0\0\
    \x01\0\0\0\0\0\0\0\x03\0\0\0\x01\0\0\0\0\0\0\0\x0e\0\0\0\x11\0\0\0\0\0\0\0\x01\0\0\0\0\0\0\0\
    \x01\0\0\0\0\0\0\0\x01\0\0\0\0\0\0\0\x0c\0\0\0\x01\0\0\0\0\0\0\0\x0b\0\0\0\x01\0\0\0\0\0\0\0\
    \0\0\0\0\x05\0\0\0\0";

/// A ulong of this name, behind `dynamic-` a DynamicProp, behind `alias-` one with an alias.
fn property(alloc: Global, word: &str) -> Result<Property, Memory> {
    match word.split_once('-') {
        Some(("dynamic", name)) => property_of(alloc, name, DYNAMIC),
        Some((_, name)) => property_of(alloc, name, ALIASED),
        None => property_of(alloc, word, ULONG),
    }
}

/// A property whose any has these bytes.
fn property_of(alloc: Global, name: &str, bytes: &[u8]) -> Result<Property, Memory> {
    if bytes.len() > 1000 {
        return Err(Memory);
    }
    let name = text(alloc, name, 0)?;
    let mut reader = Reader::new(bytes, 0, Order::Big);
    match read_any(alloc, &mut reader) {
        Ok(value) => Ok(Property { name, value }),
        Err(_) => Err(Memory),
    }
}
