//! The references that the server gives of its own objects.

ghost use Rattle.std.specs.Prelude.{◌≡◌, IfOk};
ghost use Rattle.td_cdr.specs.Names.{IsTraderName};
ghost use Rattle.td_iter.specs.Heads.{IsSmallReference};
ghost use Rattle.td_objects.specs.References.{IsAddress, iterator_reference, lookup_reference, offer_iterator};
ghost use Rattle.td_objects.specs.References.{own_reference, register_reference, trader_references};

use crate::interface::Interface;
use std::alloc::Global;
use td_cdr::{Memory, Named, Text, Twin, share_owned_two};
use td_ior::{Kind, ObjectKey, make_ior, write_key};
use td_policy::OwnReferences;
use td_value::Ior;
use td_walk::Address;

/// The reference to the object of a kind that the trader of a name has.
///
/// # Errors
///
/// `Memory` only when out of memory.
pub fn own_reference(
    alloc: Global,
    home: &Address,
    interface: Interface,
    name: &Text,
    kind: Kind,
) -> Result<Ior, Memory>
    requires { IsAddress home.now }
    ensures { IfOk result (λ r. r ≡ own_reference home.now interface name.now kind) }
{
    let trader = name.copy(alloc)?;
    let named = ObjectKey { trader, kind };
    let key = write_key(alloc, &named)?;
    make_ior(
        alloc,
        interface.name(),
        home.host.as_slice(),
        home.port,
        key.as_slice(),
        home.minor,
    )
}

/// The references to two objects of the trader of a name, each by its interface and its kind.
fn two_references(
    alloc: Global,
    home: &Address,
    name: &Text,
    first: (Interface, Kind),
    second: (Interface, Kind),
) -> Result<(Ior, Ior), Memory>
    requires { IsAddress home.now }
    ensures one { IfOk result (λ p. p.0 ≡ own_reference home.now first.0 name.now first.1) }
    ensures other { IfOk result (λ p. p.1 ≡ own_reference home.now second.0 name.now second.1) }
{
    let one = own_reference(alloc, home, first.0, name, first.1)?;
    match own_reference(alloc, home, second.0, name, second.1) {
        Ok(other) => Ok((one, other)),
        Err(memory) => {
            drop(one);
            Err(memory)
        }
    }
}

/// The references to the Lookup and the Register of the trader of a name.
///
/// # Errors
///
/// `Memory` only when out of memory.
pub fn lookup_and_register(alloc: Global, home: &Address, name: &Text) -> Result<(Ior, Ior), Memory>
    requires { IsAddress home.now }
    ensures lookup { IfOk result (λ p. p.0 ≡ lookup_reference home.now name.now) }
    ensures register { IfOk result (λ p. p.1 ≡ register_reference home.now name.now) }
{
    two_references(
        alloc,
        home,
        name,
        (Interface::Lookup, Kind::Lookup),
        (Interface::Register, Kind::Register),
    )
}

/// The references that the trader of a name gives of its own objects.
///
/// # Errors
///
/// `Memory` only when out of memory.
#[tactic(auto, unfolding(crate::specs::References::trader_references))]
pub fn trader_references(
    alloc: Global,
    home: &Address,
    name: &Text,
) -> Result<OwnReferences, Memory>
    requires { IsAddress home.now }
    ensures { IfOk result (λ own. own ≡ trader_references home.now name.now) }
{
    let link = (Interface::Link, Kind::Link);
    let proxy = (Interface::Proxy, Kind::Proxy);
    let admin = (Interface::Admin, Kind::Admin);
    let types = (Interface::ServiceTypeRepository, Kind::Types);
    let (lookup, register) = share_owned_two(alloc, lookup_and_register(alloc, home, name)?)?;
    let (link, proxy) = share_owned_two(alloc, two_references(alloc, home, name, link, proxy)?)?;
    let (admin, types) = share_owned_two(alloc, two_references(alloc, home, name, admin, types)?)?;
    Ok(OwnReferences {
        lookup,
        register,
        link,
        proxy,
        admin,
        types,
    })
}

/// The reference to an iterator over offers, by its number, that is kept for the trader of a name.
///
/// # Errors
///
/// `Memory` only when out of memory.
pub fn offer_iterator(
    alloc: Global,
    home: &Address,
    name: &Text,
    number: u64,
) -> Result<Ior, Memory>
    requires home { IsAddress home.now }
    requires name { IsTraderName name.now }
    ensures reference { IfOk result (λ r. r ≡ offer_iterator home.now name.now number) }
    ensures small { IfOk result IsSmallReference }
{
    own_reference(
        alloc,
        home,
        Interface::OfferIterator,
        name,
        Kind::Iterator(number),
    )
}

/// The same to one over the ids of offers.
///
/// # Errors
///
/// `Memory` only when out of memory.
pub fn iterator_reference(
    alloc: Global,
    home: &Address,
    name: &Text,
    number: u64,
) -> Result<Ior, Memory>
    requires home { IsAddress home.now }
    requires name { IsTraderName name.now }
    ensures reference { IfOk result (λ r. r ≡ iterator_reference home.now name.now number) }
    ensures small { IfOk result IsSmallReference }
{
    own_reference(
        alloc,
        home,
        Interface::OfferIdIterator,
        name,
        Kind::Iterator(number),
    )
}
