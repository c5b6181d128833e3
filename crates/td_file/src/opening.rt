//! The store of a new trader of the file.

ghost use Rattle.std.specs.Prelude.{◌≡◌, [], IfOk};
ghost use Rattle.td_file.specs.Openings.{new_store};
ghost use Rattle.td_objects.specs.References.{IsAddress, trader_references};
ghost use Rattle.td_policy.specs.Attributes.{default_attributes};
ghost use Rattle.td_trader.specs.OfferLimits.{HasLimitedOffers};

use std::alloc::Global;
use td_cdr::{List, Memory, Text};
use td_objects::trader_references;
use td_policy::{Attributes, default_attributes};
use td_store::{Links, Offers, Store};
use td_types::Types;
use td_walk::Address;

fn attributes(alloc: Global, home: &Address, name: &Text) -> Result<Attributes, Memory>
    requires { IsAddress home.now }
    ensures { IfOk result (λ a. a
        ≡ default_attributes name.now (trader_references home.now name.now)) }
{
    let own = trader_references(alloc, home, name)?;
    default_attributes(alloc, name, own)
}

fn links_and_attributes(
    alloc: Global,
    home: &Address,
    name: &Text,
) -> Result<(Links, Attributes), Memory>
    requires { IsAddress home.now }
    ensures links { IfOk result (λ p. p.0 ≡ []) }
    ensures attributes { IfOk result (λ p. p.1
        ≡ default_attributes name.now (trader_references home.now name.now)) }
{
    let links = Links::new(alloc);
    match attributes(alloc, home, name) {
        Ok(attributes) => Ok((links, attributes)),
        Err(memory) => {
            drop(links);
            Err(memory)
        }
    }
}

fn offers_and_others(
    alloc: Global,
    home: &Address,
    name: &Text,
) -> Result<(Offers, (Links, Attributes)), Memory>
    requires { IsAddress home.now }
    ensures offers { IfOk result (λ p. p.0 ≡ []) }
    ensures links { IfOk result (λ p. p.1.0 ≡ []) }
    ensures attributes { IfOk result (λ p. p.1.1
        ≡ default_attributes name.now (trader_references home.now name.now)) }
{
    let offers = Offers::new(alloc)?;
    match links_and_attributes(alloc, home, name) {
        Ok(others) => Ok((offers, others)),
        Err(memory) => {
            drop(offers);
            Err(memory)
        }
    }
}

/// The store of a new trader, with these interfaces.
#[tactic(auto, unfolding(crate::specs::Openings::new_store), using(td_trader::proofs::KeepingLimits::no_offers))]
pub(crate) fn new_store(
    alloc: Global,
    home: &Address,
    name: &Text,
    interfaces: List<(Text, List<Text>)>,
) -> Result<Store, Memory>
    requires { IsAddress home.now }
    ensures opens { IfOk result (λ s. s ≡ new_store home.now name.now interfaces) }
    ensures limited { IfOk result HasLimitedOffers }
{
    let types = Types::new(alloc, interfaces)?;
    match offers_and_others(alloc, home, name) {
        Ok((offers, (links, attributes))) => Ok(Store {
            types,
            offers,
            links,
            attributes,
            last_offer: 0,
        }),
        Err(memory) => {
            drop(types);
            Err(memory)
        }
    }
}
