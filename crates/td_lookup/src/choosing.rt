//! The properties of offers that a query asks for (OMG's Trading Object Service, interface Lookup, query,
//! desired_props).

ghost use Rattle.std.specs.Prelude.{◌≡◌, [], map, IfOk, OnOk};
ghost use Rattle.std.specs.Option.{option_copied};
ghost use Rattle.td_lookup.specs.Choosing.{chosen, named_in, property_named};
ghost use Rattle.td_value.specs.declared.unions.SpecifiedProps.TheVariants as props;

use std::alloc::Global;
use td_cdr::{List, Memory, Shared, Text, Twin};
use td_value::{Offer, Property, SpecifiedProps};
use td_walk::SubAnswer;

fn property_named<'a>(name: &[u8], properties: &'a [Property]) -> Option<&'a Property>
    ensures { option_copied result ≡ property_named name.now properties.now }
{
    properties.iter().find(|p| p.name.as_slice() == name)
}

/// Copies of the properties that have these names, in the names' order.
fn named_in(
    alloc: Global,
    names: &[Text],
    properties: &[Property],
) -> Result<List<Property>, Memory>
    ensures { IfOk result (λ ps. ps ≡ named_in names.now properties.now) }
{
    let mut named = List::new(alloc);
    for name in names {
        match property_named(name.as_slice(), properties) {
            None => {}
            Some(property) => named.push(property.copy(alloc)?)?,
        }
    }
    Ok(named)
}

/// Leaves an offer those of its properties that have these names.
fn choose_named(alloc: Global, names: &[Text], offer: &mut Offer) -> Result<(), Memory>
    ensures { OnOk result (offer.new ≡ chosen (props.Some names.now) offer.old) }
{
    let named = named_in(alloc, names, offer.properties.as_slice())?;
    offer.properties = Shared::new(alloc, named)?;
    Ok(())
}

/// The same offers, each with those of its properties that have these names.
fn choose_named_of_each(
    alloc: Global,
    names: &[Text],
    offers: List<Offer>,
) -> Result<List<Offer>, Memory>
    ensures { IfOk result (λ os. os ≡ map (chosen (props.Some names.now)) offers) }
{
    let mut left = offers.into_vec();
    for offer in left.iter_mut() {
        choose_named(alloc, names, offer)?;
    }
    Ok(List::from_vec(left))
}

/// Leaves an offer without properties, as one owner more of this list.
fn choose_none(
    alloc: Global,
    none: &Shared<List<Property>>,
    offer: &mut Offer,
) -> Result<(), Memory>
    requires { none.now ≡ [] }
    ensures { OnOk result (offer.new ≡ chosen props.None offer.old) }
{
    offer.properties = none.copy(alloc)?;
    Ok(())
}

/// The same offers without properties. They share one empty list.
fn choose_none_of_each(alloc: Global, offers: List<Offer>) -> Result<List<Offer>, Memory>
    ensures { IfOk result (λ os. os ≡ map (chosen props.None) offers) }
{
    let none = Shared::new(alloc, List::new(alloc))?;
    let mut left = offers.into_vec();
    for offer in left.iter_mut() {
        choose_none(alloc, &none, offer)?;
    }
    Ok(List::from_vec(left))
}

/// The same offers, each with the desired ones of its properties.
///
/// # Errors
///
/// `Memory` only when out of memory.
#[tactic(auto, using(crate::proofs::Chosen::all_chosen))]
pub fn choose_each(
    alloc: Global,
    desired: &SpecifiedProps,
    offers: List<Offer>,
) -> Result<List<Offer>, Memory>
    ensures { IfOk result (λ os. os ≡ map (chosen desired.now) offers) }
{
    match desired {
        SpecifiedProps::None => choose_none_of_each(alloc, offers),
        SpecifiedProps::Some(names) => choose_named_of_each(alloc, names.as_slice(), offers),
        SpecifiedProps::All => Ok(offers),
    }
}

/// The same answer, each of its offers with the desired ones of its properties.
///
/// # Errors
///
/// `Memory` only when out of memory.
pub(crate) fn choose_in(
    alloc: Global,
    desired: &SpecifiedProps,
    answer: SubAnswer,
) -> Result<SubAnswer, Memory>
    ensures offers { IfOk result (λ a. a.offers ≡ map (chosen desired.now) answer.offers) }
    ensures limits { IfOk result (λ a. a.limits ≡ answer.limits) }
{
    let SubAnswer { offers, limits } = answer;
    match choose_each(alloc, desired, offers) {
        Ok(offers) => Ok(SubAnswer { offers, limits }),
        Err(memory) => {
            drop(limits);
            Err(memory)
        }
    }
}
