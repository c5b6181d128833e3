//! Whether a query searches an offer.

ghost use Rattle.std.specs.Prelude.{◌≡◌};
ghost use Rattle.std.specs.List.{list_all};
ghost use Rattle.td_store.specs.Candidates.{belongs, has_asked_type, has_conforming_type, is_asked, is_candidate};
ghost use Rattle.td_store.specs.Candidates.{has_dynamic, is_exact, is_fixed, mode_of, passes_dynamic};
ghost use Rattle.td_store.specs.Candidates.{is_used, passes_modifiable, passes_proxy, uses};

use crate::record::OfferRecord;
use td_cdr::Text;
use td_policy::{Attributes, Stated};
use td_types::{Types, is_readonly};
use td_value::{Property, PropertyMode, is_dynamic};

/// Whether the offer's type is there, with the incarnation that it had when the offer came. Takes no
/// memory.
pub fn belongs(types: &Types, offer: &OfferRecord) -> bool
    ensures { result ≡ belongs types.now.types offer.now }
{
    match types.incarnation_of(offer.service_type.as_slice()) {
        None => false,
        Some(incarnation) => incarnation == offer.incarnation,
    }
}

/// The mode that a type gives the property of a name, normal where it doesn't name it. Takes no memory.
pub fn mode_of(types: &Types, type_name: &[u8], name: &[u8]) -> PropertyMode
    ensures { result ≡ mode_of types.now.types type_name.now name.now }
{
    match types.full_property(type_name, name) {
        None => PropertyMode::Normal,
        Some(property) => property.mode,
    }
}

/// Whether the offer belongs to a type, and this conforms to the asked one.
pub(crate) fn has_conforming_type(types: &Types, asked: &Text, offer: &OfferRecord) -> bool
    ensures { result ≡ has_conforming_type types.now.types asked.now offer.now }
{
    belongs(types, offer) && types.conforms(&offer.service_type, asked)
}

/// Whether a query for a type searches an offer.
pub(crate) fn is_candidate(
    types: &Types,
    attributes: &Attributes,
    stated: &Stated,
    asked: &Text,
    offer: &OfferRecord,
) -> bool
    ensures { result ≡ is_candidate types.now.types attributes.now stated.now asked.now offer.now }
{
    has_asked_type(types, stated, asked, offer) && is_used(types, attributes, stated, offer)
}

/// Whether the policies on what is used leave an offer in.
fn is_used(types: &Types, attributes: &Attributes, stated: &Stated, offer: &OfferRecord) -> bool
    ensures { result ≡ is_used types.now.types attributes.now stated.now offer.now }
{
    passes_proxy(attributes, stated, offer)
        && passes_dynamic(attributes, stated, offer)
        && passes_modifiable(types, attributes, stated, offer)
}

fn has_asked_type(types: &Types, stated: &Stated, asked: &Text, offer: &OfferRecord) -> bool
    ensures { result ≡ has_asked_type types.now.types stated.now asked.now offer.now }
{
    belongs(types, offer) && is_asked(types, is_exact(stated), asked, &offer.service_type)
}

/// Whether the type of a name conforms to the asked one, or is it.
fn is_asked(types: &Types, exact: bool, asked: &Text, name: &Text) -> bool
    ensures { result ≡ is_asked types.now.types exact asked.now name.now }
{
    if exact {
        name.as_slice() == asked.as_slice()
    } else {
        types.conforms(name, asked)
    }
}

/// Whether subtypes are left out.
pub(crate) fn is_exact(stated: &Stated) -> bool
    ensures { result ≡ is_exact stated.now }
{
    stated.exact.unwrap_or(false)
}

/// What a policy says on the use of something.
fn uses(stated: Option<bool>) -> bool
    ensures { result ≡ uses stated }
{
    stated.unwrap_or(true)
}

fn passes_proxy(attributes: &Attributes, stated: &Stated, offer: &OfferRecord) -> bool
    ensures { result ≡ passes_proxy attributes.now stated.now offer.now }
{
    offer.proxy.is_none() || (uses(stated.use_proxy) && attributes.supports_proxy_offers)
}

fn passes_dynamic(attributes: &Attributes, stated: &Stated, offer: &OfferRecord) -> bool
    ensures { result ≡ passes_dynamic attributes.now stated.now offer.now }
{
    (uses(stated.use_dynamic) && attributes.supports_dynamic_properties)
        || !has_dynamic(offer.properties.as_slice())
}

/// Whether one of the properties is evaluated when it is asked for.
fn has_dynamic(properties: &[Property]) -> bool
    ensures { result ≡ has_dynamic properties.now }
{
    properties
        .iter()
        .any(|property| is_dynamic(&property.value.code))
}

fn passes_modifiable(
    types: &Types,
    attributes: &Attributes,
    stated: &Stated,
    offer: &OfferRecord,
) -> bool
    ensures { result ≡ passes_modifiable types.now.types attributes.now stated.now offer.now }
{
    uses(stated.use_modifiable)
        || !attributes.supports_modifiable_properties
        || are_fixed(
            types,
            offer.service_type.as_slice(),
            offer.properties.as_slice(),
        )
}

/// Whether all of these are readonly.
fn are_fixed(types: &Types, type_name: &[u8], properties: &[Property]) -> bool
    ensures { result ≡ list_all (is_fixed types.now.types type_name.now) properties.now }
{
    properties
        .iter()
        .all(|property| is_fixed(types, type_name, property))
}

fn is_fixed(types: &Types, type_name: &[u8], property: &Property) -> bool
    ensures { result ≡ is_fixed types.now.types type_name.now property.now }
{
    is_readonly(mode_of(types, type_name, property.name.as_slice()))
}
