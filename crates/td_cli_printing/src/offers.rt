//! Offers and their properties.

ghost use Rattle.std.specs.Prelude.{◌≡◌, ◌++◌, OnOk};
ghost use Rattle.td_ior.specs.Texts.{printed_ior};
ghost use Rattle.td_cli_printing.specs.Offers.{any_text, described_lines, offer_lines, offers_lines, property_line};
ghost use Rattle.td_cli_printing.specs.Offers.{property_lines, typed_text};

use crate::types::{put_type, type_of};
use crate::values::put_value;
use std::alloc::Global;
use td_cdr::Memory;
use td_forms::{ValueType, put};
use td_ior::print_text;
use td_value::{Any, Ior, Offer, Property, Value};

/// Puts a space, the word for a value's type, and the value behind these bytes.
fn put_typed(out: &mut Vec<u8>, value_type: ValueType, value: &Value) -> Result<(), Memory>
    ensures { OnOk result (out.new.items ≡ out.old.items ++ typed_text value_type value.now) }
{
    put(out, b" ")?;
    put_type(out, value_type)?;
    put(out, b" ")?;
    put_value(out, value)
}

/// Puts a value with its type behind these bytes, or `other` where there is no word for the type; a space before it.
fn put_any(out: &mut Vec<u8>, any: &Any) -> Result<(), Memory>
    ensures { OnOk result (out.new.items ≡ out.old.items ++ any_text any.now) }
{
    match type_of(&any.code) {
        Some(value_type) => put_typed(out, value_type, &any.value),
        None => put(out, b" other"),
    }
}

/// Puts a property's line behind these bytes.
fn put_property(out: &mut Vec<u8>, property: &Property) -> Result<(), Memory>
    ensures { OnOk result (out.new.items ≡ out.old.items ++ property_line property.now) }
{
    put(out, b"  ")?;
    put(out, property.name.as_slice())?;
    put_any(out, &property.value)?;
    put(out, b"\n")
}

/// Puts the lines of properties behind these bytes.
fn put_properties(out: &mut Vec<u8>, properties: &[Property]) -> Result<(), Memory>
    ensures { OnOk result (out.new.items ≡ out.old.items ++ property_lines properties.now) }
{
    for property in properties {
        put_property(out, property)?;
    }
    Ok(())
}

/// Puts the text of a reference behind these bytes.
fn put_reference(alloc: Global, out: &mut Vec<u8>, reference: &Ior) -> Result<(), Memory>
    ensures { OnOk result (out.new.items ≡ out.old.items ++ printed_ior reference.now) }
{
    let text = print_text(alloc, reference)?;
    put(out, text.as_slice())
}

/// Puts the lines of a reference with properties behind these bytes.
pub(crate) fn put_described(
    alloc: Global,
    out: &mut Vec<u8>,
    reference: &Ior,
    properties: &[Property],
) -> Result<(), Memory>
    ensures { OnOk result (out.new.items
        ≡ out.old.items ++ described_lines reference.now properties.now) }
{
    put(out, b"offer ")?;
    put_reference(alloc, out, reference)?;
    put(out, b"\n")?;
    put_properties(out, properties)
}

/// Puts an offer's lines behind these bytes.
fn put_offer(alloc: Global, out: &mut Vec<u8>, offer: &Offer) -> Result<(), Memory>
    ensures { OnOk result (out.new.items ≡ out.old.items ++ offer_lines offer.now) }
{
    put_described(alloc, out, &offer.reference, offer.properties.as_slice())
}

/// Puts the lines of offers behind these bytes.
pub(crate) fn put_offers(alloc: Global, out: &mut Vec<u8>, offers: &[Offer]) -> Result<(), Memory>
    ensures { OnOk result (out.new.items ≡ out.old.items ++ offers_lines offers.now) }
{
    for offer in offers {
        put_offer(alloc, out, offer)?;
    }
    Ok(())
}
