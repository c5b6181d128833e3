//! Properties of types and of offers.

ghost use Rattle.std.specs.Prelude.{◌≡◌, IfOk};
ghost use Rattle.td_lines.specs.Causes.{ParsesLine};
ghost use Rattle.td_lines.specs.Properties.{plain_any, parse_prop, prop_with, parse_property, parse_value};

use crate::cause::{LineCause, Misfit};
use std::alloc::Global;
use td_cdr::{Memory, Text};
use td_forms::{ValueType, code_of, mode_named, value_of, value_type_of};
use td_value::{Any, PropStruct, Property, PropertyMode, Value};

fn prop_with(
    alloc: Global,
    mode: PropertyMode,
    value_type: ValueType,
    name: &[u8],
) -> Result<PropStruct, Memory>
    ensures { IfOk result (λ p. p ≡ prop_with mode value_type name.now) }
{
    let name = Text::from_slice(alloc, name)?;
    let value_type = code_of(alloc, value_type)?;
    Ok(PropStruct {
        name,
        value_type,
        mode,
    })
}

/// The property of a type that a `prop` line declares.
pub(crate) fn parse_prop(
    alloc: Global,
    mode: &[u8],
    value_type: &[u8],
    name: &[u8],
) -> Result<PropStruct, Misfit>
    ensures { ParsesLine (parse_prop mode.now value_type.now name.now) result }
{
    let Some(mode) = mode_named(mode) else {
        return Err(Misfit::Is(LineCause::Name));
    };
    let Some(value_type) = value_type_of(value_type) else {
        return Err(Misfit::Is(LineCause::Name));
    };
    let prop = prop_with(alloc, mode, value_type, name)?;
    Ok(prop)
}

/// The value of a type that a text spells.
fn parse_value(alloc: Global, value_type: ValueType, text: &[u8]) -> Result<Value, Misfit>
    ensures { ParsesLine (parse_value value_type text.now) result }
{
    match value_of(alloc, value_type, text)? {
        Some(value) => Ok(value),
        None => Err(Misfit::Is(LineCause::Value)),
    }
}

/// A value with its type.
fn plain_any(alloc: Global, value_type: ValueType, value: Value) -> Result<Any, Memory>
    ensures { IfOk result (λ any. any ≡ plain_any value_type value) }
{
    match code_of(alloc, value_type) {
        Ok(code) => Ok(Any { code, value }),
        Err(memory) => {
            drop(value);
            Err(memory)
        }
    }
}

/// A property of this value.
pub(crate) fn property_named_as(alloc: Global, name: &[u8], value: Any) -> Result<Property, Memory>
    ensures { IfOk result (λ p. p ≡ record { name = name.now; value = value }) }
{
    match Text::from_slice(alloc, name) {
        Ok(name) => Ok(Property { name, value }),
        Err(memory) => {
            drop(value);
            Err(memory)
        }
    }
}

/// The property of an offer that a `with` line gives.
pub(crate) fn parse_property(
    alloc: Global,
    value_type: &[u8],
    name: &[u8],
    text: &[u8],
) -> Result<Property, Misfit>
    ensures { ParsesLine (parse_property value_type.now name.now text.now) result }
{
    let Some(value_type) = value_type_of(value_type) else {
        return Err(Misfit::Is(LineCause::Name));
    };
    let value = parse_value(alloc, value_type, text)?;
    let any = plain_any(alloc, value_type, value)?;
    let property = property_named_as(alloc, name, any)?;
    Ok(property)
}
