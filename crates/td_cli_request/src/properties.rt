//! Properties with their values: `NAME=VALUETYPE:VALUE`.

ghost use Rattle.std.specs.Prelude.{◌≡◌, [], map, IfOk};
ghost use Rattle.td_cli_request.specs.Forms.{ParsesTo, UpdatesTo};
ghost use Rattle.td_cli_request.specs.Properties.{property_in, property_with, properties_behind, typed_property};
ghost use Rattle.td_cli_request.specs.Properties.{value_in};
ghost use Rattle.td_cli_request.specs.Properties.{with_property};

use crate::cutting::{cut_first, cut_type};
use crate::fault::AskFault;
use std::alloc::Global;
use td_cdr::{List, Memory, Text};
use td_forms::{ValueType, code_of, value_of, value_type_of};
use td_value::{Any, Property, Value};

/// The value that a text spells.
fn parse_value(alloc: Global, value_type: ValueType, text: &[u8]) -> Result<Value, AskFault>
    ensures { ParsesTo (value_in value_type text.now) result }
{
    match value_of(alloc, value_type, text) {
        Ok(Some(value)) => Ok(value),
        Ok(None) => Err(AskFault::Form),
        Err(_) => Err(AskFault::Memory),
    }
}

/// A property of this name, type and value.
fn property_with(
    alloc: Global,
    name: &[u8],
    value_type: ValueType,
    value: Value,
) -> Result<Property, Memory>
    ensures { IfOk result (λ p. p ≡ property_with name.now value_type value) }
{
    let name = Text::from_slice(alloc, name)?;
    let code = code_of(alloc, value_type)?;
    let value = Any { code, value };
    Ok(Property { name, value })
}

/// The property of this name and type with the value that a text spells.
fn typed_property(
    alloc: Global,
    name: &[u8],
    value_type: ValueType,
    text: &[u8],
) -> Result<Property, AskFault>
    ensures { ParsesTo (typed_property name.now value_type text.now) result }
{
    let value = parse_value(alloc, value_type, text)?;
    let property = property_with(alloc, name, value_type, value)?;
    Ok(property)
}

/// The property that a word spells.
fn parse_property(alloc: Global, word: &str) -> Result<Property, AskFault>
    ensures { ParsesTo (property_in word.now) result }
{
    let Some((name, typed)) = cut_first(word.as_bytes(), b'=') else {
        return Err(AskFault::Form);
    };
    let Some((type_word, text)) = cut_type(typed) else {
        return Err(AskFault::Form);
    };
    let Some(value_type) = value_type_of(type_word) else {
        return Err(AskFault::Form);
    };
    typed_property(alloc, name, value_type, text)
}

/// Adds the property that a word spells.
fn take_property(alloc: Global, properties: &mut List<Property>, word: &str) -> Result<(), AskFault>
    ensures { UpdatesTo (with_property properties.old word.now) properties.new result }
{
    let property = parse_property(alloc, word)?;
    properties.push(property)?;
    Ok(())
}

/// The properties that words spell.
#[tactic(auto, using(crate::proofs::Refusing::refused))]
pub(crate) fn parse_properties(alloc: Global, words: &[&str]) -> Result<List<Property>, AskFault>
    ensures { ParsesTo (properties_behind [] (map (λ w. w.now) words.now)) result }
{
    let mut properties = List::new(alloc);
    for word in words {
        match take_property(alloc, &mut properties, word) {
            Ok(()) => {}
            Err(fault) => return Err(fault),
        }
    }
    Ok(properties)
}
