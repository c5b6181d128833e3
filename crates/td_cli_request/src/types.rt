//! The items of a service type: `super=NAME` and `prop=NAME:MODE:VALUETYPE`.

ghost use Rattle.std.specs.Prelude.{◌≡◌, map, IfOk};
ghost use Rattle.td_cli_request.specs.Forms.{ParsesTo, UpdatesTo};
ghost use Rattle.td_cli_request.specs.Types.{items_behind, nothing_yet, prop_in, prop_with, with_prop, with_super};
ghost use Rattle.td_cli_request.specs.Types.{with_word};

use crate::cutting::cut_first;
use crate::fault::AskFault;
use std::alloc::Global;
use td_cdr::{List, Memory, Text};
use td_forms::{ValueType, code_of, mode_named, value_type_of};
use td_value::{PropStruct, PropertyMode};

/// The items of a service type.
#[derive(Drop)]
pub(crate) struct TypeItems {
    pub(crate) supers: List<Text>,
    pub(crate) props: List<PropStruct>,
}

/// No items.
fn nothing_yet(alloc: Global) -> TypeItems
    ensures { result ≡ nothing_yet }
{
    TypeItems {
        supers: List::new(alloc),
        props: List::new(alloc),
    }
}

/// A property of this name, type and mode.
fn prop_with(
    alloc: Global,
    name: &[u8],
    mode: PropertyMode,
    value_type: ValueType,
) -> Result<PropStruct, Memory>
    ensures { IfOk result (λ p. p ≡ prop_with name.now mode value_type) }
{
    let name = Text::from_slice(alloc, name)?;
    let value_type = code_of(alloc, value_type)?;
    Ok(PropStruct {
        name,
        value_type,
        mode,
    })
}

/// The property that a text spells.
fn parse_prop(alloc: Global, text: &[u8]) -> Result<PropStruct, AskFault>
    ensures { ParsesTo (prop_in text.now) result }
{
    let Some((name, rest)) = cut_first(text, b':') else {
        return Err(AskFault::Form);
    };
    let Some((mode, type_word)) = cut_first(rest, b':') else {
        return Err(AskFault::Form);
    };
    let Some(mode) = mode_named(mode) else {
        return Err(AskFault::Form);
    };
    let Some(value_type) = value_type_of(type_word) else {
        return Err(AskFault::Form);
    };
    match prop_with(alloc, name, mode, value_type) {
        Ok(prop) => Ok(prop),
        Err(_) => Err(AskFault::Memory),
    }
}

/// Adds a supertype.
fn take_super(alloc: Global, items: &mut TypeItems, name: &[u8]) -> Result<(), AskFault>
    ensures { UpdatesTo (with_super items.old name.now) items.new result }
{
    let name = Text::from_slice(alloc, name)?;
    items.supers.push(name)?;
    Ok(())
}

/// Adds a property.
fn take_prop(alloc: Global, items: &mut TypeItems, text: &[u8]) -> Result<(), AskFault>
    ensures { UpdatesTo (with_prop items.old text.now) items.new result }
{
    let prop = parse_prop(alloc, text)?;
    items.props.push(prop)?;
    Ok(())
}

/// Adds the item that a word spells.
fn take_word(alloc: Global, items: &mut TypeItems, word: &str) -> Result<(), AskFault>
    ensures { UpdatesTo (with_word items.old word.now) items.new result }
{
    let text = word.as_bytes();
    if let Some(name) = text.strip_prefix(b"super=".as_slice()) {
        return take_super(alloc, items, name);
    }
    if let Some(prop) = text.strip_prefix(b"prop=".as_slice()) {
        return take_prop(alloc, items, prop);
    }
    Err(AskFault::Form)
}

/// The items that words spell.
#[tactic(auto, using(crate::proofs::Refusing::refused))]
pub(crate) fn parse_items(alloc: Global, words: &[&str]) -> Result<TypeItems, AskFault>
    ensures { ParsesTo (items_behind nothing_yet (map (λ w. w.now) words.now)) result }
{
    let mut items = nothing_yet(alloc);
    for word in words {
        match take_word(alloc, &mut items, word) {
            Ok(()) => {}
            Err(fault) => return Err(fault),
        }
    }
    Ok(items)
}
