//! Values, as people write them.

ghost use Rattle.std.specs.Prelude.{◌≡◌, IfOk};
ghost use Rattle.td_forms.specs.Values.{boolean_value, char_value, item_value, long_long_value, long_value};
ghost use Rattle.td_forms.specs.Values.{octet_value, short_value, string_value, u_long_long_value, u_long_value};
ghost use Rattle.td_forms.specs.Values.{sequence_value, u_short_value, value_of};

use crate::item::ItemType;
use crate::names::truth_named;
use crate::sequence::items_of;
use crate::signed::{long_long_of, long_of, short_of};
use crate::value_type::ValueType;
use std::alloc::Global;
use td_cdr::{Memory, Text, has_nul};
use td_ior::number_up_to;
use td_value::Value;

fn short_value(text: &[u8]) -> Option<Value>
    ensures { result ≡ short_value text.now }
{
    match short_of(text) {
        Some(n) => Some(Value::Short(n)),
        None => None,
    }
}

fn long_value(text: &[u8]) -> Option<Value>
    ensures { result ≡ long_value text.now }
{
    match long_of(text) {
        Some(n) => Some(Value::Long(n)),
        None => None,
    }
}

fn long_long_value(text: &[u8]) -> Option<Value>
    ensures { result ≡ long_long_value text.now }
{
    match long_long_of(text) {
        Some(n) => Some(Value::LongLong(n)),
        None => None,
    }
}

fn u_short_value(text: &[u8]) -> Option<Value>
    ensures { result ≡ u_short_value text.now }
{
    match number_up_to(text, 65535) {
        Some(n) => Some(Value::UShort(n as u16)),
        None => None,
    }
}

fn u_long_value(text: &[u8]) -> Option<Value>
    ensures { result ≡ u_long_value text.now }
{
    match number_up_to(text, 4294967295) {
        Some(n) => Some(Value::ULong(n as u32)),
        None => None,
    }
}

fn u_long_long_value(text: &[u8]) -> Option<Value>
    ensures { result ≡ u_long_long_value text.now }
{
    match number_up_to(text, 18446744073709551615) {
        Some(n) => Some(Value::ULongLong(n)),
        None => None,
    }
}

fn octet_value(text: &[u8]) -> Option<Value>
    ensures { result ≡ octet_value text.now }
{
    match number_up_to(text, 255) {
        Some(n) => Some(Value::Octet(n as u8)),
        None => None,
    }
}

fn char_value(text: &[u8]) -> Option<Value>
    ensures { result ≡ char_value text.now }
{
    match text {
        [byte] => Some(Value::Char(*byte)),
        _ => None,
    }
}

fn boolean_value(text: &[u8]) -> Option<Value>
    ensures { result ≡ boolean_value text.now }
{
    match truth_named(text) {
        Some(truth) => Some(Value::Boolean(truth)),
        None => None,
    }
}

fn string_value(alloc: Global, text: &[u8]) -> Result<Option<Value>, Memory>
    ensures { IfOk result (λ found. found ≡ string_value text.now) }
{
    if has_nul(text) {
        return Ok(None);
    }
    let text = Text::from_slice(alloc, text)?;
    Ok(Some(Value::Str(text)))
}

/// The single value that a text spells.
#[tactic(auto, unfolding(crate::specs::Values::item_value))]
pub(crate) fn item_value(
    alloc: Global,
    item: ItemType,
    text: &[u8],
) -> Result<Option<Value>, Memory>
    ensures { IfOk result (λ found. found ≡ item_value item text.now) }
{
    match item {
        ItemType::Short => Ok(short_value(text)),
        ItemType::Long => Ok(long_value(text)),
        ItemType::UShort => Ok(u_short_value(text)),
        ItemType::ULong => Ok(u_long_value(text)),
        ItemType::LongLong => Ok(long_long_value(text)),
        ItemType::ULongLong => Ok(u_long_long_value(text)),
        ItemType::Octet => Ok(octet_value(text)),
        ItemType::Char => Ok(char_value(text)),
        ItemType::Boolean => Ok(boolean_value(text)),
        ItemType::Str => string_value(alloc, text),
    }
}

fn sequence_value(alloc: Global, item: ItemType, text: &[u8]) -> Result<Option<Value>, Memory>
    ensures { IfOk result (λ found. found ≡ sequence_value item text.now) }
{
    match items_of(alloc, item, text)? {
        Some(items) => Ok(Some(Value::Items(items))),
        None => Ok(None),
    }
}

/// The value of a type that a text spells. A number is decimal without leading zeros, with `-` in front
/// of a negative one, and lies in the range of its type. A truth value is `TRUE` or `FALSE`, a char one
/// byte, and a string its bytes, of which none is a NUL. The items of a sequence stand between commas,
/// and an empty text has none.
///
/// # Errors
///
/// `Memory` only when out of memory.
pub fn value_of(alloc: Global, value_type: ValueType, text: &[u8]) -> Result<Option<Value>, Memory>
    ensures { IfOk result (λ found. found ≡ value_of value_type text.now) }
{
    match value_type {
        ValueType::Plain(item) => item_value(alloc, item, text),
        ValueType::Sequence(item) => sequence_value(alloc, item, text),
    }
}
