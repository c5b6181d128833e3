//! Values, as people write them.

ghost use Rattle.std.specs.Prelude.{◌≡◌, ◌++◌, OnOk, option_map};
ghost use Rattle.td_cli_printing.specs.Values.{item_text, items_of, items_text, truth_text, value_text, with_comma};
ghost use Rattle.td_cli_printing.specs.Values.{with_commas};

use crate::putting::{put_long, put_long_long, put_short};
use std::slice;
use td_cdr::Memory;
use td_forms::{put, put_decimal};
use td_value::Value;

/// The word for a truth value.
fn truth_text(truth: bool) -> &'static [u8]
    ensures { result.now ≡ truth_text truth }
{
    if truth {
        b"TRUE".as_slice()
    } else {
        b"FALSE".as_slice()
    }
}

/// Puts the text of a single value behind these bytes; another value has none.
fn put_item(out: &mut Vec<u8>, value: &Value) -> Result<(), Memory>
    ensures { OnOk result (out.new.items ≡ out.old.items ++ item_text value.now) }
{
    match value {
        Value::Short(number) => put_short(out, number),
        Value::Long(number) => put_long(out, number),
        Value::UShort(number) => put_decimal(out, u64::from(*number)),
        Value::ULong(number) => put_decimal(out, u64::from(*number)),
        Value::LongLong(number) => put_long_long(out, number),
        Value::ULongLong(number) => put_decimal(out, *number),
        Value::Octet(number) => put_decimal(out, u64::from(*number)),
        Value::Char(byte) => put(out, slice::from_ref(byte)),
        Value::Boolean(truth) => put(out, truth_text(*truth)),
        Value::Str(text) => put(out, text.as_slice()),
        _ => put(out, b""),
    }
}

/// Puts a comma and the text of a single value behind these bytes.
fn put_next(out: &mut Vec<u8>, value: &Value) -> Result<(), Memory>
    ensures { OnOk result (out.new.items ≡ out.old.items ++ with_comma value.now) }
{
    put(out, b",")?;
    put_item(out, value)
}

/// Puts the texts of values behind these bytes, a comma before each.
fn put_more(out: &mut Vec<u8>, values: &[Value]) -> Result<(), Memory>
    ensures { OnOk result (out.new.items ≡ out.old.items ++ with_commas values.now) }
{
    for value in values {
        put_next(out, value)?;
    }
    Ok(())
}

/// Puts the texts of values behind these bytes, with commas between them.
fn put_items(out: &mut Vec<u8>, values: &[Value]) -> Result<(), Memory>
    ensures { OnOk result (out.new.items ≡ out.old.items ++ items_text values.now) }
{
    match values {
        [] => put(out, b""),
        [first, rest @ ..] => {
            put_item(out, first)?;
            put_more(out, rest)
        }
    }
}

/// The items of a sequence.
fn items_of(value: &Value) -> Option<&[Value]>
    ensures { option_map (λ items. items.now) result ≡ items_of value.now }
{
    match value {
        Value::Items(items) => Some(items.as_slice()),
        _ => None,
    }
}

/// Puts the text of a value behind these bytes.
pub(crate) fn put_value(out: &mut Vec<u8>, value: &Value) -> Result<(), Memory>
    ensures { OnOk result (out.new.items ≡ out.old.items ++ value_text value.now) }
{
    match items_of(value) {
        Some(items) => put_items(out, items),
        None => put_item(out, value),
    }
}
