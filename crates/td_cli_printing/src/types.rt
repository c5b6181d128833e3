//! The types of values that can be printed, and the words for them.

ghost use Rattle.std.specs.Prelude.{◌≡◌, ◌++◌, OnOk};
ghost use Rattle.td_cli_printing.specs.Types.{item_of, sequence_of, type_of, type_word, if_unbounded};

use td_cdr::{Memory, Named};
use td_forms::{ItemType, ValueType, put};
use td_value::TypeCode;

/// This type, where the bound is 0, which is none.
fn if_unbounded(bound: u32, item: ItemType) -> Option<ItemType>
    ensures { result ≡ if_unbounded bound (Some item) }
{
    if bound == 0 { Some(item) } else { None }
}

/// The type of single values that a TypeCode is.
fn item_of(code: &TypeCode) -> Option<ItemType>
    ensures { result ≡ item_of code.now }
{
    match code {
        TypeCode::Short => Some(ItemType::Short),
        TypeCode::Long => Some(ItemType::Long),
        TypeCode::UShort => Some(ItemType::UShort),
        TypeCode::ULong => Some(ItemType::ULong),
        TypeCode::LongLong => Some(ItemType::LongLong),
        TypeCode::ULongLong => Some(ItemType::ULongLong),
        TypeCode::Octet => Some(ItemType::Octet),
        TypeCode::Char => Some(ItemType::Char),
        TypeCode::Boolean => Some(ItemType::Boolean),
        TypeCode::Str { bound } => if_unbounded(*bound, ItemType::Str),
        _ => None,
    }
}

/// The type of the items, where the TypeCode is a sequence of single values without bound.
fn sequence_of(code: &TypeCode) -> Option<ItemType>
    ensures { result ≡ sequence_of code.now }
{
    match code {
        TypeCode::Sequence { item, bound } => {
            if *bound == 0 {
                item_of(item.get())
            } else {
                None
            }
        }
        _ => None,
    }
}

/// The type that a TypeCode is, where there is a word for it.
pub(crate) fn type_of(code: &TypeCode) -> Option<ValueType>
    ensures { result ≡ type_of code.now }
{
    match item_of(code) {
        Some(item) => Some(ValueType::Plain(item)),
        None => match sequence_of(code) {
            Some(item) => Some(ValueType::Sequence(item)),
            None => None,
        },
    }
}

/// Puts the word for a type behind these bytes.
pub(crate) fn put_type(out: &mut Vec<u8>, value_type: ValueType) -> Result<(), Memory>
    ensures { OnOk result (out.new.items ≡ out.old.items ++ type_word value_type) }
{
    match value_type {
        ValueType::Plain(item) => put(out, item.name()),
        ValueType::Sequence(item) => {
            put(out, b"seq:")?;
            put(out, item.name())
        }
    }
}
