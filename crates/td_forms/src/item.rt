//! The types of single values.

ghost use Rattle.std.specs.Prelude.{◌≡◌, codes};
ghost use Rattle.td_cdr.specs.Format.{value_named};
ghost use Rattle.td_forms.specs.Items.{item_code, item_name, items};

use td_cdr::{Named, find_named};
use td_value::TypeCode;

/// The type of a single value: a whole number, a byte, a truth value or a string.
#[derive(Clone, Copy, Debug, PartialEq, Eq)]
pub enum ItemType {
    Short,
    Long,
    UShort,
    ULong,
    LongLong,
    ULongLong,
    Octet,
    Char,
    Boolean,
    Str,
}

/// The word for a type of single values.
fn item_name(item: ItemType) -> &'static str
    ensures { result.now ≡ item_name item }
{
    match item {
        ItemType::Short => "short",
        ItemType::Long => "long",
        ItemType::UShort => "ushort",
        ItemType::ULong => "ulong",
        ItemType::LongLong => "longlong",
        ItemType::ULongLong => "ulonglong",
        ItemType::Octet => "octet",
        ItemType::Char => "char",
        ItemType::Boolean => "boolean",
        ItemType::Str => "string",
    }
}

impl Named for ItemType {
    ghost name_of = { item_name };

    fn name(self) -> &'static [u8] {
        item_name(self).as_bytes()
    }
}

/// The type of single values that has this word.
pub(crate) fn item_named(word: &[u8]) -> Option<ItemType>
    ensures { result ≡ value_named item_name items word.now }
{
    find_named(
        &[
            ItemType::Short,
            ItemType::Long,
            ItemType::UShort,
            ItemType::ULong,
            ItemType::LongLong,
            ItemType::ULongLong,
            ItemType::Octet,
            ItemType::Char,
            ItemType::Boolean,
            ItemType::Str,
        ],
        word,
    )
}

/// The TypeCode of a type of single values; of a string it has no bound.
pub(crate) fn item_code(item: ItemType) -> TypeCode
    ensures { result ≡ item_code item }
{
    match item {
        ItemType::Short => TypeCode::Short,
        ItemType::Long => TypeCode::Long,
        ItemType::UShort => TypeCode::UShort,
        ItemType::ULong => TypeCode::ULong,
        ItemType::LongLong => TypeCode::LongLong,
        ItemType::ULongLong => TypeCode::ULongLong,
        ItemType::Octet => TypeCode::Octet,
        ItemType::Char => TypeCode::Char,
        ItemType::Boolean => TypeCode::Boolean,
        ItemType::Str => TypeCode::Str { bound: 0 },
    }
}
