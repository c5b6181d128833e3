//! The types of values: single ones, and sequences of them.

ghost use Rattle.std.specs.Prelude.{◌≡◌, IfOk};
ghost use Rattle.td_typecode.specs.declared.code.TypeCode.TheVariants as code;
ghost use Rattle.td_forms.specs.Items.{item_code};
ghost use Rattle.td_forms.specs.Types.{code_of, plain_named, sequence_named, value_type_of};

use crate::item::{ItemType, item_code, item_named};
use std::alloc::Global;
use td_cdr::{Boxed, Memory};
use td_value::TypeCode;

/// The type of a value.
#[derive(Clone, Copy, Debug, PartialEq, Eq)]
pub enum ValueType {
    /// A single value.
    Plain(ItemType),
    /// A sequence without bound.
    Sequence(ItemType),
}

fn plain_named(word: &[u8]) -> Option<ValueType>
    ensures { result ≡ plain_named word.now }
{
    match item_named(word) {
        Some(item) => Some(ValueType::Plain(item)),
        None => None,
    }
}

fn sequence_named(word: &[u8]) -> Option<ValueType>
    ensures { result ≡ sequence_named word.now }
{
    match item_named(word) {
        Some(item) => Some(ValueType::Sequence(item)),
        None => None,
    }
}

/// The type that a word stands for: `short` and so on, or `seq:` in front of such a word.
pub fn value_type_of(word: &[u8]) -> Option<ValueType>
    ensures { result ≡ value_type_of word.now }
{
    if let Some(item) = word.strip_prefix(b"seq:".as_slice()) {
        return sequence_named(item);
    }
    plain_named(word)
}

fn sequence_code(alloc: Global, item: ItemType) -> Result<TypeCode, Memory>
    ensures { IfOk result (λ c. c ≡ code.Sequence (item_code item) 0) }
{
    let item = Boxed::new(alloc, item_code(item))?;
    Ok(TypeCode::Sequence { item, bound: 0 })
}

/// The TypeCode of a type.
///
/// # Errors
///
/// `Memory` only when out of memory.
pub fn code_of(alloc: Global, value_type: ValueType) -> Result<TypeCode, Memory>
    ensures { IfOk result (λ c. c ≡ code_of value_type) }
{
    match value_type {
        ValueType::Plain(item) => Ok(item_code(item)),
        ValueType::Sequence(item) => sequence_code(alloc, item),
    }
}
