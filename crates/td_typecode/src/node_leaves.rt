//! Values under nodes of the kinds that hold no other TypeCode, from bytes and to bytes.

ghost use Rattle.std.specs.Prelude.{◌≡◌};
ghost use Rattle.td_cdr.specs.Format.{Gives, Puts};
ghost use Rattle.td_cdr.specs.ValueFaults.{is_memory};
ghost use Rattle.td_typecode.specs.NodeValues.{leaf_values};

use crate::code::Value;
use crate::kinds::CodeKind;
use crate::label::label_of;
use crate::labels::one_of;
use crate::nodes::{bound_of, value_count};
use crate::plain::{
    boolean_at, char_at, long_at, longlong_at, octet_at, short_at, ulong_at, ulonglong_at,
    ushort_at,
};
use crate::values::{reference_at, string_at};
use crate::writing::write_label;
use crate::writing_values::{put_reference_in, put_text_in};
use std::alloc::Global;
use tc_graph::Node;
use td_cdr::{Memory, Reader, ValueFault, Writer};

/// A value under a node that has this kind.
///
/// # Errors
///
/// The first fault in reading order, or `Memory` when out of memory; `BadValue` for a kind that holds
/// others. It isn't said where the reader then stands.
pub(crate) fn leaf_at(
    alloc: Global,
    r: &mut Reader,
    node: &Node,
    kind: CodeKind,
) -> Result<Value, ValueFault>
    ensures { Gives is_memory r.new result ((leaf_values node.now kind).format.reads r.old) }
{
    match kind {
        CodeKind::Null => Ok(Value::Empty),
        CodeKind::Void => Ok(Value::Empty),
        CodeKind::Short => short_at(r),
        CodeKind::Long => long_at(r),
        CodeKind::UShort => ushort_at(r),
        CodeKind::ULong => ulong_at(r),
        CodeKind::Boolean => boolean_at(r),
        CodeKind::Char => char_at(r),
        CodeKind::Octet => octet_at(r),
        CodeKind::LongLong => longlong_at(r),
        CodeKind::ULongLong => ulonglong_at(r),
        CodeKind::Str => string_at(alloc, r, bound_of(node)),
        CodeKind::ObjRef => reference_at(alloc, r),
        CodeKind::Enum => one_of(r, value_count(node)),
        CodeKind::Except => Err(ValueFault::Unsupported(kind.number())),
        CodeKind::AnyCode
        | CodeKind::Code
        | CodeKind::Struct
        | CodeKind::Union
        | CodeKind::Sequence
        | CodeKind::Array
        | CodeKind::Alias => Err(ValueFault::BadValue(r.aligned())),
    }
}

/// Appends a value under a node that has this kind.
///
/// # Errors
///
/// `Memory` when out of memory or of room; what was written then stands behind the rest.
pub(crate) fn put_leaf(
    alloc: Global,
    w: &mut Writer,
    _node: &Node,
    kind: CodeKind,
    value: &Value,
) -> Result<(), Memory>
    ensures { Puts ((leaf_values _node.now kind).format.writes value.now) w.old w.new result }
{
    match kind {
        CodeKind::Short
        | CodeKind::Long
        | CodeKind::UShort
        | CodeKind::ULong
        | CodeKind::Boolean
        | CodeKind::Char
        | CodeKind::Octet
        | CodeKind::LongLong
        | CodeKind::ULongLong
        | CodeKind::Enum => write_label(w, label_of(value)),
        CodeKind::Str => put_text_in(w, value),
        CodeKind::ObjRef => put_reference_in(alloc, w, value),
        CodeKind::Null
        | CodeKind::Void
        | CodeKind::Except
        | CodeKind::AnyCode
        | CodeKind::Code
        | CodeKind::Struct
        | CodeKind::Union
        | CodeKind::Sequence
        | CodeKind::Array
        | CodeKind::Alias => Ok(()),
    }
}
