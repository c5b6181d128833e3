//! Anys that hold a property which is evaluated when it is asked for.

ghost use Rattle.std.specs.Prelude.{◌≡◌, map, nat_eq};
ghost use Rattle.std.specs.Cmp.Lexicographic.{pointwise};
ghost use Rattle.td_typecode.specs.declared.kinds.CodeKind.TheVariants as kind;
ghost use Rattle.td_typecode.specs.Kinds.{number_of};
ghost use Rattle.td_typecode.specs.Same.{shape, row, member_entry};
ghost use Rattle.td_value.specs.Dynamic.{dynamic_shape, has_kinds, dynamic_id, dynamic_kinds};

use td_typecode::{Member, TypeCode, bare};

/// The repository id of a DynamicProp.
const DYNAMIC_ID: &[u8] = b"IDL:omg.org/CosTradingDynamic/DynamicProp:1.0";

/// Whether an any of this TypeCode holds a DynamicProp: without aliases it is a structure of that id
/// with an object reference, a TypeCode and an any. Takes no memory.
pub fn is_dynamic(code: &TypeCode) -> bool
    ensures { result ≡ dynamic_shape (shape code.now) }
{
    match bare(code) {
        TypeCode::Struct { id, members, .. } => {
            is_dynamic_id(id.as_slice()) && has_dynamic_members(members.as_slice())
        }
        _ => false,
    }
}

fn is_dynamic_id(id: &[u8]) -> bool
    ensures { result ≡ pointwise nat_eq id.now dynamic_id }
{
    id == DYNAMIC_ID
}

fn has_dynamic_members(members: &[Member]) -> bool
    ensures { result ≡ has_kinds dynamic_kinds (row (map member_entry members.now)) }
{
    match members {
        [first, second, third] => {
            is_object(&first.code) && is_code(&second.code) && is_any(&third.code)
        }
        _ => false,
    }
}

fn is_object(code: &TypeCode) -> bool
    ensures { result ≡ nat_eq (shape code.now).kind (number_of kind.ObjRef) }
{
    matches!(bare(code), TypeCode::ObjRef { .. })
}

fn is_code(code: &TypeCode) -> bool
    ensures { result ≡ nat_eq (shape code.now).kind (number_of kind.Code) }
{
    matches!(bare(code), TypeCode::Code)
}

fn is_any(code: &TypeCode) -> bool
    ensures { result ≡ nat_eq (shape code.now).kind (number_of kind.AnyCode) }
{
    matches!(bare(code), TypeCode::AnyCode)
}
