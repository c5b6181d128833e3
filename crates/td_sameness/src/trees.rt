//! Whether two TypeCodes are the same type, neither of which is a graph.

ghost use Rattle.std.specs.Prelude.{◌≡◌, ℤ, map, Bool, false, length, ◌&&◌};
ghost use Rattle.td_typecode.specs.declared.code.TypeCode.{out-TypeCode};
ghost use Rattle.td_typecode.specs.declared.kinds.CodeKind.TheVariants as kind;
ghost use Rattle.td_typecode.specs.Same.{like, alike, entry_like, shape, row, member_entry, arm_entry, ids_agree};
ghost use Rattle.td_typecode.specs.Same.{is_alias, str_shape, object_shape, fields_shape, enum_shape};
ghost use Rattle.td_typecode.specs.Same.{items_shape};

use crate::heads::ids_agree;
use td_cdr::{Boxed, Text};
use td_typecode::{Arm, INDIRECTION, Member, TypeCode, bare, kind_of, label_of, same_label};

/// Whether the TypeCodes are the same without their aliases, names not counted, and ids only where
/// neither is empty. A graph in them is the same as nothing.
#[cycle(same)]
pub(crate) fn same_trees(a: &TypeCode, b: &TypeCode) -> bool
    ensures { result ≡ like (shape a.now) (shape b.now) }
{
    let b = bare(b);
    match a {
        TypeCode::Alias { item, .. } => same_trees(item.get(), b),
        TypeCode::Str { bound } => same_str(*bound, b),
        TypeCode::ObjRef { id, .. } => same_object(id, b),
        TypeCode::Struct { id, members, .. } => same_struct(id, members.as_slice(), b),
        TypeCode::Except { id, members, .. } => same_except(id, members.as_slice(), b),
        TypeCode::Union {
            id,
            switch,
            default,
            arms,
            ..
        } => match b {
            TypeCode::Union {
                id: other_id,
                switch: other_switch,
                default: other_default,
                arms: other_arms,
                ..
            } => {
                *default == *other_default
                    && ids_agree(id.as_slice(), other_id.as_slice())
                    && same_trees(switch.get(), other_switch.get())
                    && same_arms(arms.as_slice(), other_arms.as_slice())
            }
            _ => false,
        },
        TypeCode::Enum { id, labels, .. } => same_enum(id, labels.len(), b),
        TypeCode::Sequence { item, bound } => same_sequence(item.get(), *bound, b),
        TypeCode::Array { item, len } => same_array(item.get(), *len, b),
        TypeCode::Linked(_) => false,
        _ => kind_of(a).number() == kind_number(b),
    }
}

/// The number of the kind of a TypeCode that is no alias; of a graph it is none.
fn kind_number(code: &TypeCode) -> u32
    requires { is_alias (out-TypeCode code.now) ≡ false }
    ensures { result ≡ (shape code.now).kind }
{
    match code {
        TypeCode::Linked(_) => INDIRECTION,
        _ => kind_of(code).number(),
    }
}

fn same_str(bound: u32, b: &TypeCode) -> bool
    requires { is_alias (out-TypeCode b.now) ≡ false }
    ensures { result ≡ like (str_shape bound) (shape b.now) }
{
    match b {
        TypeCode::Str { bound: other } => bound == *other,
        _ => false,
    }
}

fn same_object(id: &Boxed<Text>, b: &TypeCode) -> bool
    requires { is_alias (out-TypeCode b.now) ≡ false }
    ensures { result ≡ like (object_shape id.now) (shape b.now) }
{
    match b {
        TypeCode::ObjRef { id: other, .. } => ids_agree(id.as_slice(), other.as_slice()),
        _ => false,
    }
}

#[cycle(same)]
fn same_struct(id: &Boxed<Text>, members: &[Member], b: &TypeCode) -> bool
    requires { is_alias (out-TypeCode b.now) ≡ false }
    ensures { result ≡ like (fields_shape kind.Struct id.now (map member_entry members.now))
        (shape b.now) }
{
    match b {
        TypeCode::Struct {
            id: other,
            members: others,
            ..
        } => ids_agree(id.as_slice(), other.as_slice()) && same_members(members, others.as_slice()),
        _ => false,
    }
}

#[cycle(same)]
fn same_except(id: &Boxed<Text>, members: &[Member], b: &TypeCode) -> bool
    requires { is_alias (out-TypeCode b.now) ≡ false }
    ensures { result ≡ like (fields_shape kind.Except id.now (map member_entry members.now))
        (shape b.now) }
{
    match b {
        TypeCode::Except {
            id: other,
            members: others,
            ..
        } => ids_agree(id.as_slice(), other.as_slice()) && same_members(members, others.as_slice()),
        _ => false,
    }
}

fn same_enum(id: &Boxed<Text>, count: usize, b: &TypeCode) -> bool
    requires { is_alias (out-TypeCode b.now) ≡ false }
    ensures { result ≡ like (enum_shape id.now count) (shape b.now) }
{
    match b {
        TypeCode::Enum {
            id: other,
            labels,
            ..
        } => count == labels.len() && ids_agree(id.as_slice(), other.as_slice()),
        _ => false,
    }
}

#[cycle(same)]
fn same_sequence(item: &TypeCode, bound: u32, b: &TypeCode) -> bool
    requires { is_alias (out-TypeCode b.now) ≡ false }
    ensures { result ≡ like (items_shape kind.Sequence (shape item.now) bound) (shape b.now) }
{
    match b {
        TypeCode::Sequence {
            item: other,
            bound: limit,
        } => bound == *limit && same_trees(item, other.get()),
        _ => false,
    }
}

#[cycle(same)]
fn same_array(item: &TypeCode, len: u32, b: &TypeCode) -> bool
    requires { is_alias (out-TypeCode b.now) ≡ false }
    ensures { result ≡ like (items_shape kind.Array (shape item.now) len) (shape b.now) }
{
    match b {
        TypeCode::Array {
            item: other,
            len: count,
        } => len == *count && same_trees(item, other.get()),
        _ => false,
    }
}

/// Whether there are as many members, of the same types in order.
#[cycle(same)]
fn same_members(a: &[Member], b: &[Member]) -> bool
    ensures { result ≡ alike (row (map member_entry a.now)) (row (map member_entry b.now)) }
{
    if a.len() != b.len() {
        return false;
    }
    for i in 0..a.len() {
        if !same_member(&a[i], &b[i]) {
            return false;
        }
    }
    true
}

#[cycle(same)]
fn same_member(a: &Member, b: &Member) -> bool
    ensures { result ≡ entry_like (member_entry a.now) (member_entry b.now) }
{
    same_trees(&a.code, &b.code)
}

/// Whether there are as many arms, of the same labels and types in order.
#[cycle(same)]
fn same_arms(a: &[Arm], b: &[Arm]) -> bool
    ensures { result ≡ alike (row (map arm_entry a.now)) (row (map arm_entry b.now)) }
{
    if a.len() != b.len() {
        return false;
    }
    for i in 0..a.len() {
        if !same_arm(&a[i], &b[i]) {
            return false;
        }
    }
    true
}

#[cycle(same)]
fn same_arm(a: &Arm, b: &Arm) -> bool
    ensures { result ≡ entry_like (arm_entry a.now) (arm_entry b.now) }
{
    same_label(label_of(&a.label), label_of(&b.label)) && same_trees(&a.code, &b.code)
}
