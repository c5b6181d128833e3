//! TypeCodes to bytes.

ghost use Rattle.std.specs.Prelude.{◌≡◌, length, map};
ghost use Rattle.td_cdr.specs.Format.{Appends, row, ◌then◌, number, octets, text};
ghost use Rattle.td_cdr.specs.Writing.{written_octets};
ghost use Rattle.td_typecode.specs.declared.kinds.CodeKind.TheVariants as kind;
ghost use Rattle.td_typecode.specs.Labels.{label_of, label_piece};
ghost use Rattle.td_typecode.specs.WritingCodes.{WritesCode, encapsulation_piece, kind_piece, header_piece, code_piece};
ghost use Rattle.td_typecode.specs.WritingCodes.{arm_piece, member_piece, head_piece};

use crate::code::{Arm, Member, TypeCode};
use crate::kinds::{CodeKind, kind_of};
use crate::label::{Label, label_of};
use std::alloc::Global;
use td_cdr::{Boxed, Memory, Text, Writer};

/// Appends the TypeCode, in the writer's order and with padding 0.
///
/// # Errors
///
/// `Memory` when out of memory or of room; the writer is then unchanged.
#[cycle(writing)]
pub fn write_typecode(alloc: Global, w: &mut Writer, code: &TypeCode) -> Result<(), Memory>
    ensures { Appends (code_piece code.now) w.old w.new result }
{
    match code {
        TypeCode::Str { bound } => write_two(w, CodeKind::Str, *bound),
        TypeCode::ObjRef { id, name } => write_object(alloc, w, id, name),
        TypeCode::Struct { id, name, members } => {
            write_fields(alloc, w, CodeKind::Struct, id, name, members.as_slice())
        }
        TypeCode::Union {
            id,
            name,
            switch,
            default,
            arms,
        } => {
            let mut inner = Writer::inside(alloc, w.order())?;
            write_front(alloc, &mut inner, id, name, switch.get())?;
            write_back(alloc, &mut inner, default, arms.as_slice())?;
            write_encapsulation(w, CodeKind::Union, &inner)
        }
        TypeCode::Enum { id, name, labels } => {
            write_enumeration(alloc, w, id, name, labels.as_slice())
        }
        TypeCode::Sequence { item, bound } => {
            write_items(alloc, w, CodeKind::Sequence, item.get(), *bound)
        }
        TypeCode::Array { item, len } => write_items(alloc, w, CodeKind::Array, item.get(), *len),
        TypeCode::Alias { id, name, item } => write_alias(alloc, w, id, name, item.get()),
        TypeCode::Except { id, name, members } => {
            write_fields(alloc, w, CodeKind::Except, id, name, members.as_slice())
        }
        TypeCode::Linked(_) => Ok(()),
        _ => w.u32(kind_of(code).number()),
    }
}

/// A kind and a number, or nothing.
fn write_two(w: &mut Writer, kind: CodeKind, n: u32) -> Result<(), Memory>
    ensures { Appends (kind_piece kind then (number 4).writes n) w.old w.new result }
{
    let held = w.len();
    w.u32(kind.number())?;
    match w.u32(n) {
        Ok(()) => Ok(()),
        Err(memory) => {
            w.cut(held);
            Err(memory)
        }
    }
}

/// The kind and the octets of its encapsulation, or nothing.
fn write_encapsulation(w: &mut Writer, kind: CodeKind, inner: &Writer) -> Result<(), Memory>
    ensures { Appends (kind_piece kind then octets.writes inner.now.bytes) w.old w.new result }
{
    let held = w.len();
    w.u32(kind.number())?;
    match w.octets(inner.bytes()) {
        Ok(()) => Ok(()),
        Err(memory) => {
            w.cut(held);
            Err(memory)
        }
    }
}

/// An object reference's TypeCode, or nothing.
fn write_object(
    alloc: Global,
    w: &mut Writer,
    id: &Boxed<Text>,
    name: &Boxed<Text>,
) -> Result<(), Memory>
    ensures { Appends (kind_piece kind.ObjRef then encapsulation_piece
        (header_piece id.now name.now)) w.old w.new result }
{
    let mut inner = Writer::inside(alloc, w.order())?;
    write_texts(&mut inner, id, name)?;
    write_encapsulation(w, CodeKind::ObjRef, &inner)
}

/// A sequence or an array with its bound or length, or nothing.
#[cycle(writing)]
fn write_items(
    alloc: Global,
    w: &mut Writer,
    kind: CodeKind,
    item: &TypeCode,
    size: u32,
) -> Result<(), Memory>
    ensures { Appends (kind_piece kind then encapsulation_piece
        (code_piece item.now then (number 4).writes size)) w.old w.new result }
{
    let mut inner = Writer::inside(alloc, w.order())?;
    write_item_and_size(alloc, &mut inner, item, size)?;
    write_encapsulation(w, kind, &inner)
}

/// An alias, or nothing.
#[cycle(writing)]
fn write_alias(
    alloc: Global,
    w: &mut Writer,
    id: &Boxed<Text>,
    name: &Boxed<Text>,
    item: &TypeCode,
) -> Result<(), Memory>
    ensures { Appends (kind_piece kind.Alias
        then encapsulation_piece (header_piece id.now name.now then code_piece item.now))
        w.old w.new result }
{
    let mut inner = Writer::inside(alloc, w.order())?;
    write_front(alloc, &mut inner, id, name, item)?;
    write_encapsulation(w, CodeKind::Alias, &inner)
}

/// An enumeration, or nothing.
fn write_enumeration(
    alloc: Global,
    w: &mut Writer,
    id: &Boxed<Text>,
    name: &Boxed<Text>,
    names: &[Text],
) -> Result<(), Memory>
    ensures { Appends (kind_piece kind.Enum
        then encapsulation_piece
        (header_piece id.now name.now then (number 4).writes (length names.now)
        then row (map text.writes names.now)))
        w.old w.new result }
{
    let mut inner = Writer::inside(alloc, w.order())?;
    write_enum(&mut inner, id, name, names)?;
    write_encapsulation(w, CodeKind::Enum, &inner)
}

/// The parameters of a sequence or an array.
#[cycle(writing)]
fn write_item_and_size(
    alloc: Global,
    w: &mut Writer,
    item: &TypeCode,
    bound: u32,
) -> Result<(), Memory>
    ensures { WritesCode (code_piece item.now then (number 4).writes bound) w.old w.new result }
{
    write_typecode(alloc, w, item)?;
    w.u32(bound)
}

fn write_texts(w: &mut Writer, id: &Boxed<Text>, name: &Boxed<Text>) -> Result<(), Memory>
    ensures { WritesCode (header_piece id.now name.now) w.old w.new result }
{
    w.string(id.as_slice())?;
    w.string(name.as_slice())
}

/// A number of items.
///
/// # Errors
///
/// `Memory` when out of memory or of room, and for 2^32 items or more; the writer is then
/// unchanged.
pub fn write_count(w: &mut Writer, count: usize) -> Result<(), Memory>
    ensures { Appends ((number 4).writes count) w.old w.new result }
{
    if count > u32::MAX as usize {
        return Err(Memory);
    }
    w.u32(count as u32)
}

/// The parameters of an enumeration.
fn write_enum(
    w: &mut Writer,
    id: &Boxed<Text>,
    name: &Boxed<Text>,
    names: &[Text],
) -> Result<(), Memory>
    ensures { WritesCode (header_piece id.now name.now then (number 4).writes (length names.now)
        then row (map text.writes names.now))
        w.old w.new result }
{
    write_texts(w, id, name)?;
    write_count(w, names.len())?;
    write_names(w, names)
}

fn write_names(w: &mut Writer, names: &[Text]) -> Result<(), Memory>
    ensures { WritesCode (row (map text.writes names.now)) w.old w.new result }
{
    for name in names {
        write_name(w, name)?;
    }
    Ok(())
}

fn write_name(w: &mut Writer, name: &Text) -> Result<(), Memory>
    ensures { WritesCode (text.writes name.now) w.old w.new result }
{
    w.string(name.as_slice())
}

/// A structure or an exception, or nothing.
#[cycle(writing)]
fn write_fields(
    alloc: Global,
    w: &mut Writer,
    kind: CodeKind,
    id: &Boxed<Text>,
    name: &Boxed<Text>,
    members: &[Member],
) -> Result<(), Memory>
    ensures { Appends (kind_piece kind
        then encapsulation_piece
        (header_piece id.now name.now then (number 4).writes (length members.now)
        then row (map member_piece members.now)))
        w.old w.new result }
{
    let mut inner = Writer::inside(alloc, w.order())?;
    write_struct(alloc, &mut inner, id, name, members)?;
    write_encapsulation(w, kind, &inner)
}

/// The parameters of a structure or an exception.
#[cycle(writing)]
fn write_struct(
    alloc: Global,
    w: &mut Writer,
    id: &Boxed<Text>,
    name: &Boxed<Text>,
    members: &[Member],
) -> Result<(), Memory>
    ensures { WritesCode (header_piece id.now name.now then (number 4).writes (length members.now)
        then row (map member_piece members.now))
        w.old w.new result }
{
    write_texts(w, id, name)?;
    write_count(w, members.len())?;
    write_members(alloc, w, members)
}

#[cycle(writing)]
fn write_members(alloc: Global, w: &mut Writer, members: &[Member]) -> Result<(), Memory>
    ensures { WritesCode (row (map member_piece members.now)) w.old w.new result }
{
    for member in members {
        write_member(alloc, w, member)?;
    }
    Ok(())
}

#[cycle(writing)]
fn write_member(alloc: Global, w: &mut Writer, member: &Member) -> Result<(), Memory>
    ensures { WritesCode (member_piece member.now) w.old w.new result }
{
    w.string(member.name.as_slice())?;
    write_typecode(alloc, w, &member.code)
}

/// An alias's parameters, and a union's up to its discriminator.
#[cycle(writing)]
fn write_front(
    alloc: Global,
    w: &mut Writer,
    id: &Boxed<Text>,
    name: &Boxed<Text>,
    item: &TypeCode,
) -> Result<(), Memory>
    ensures { WritesCode (header_piece id.now name.now then code_piece item.now) w.old w.new
        result }
{
    write_texts(w, id, name)?;
    write_typecode(alloc, w, item)
}

/// A union's parameters behind its discriminator.
#[cycle(writing)]
fn write_back(alloc: Global, w: &mut Writer, default: &i32, arms: &[Arm]) -> Result<(), Memory>
    ensures { WritesCode (head_piece default.now (length arms.now)
        then row (map arm_piece arms.now))
        w.old w.new result }
{
    write_head(w, default, arms.len())?;
    write_arms(alloc, w, arms)
}

fn write_head(w: &mut Writer, default: &i32, count: usize) -> Result<(), Memory>
    ensures { WritesCode (head_piece default.now count) w.old w.new result }
{
    let index = *default;
    w.u32(index.cast_unsigned())?;
    write_count(w, count)
}

#[cycle(writing)]
fn write_arms(alloc: Global, w: &mut Writer, arms: &[Arm]) -> Result<(), Memory>
    ensures { WritesCode (row (map arm_piece arms.now)) w.old w.new result }
{
    for arm in arms {
        write_arm(alloc, w, arm)?;
    }
    Ok(())
}

#[cycle(writing)]
fn write_arm(alloc: Global, w: &mut Writer, arm: &Arm) -> Result<(), Memory>
    ensures { WritesCode (arm_piece arm.now) w.old w.new result }
{
    write_label(w, label_of(&arm.label))?;
    w.string(arm.name.as_slice())?;
    write_typecode(alloc, w, &arm.code)
}

/// The number that spells a label.
///
/// # Errors
///
/// `Memory` when out of memory or of room; the writer is then unchanged.
pub fn write_label(w: &mut Writer, label: Label) -> Result<(), Memory>
    ensures { Appends (label_piece label) w.old w.new result }
{
    match label {
        Label::One(n) => w.octet(n),
        Label::Two(n) => w.u16(n),
        Label::Four(n) => w.u32(n),
        Label::Eight(n) => w.u64(n),
    }
}
