//! TypeCodes from bytes. Where one is refused, the reader may have moved.

ghost use Rattle.std.specs.Prelude.{◌≡◌, IfOk};
ghost use Rattle.std.specs.Int.{w32};
ghost use Rattle.std.specs.Int.RustNames.{FitsSigned};
ghost use Rattle.td_cdr.specs.Format.{Gives};
ghost use Rattle.td_cdr.specs.Sound.{◌&◌, text, array, sequence};
ghost use Rattle.td_cdr.specs.ValueFaults.{is_memory};
ghost use Rattle.td_typecode.specs.declared.mode.Mode.TheVariants.{Inner, Switch};
ghost use Rattle.td_typecode.specs.Formats.{nonempty_sequence};
ghost use Rattle.td_typecode.specs.Labels.{labels};
ghost use Rattle.td_typecode.specs.Codes.{codes, header, positive, object_code, struct_code};
ghost use Rattle.td_typecode.specs.Codes.{except_code, enum_code};
ghost use Rattle.td_typecode.specs.Codes.{sequence_code, array_code, alias_code, union_code, head};
ghost use Rattle.td_typecode.specs.Codes.{counted_arms, member};
ghost use Rattle.td_typecode.specs.Codes.{arm_of, parameters, default_index, arm_count};
ghost use Rattle.td_typecode.specs.Enclosed.{enclosed_code};

use crate::code::{Arm, Member, TypeCode};
use crate::kinds::{CodeKind, deep_kind, kind_at, under};
use crate::labels::label_at;
use crate::mode::Mode;
use std::alloc::Global;
use td_cdr::{Boxed, List, Reader, Spelled, Text, ValueFault};

/// How many TypeCodes and anys may stand in one another, the outermost one counted.
pub const LEVELS: u32 = 16;

/// A TypeCode that may hold so many levels.
///
/// # Errors
///
/// The first fault in reading order, or `Memory` when out of memory; it isn't said where the reader
/// then stands.
#[cycle(reading)]
#[tactic(auto, unfolding(crate::specs::Codes::code_formats))]
pub fn code_at(
    alloc: Global,
    r: &mut Reader,
    levels: u32,
    mode: Mode,
) -> Result<TypeCode, ValueFault>
    ensures { Gives is_memory r.new result ((codes levels mode).format.reads r.old) }
{
    if levels == 0 {
        return too_deep(r, mode);
    }
    let kind = kind_at(r, mode)?;
    parameters_of(alloc, r, levels - 1, mode, kind)
}

/// A TypeCode one level below the last is refused.
#[tactic(auto, unfolding(crate::specs::Codes::code_formats))]
fn too_deep(r: &mut Reader, mode: Mode) -> Result<TypeCode, ValueFault>
    ensures { Gives is_memory r.new result ((codes 0 mode).format.reads r.old) }
{
    let _kind = deep_kind(r, mode)?;
    Err(ValueFault::BadValue(r.aligned()))
}

/// What stands behind the kind.
#[cycle(reading)]
fn parameters_of(
    alloc: Global,
    r: &mut Reader,
    levels: u32,
    mode: Mode,
    kind: CodeKind,
) -> Result<TypeCode, ValueFault>
    ensures { Gives is_memory r.new result
        ((parameters levels (codes levels) mode kind).format.reads r.old) }
{
    match kind {
        CodeKind::Null => Ok(TypeCode::Null),
        CodeKind::Void => Ok(TypeCode::Void),
        CodeKind::Short => Ok(TypeCode::Short),
        CodeKind::Long => Ok(TypeCode::Long),
        CodeKind::UShort => Ok(TypeCode::UShort),
        CodeKind::ULong => Ok(TypeCode::ULong),
        CodeKind::Boolean => Ok(TypeCode::Boolean),
        CodeKind::Char => Ok(TypeCode::Char),
        CodeKind::Octet => Ok(TypeCode::Octet),
        CodeKind::AnyCode => Ok(TypeCode::AnyCode),
        CodeKind::Code => Ok(TypeCode::Code),
        CodeKind::LongLong => Ok(TypeCode::LongLong),
        CodeKind::ULongLong => Ok(TypeCode::ULongLong),
        CodeKind::Str => Ok(TypeCode::Str { bound: r.u32()? }),
        _ => enclosed_of(alloc, &mut r.encapsulation()?, levels, mode, kind),
    }
}

/// What stands in the encapsulation behind the kind, where it has one.
#[cycle(reading)]
fn enclosed_of(
    alloc: Global,
    r: &mut Reader,
    levels: u32,
    mode: Mode,
    kind: CodeKind,
) -> Result<TypeCode, ValueFault>
    ensures { Gives is_memory r.new result
        ((enclosed_code levels (codes levels) mode kind).format.reads r.old) }
{
    match kind {
        CodeKind::ObjRef => object_of(alloc, r),
        CodeKind::Struct => struct_of(alloc, r, levels),
        CodeKind::Union => union_of(alloc, r, levels),
        CodeKind::Enum => enum_of(alloc, r),
        CodeKind::Sequence => sequence_of(alloc, r, levels),
        CodeKind::Array => array_of(alloc, r, levels),
        CodeKind::Alias => alias_of(alloc, r, levels, under(mode)),
        CodeKind::Except => except_of(alloc, r, levels),
        _ => Err(ValueFault::BadValue(r.aligned())),
    }
}

/// The repository id and the name.
fn header_of(alloc: Global, r: &mut Reader) -> Result<(Boxed<Text>, Boxed<Text>), ValueFault>
    ensures { Gives is_memory r.new result (header.format.reads r.old) }
{
    <(Boxed<Text>, Boxed<Text>)>::read(alloc, r)
}

/// A count that is not 0.
pub(crate) fn count_of(r: &mut Reader) -> Result<u32, ValueFault>
    ensures { Gives is_memory r.new result (positive.format.reads r.old) }
{
    let place = r.aligned();
    let count = r.u32()?;
    if count == 0 {
        return Err(ValueFault::BadValue(place));
    }
    Ok(count)
}

fn object_of(alloc: Global, r: &mut Reader) -> Result<TypeCode, ValueFault>
    ensures { Gives is_memory r.new result (object_code.format.reads r.old) }
{
    let header = header_of(alloc, r)?;
    Ok(TypeCode::ObjRef {
        id: header.0,
        name: header.1,
    })
}

fn enum_of(alloc: Global, r: &mut Reader) -> Result<TypeCode, ValueFault>
    ensures { Gives is_memory r.new result (enum_code.format.reads r.old) }
{
    let header = header_of(alloc, r)?;
    let labels = boxed_names_of(alloc, r)?;
    Ok(TypeCode::Enum {
        id: header.0,
        name: header.1,
        labels,
    })
}

/// One name at least.
pub(crate) fn names_of(alloc: Global, r: &mut Reader) -> Result<List<Text>, ValueFault>
    ensures { Gives is_memory r.new result ((nonempty_sequence text).format.reads r.old) }
{
    let place = r.aligned();
    let names = List::<Text>::read(alloc, r)?;
    if names.is_empty() {
        return Err(ValueFault::BadValue(place));
    }
    Ok(names)
}

/// The same, in a block of their own.
fn boxed_names_of(alloc: Global, r: &mut Reader) -> Result<Boxed<List<Text>>, ValueFault>
    ensures { Gives is_memory r.new result ((nonempty_sequence text).format.reads r.old) }
{
    let names = names_of(alloc, r)?;
    Ok(Boxed::new(alloc, names)?)
}

#[cycle(reading)]
fn struct_of(alloc: Global, r: &mut Reader, levels: u32) -> Result<TypeCode, ValueFault>
    ensures { Gives is_memory r.new result ((struct_code (codes levels Inner)).format.reads r.old) }
{
    let header = header_of(alloc, r)?;
    let members = fields_of(alloc, r, levels)?;
    Ok(TypeCode::Struct {
        id: header.0,
        name: header.1,
        members,
    })
}

/// One member at least.
#[cycle(reading)]
fn fields_of(alloc: Global, r: &mut Reader, levels: u32) -> Result<Boxed<List<Member>>, ValueFault>
    ensures { Gives is_memory r.new result
        ((nonempty_sequence (member (codes levels Inner))).format.reads r.old) }
{
    let place = r.aligned();
    let members = members_at(alloc, r, levels)?;
    if members.is_empty() {
        return Err(ValueFault::BadValue(place));
    }
    Ok(members)
}

#[cycle(reading)]
fn except_of(alloc: Global, r: &mut Reader, levels: u32) -> Result<TypeCode, ValueFault>
    ensures { Gives is_memory r.new result ((except_code (codes levels Inner)).format.reads r.old) }
{
    let header = header_of(alloc, r)?;
    let members = members_at(alloc, r, levels)?;
    Ok(TypeCode::Except {
        id: header.0,
        name: header.1,
        members,
    })
}

#[cycle(reading)]
fn sequence_of(alloc: Global, r: &mut Reader, levels: u32) -> Result<TypeCode, ValueFault>
    ensures { Gives is_memory r.new result
        ((sequence_code (codes levels Inner)).format.reads r.old) }
{
    let item = boxed_at(alloc, r, levels, Mode::Inner)?;
    let bound = r.u32()?;
    Ok(TypeCode::Sequence { item, bound })
}

#[cycle(reading)]
fn array_of(alloc: Global, r: &mut Reader, levels: u32) -> Result<TypeCode, ValueFault>
    ensures { Gives is_memory r.new result ((array_code (codes levels Inner)).format.reads r.old) }
{
    let item = boxed_at(alloc, r, levels, Mode::Inner)?;
    let len = count_of(r)?;
    Ok(TypeCode::Array { item, len })
}

#[cycle(reading)]
fn alias_of(alloc: Global, r: &mut Reader, levels: u32, mode: Mode) -> Result<TypeCode, ValueFault>
    ensures { Gives is_memory r.new result ((alias_code (codes levels mode)).format.reads r.old) }
{
    let (header, item) = front_of(alloc, r, levels, mode)?;
    Ok(TypeCode::Alias {
        id: header.0,
        name: header.1,
        item,
    })
}

/// An alias's parameters, and a union's up to its discriminator.
#[cycle(reading)]
fn front_of(
    alloc: Global,
    r: &mut Reader,
    levels: u32,
    mode: Mode,
) -> Result<((Boxed<Text>, Boxed<Text>), Boxed<TypeCode>), ValueFault>
    ensures { Gives is_memory r.new result ((header & codes levels mode).format.reads r.old) }
{
    let header = header_of(alloc, r)?;
    let code = boxed_at(alloc, r, levels, mode)?;
    Ok((header, code))
}

/// A TypeCode that may hold so many levels, in a block of its own.
///
/// # Errors
///
/// The first fault in reading order, or `Memory` when out of memory; it isn't said where the reader
/// then stands.
#[cycle(reading)]
pub fn boxed_at(
    alloc: Global,
    r: &mut Reader,
    levels: u32,
    mode: Mode,
) -> Result<Boxed<TypeCode>, ValueFault>
    ensures { Gives is_memory r.new result ((codes levels mode).format.reads r.old) }
{
    let code = code_at(alloc, r, levels, mode)?;
    Ok(Boxed::new(alloc, code)?)
}

/// A sequence of members.
#[cycle(reading)]
fn members_at(alloc: Global, r: &mut Reader, levels: u32) -> Result<Boxed<List<Member>>, ValueFault>
    ensures { Gives is_memory r.new result
        ((sequence (member (codes levels Inner))).format.reads r.old) }
{
    let count = r.u32()?;
    members_of(alloc, r, levels, count)
}

#[cycle(reading)]
fn members_of(
    alloc: Global,
    r: &mut Reader,
    levels: u32,
    count: u32,
) -> Result<Boxed<List<Member>>, ValueFault>
    ensures { Gives is_memory r.new result
        ((array (member (codes levels Inner)) count).format.reads r.old) }
{
    let mut members = List::new(alloc);
    for _ in 0..count {
        let member = member_of(alloc, r, levels)?;
        members.push(member)?;
    }
    Ok(Boxed::new(alloc, members)?)
}

#[cycle(reading)]
fn member_of(alloc: Global, r: &mut Reader, levels: u32) -> Result<Member, ValueFault>
    ensures { Gives is_memory r.new result ((member (codes levels Inner)).format.reads r.old) }
{
    let name = Text::read(alloc, r)?;
    let code = code_at(alloc, r, levels, Mode::Inner)?;
    Ok(Member { name, code })
}

/// The index of a union's default arm.
fn default_of(r: &mut Reader) -> Result<i32, ValueFault>
    ensures { Gives is_memory r.new result (default_index.format.reads r.old) }
{
    let place = r.aligned();
    let default = r.i32()?;
    if default < -1 {
        return Err(ValueFault::BadValue(place));
    }
    Ok(default)
}

/// The count behind a default index: at least 1 where no arm is the default.
fn count_behind(r: &mut Reader, default: i32) -> Result<u32, ValueFault>
    ensures { Gives is_memory r.new result ((arm_count default).format.reads r.old) }
{
    let place = r.aligned();
    let count = r.u32()?;
    if default < 0 && count == 0 {
        return Err(ValueFault::BadValue(place));
    }
    Ok(count)
}

/// A union's default index and the count of its arms.
pub(crate) fn head_of(r: &mut Reader) -> Result<(i32, u32), ValueFault>
    ensures { Gives is_memory r.new result (head.format.reads r.old) }
{
    let place = r.aligned();
    let default = default_of(r)?;
    let count = count_behind(r, default)?;
    if i64::from(default) >= i64::from(count) {
        return Err(ValueFault::BadValue(place));
    }
    Ok((default, count))
}

#[cycle(reading)]
fn union_of(alloc: Global, r: &mut Reader, levels: u32) -> Result<TypeCode, ValueFault>
    ensures { Gives is_memory r.new result ((union_code levels (codes levels)).format.reads r.old) }
{
    let (header, switch) = front_of(alloc, r, levels, Mode::Switch)?;
    let choices = choices_of(alloc, r, levels, switch.get())?;
    Ok(TypeCode::Union {
        id: header.0,
        name: header.1,
        switch,
        default: choices.0,
        arms: choices.1,
    })
}

/// A union's default index and its arms.
#[cycle(reading)]
fn choices_of(
    alloc: Global,
    r: &mut Reader,
    levels: u32,
    switch: &TypeCode,
) -> Result<(i32, Boxed<List<Arm>>), ValueFault>
    ensures read { Gives is_memory r.new result
        ((counted_arms (arm_of (labels levels switch.now) (codes levels Inner))).format.reads
        r.old) }
    ensures fits { IfOk result (λ choices. FitsSigned w32 choices.0) }
{
    let head = head_of(r)?;
    let arms = arms_of(alloc, r, levels, switch, head.1)?;
    Ok((head.0, arms))
}

#[cycle(reading)]
fn arms_of(
    alloc: Global,
    r: &mut Reader,
    levels: u32,
    switch: &TypeCode,
    count: u32,
) -> Result<Boxed<List<Arm>>, ValueFault>
    ensures { Gives is_memory r.new result
        ((array (arm_of (labels levels switch.now) (codes levels Inner)) count).format.reads
        r.old) }
{
    let mut arms = List::new(alloc);
    for _ in 0..count {
        let arm = arm_at(alloc, r, levels, switch)?;
        arms.push(arm)?;
    }
    Ok(Boxed::new(alloc, arms)?)
}

#[cycle(reading)]
fn arm_at(alloc: Global, r: &mut Reader, levels: u32, switch: &TypeCode) -> Result<Arm, ValueFault>
    ensures { Gives is_memory r.new result
        ((arm_of (labels levels switch.now) (codes levels Inner)).format.reads r.old) }
{
    let label = label_at(r, levels, switch)?;
    match member_of(alloc, r, levels) {
        Ok(member) => Ok(member.labelled(label)),
        Err(fault) => {
            drop(label);
            Err(fault)
        }
    }
}
