//! The kinds of TypeCodes, by their numbers.

ghost use Rattle.std.specs.Prelude.{◌≡◌, ◌+◌, IfOk};
ghost use Rattle.td_cdr.specs.Format.{Gives};
ghost use Rattle.td_cdr.specs.Reading.{next_aligned};
ghost use Rattle.td_cdr.specs.ValueFaults.{is_memory};
ghost use Rattle.td_typecode.specs.Codes.{kind_of};
ghost use Rattle.td_typecode.specs.Kinds.{number_of, kind_by_number, all_kinds, may_switch, may_stand};
ghost use Rattle.td_typecode.specs.Kinds.{under};
ghost use Rattle.td_typecode.specs.Kinds.{indirection_fault, kind_in, kind_at, deep_kind};
ghost use Rattle.td_typecode.specs.GraphCodes.{kind_or_indirection};

use crate::code::TypeCode;
use crate::mode::Mode;
use td_cdr::{Reader, ValueFault};

/// The kinds of TypeCodes that this project has (CORBA, General Inter-ORB Protocol, "TypeCode").
#[derive(Clone, Copy)]
pub enum CodeKind {
    Null,
    Void,
    Short,
    Long,
    UShort,
    ULong,
    Boolean,
    Char,
    Octet,
    AnyCode,
    Code,
    ObjRef,
    Struct,
    Union,
    Enum,
    Str,
    Sequence,
    Array,
    Alias,
    Except,
    LongLong,
    ULongLong,
}

/// All kinds, by rising number.
const KINDS: [CodeKind; 22] = [
    CodeKind::Null,
    CodeKind::Void,
    CodeKind::Short,
    CodeKind::Long,
    CodeKind::UShort,
    CodeKind::ULong,
    CodeKind::Boolean,
    CodeKind::Char,
    CodeKind::Octet,
    CodeKind::AnyCode,
    CodeKind::Code,
    CodeKind::ObjRef,
    CodeKind::Struct,
    CodeKind::Union,
    CodeKind::Enum,
    CodeKind::Str,
    CodeKind::Sequence,
    CodeKind::Array,
    CodeKind::Alias,
    CodeKind::Except,
    CodeKind::LongLong,
    CodeKind::ULongLong,
];

/// The highest number that CORBA gives to a kind.
const LAST_NUMBER: u32 = 28;

/// What stands in a kind's place where a TypeCode that was spelled before is meant.
pub const INDIRECTION: u32 = 0xffff_ffff;

impl CodeKind {
    /// The number that spells it.
    pub fn number(self) -> u32
        ensures { result ≡ number_of self }
    {
        match self {
            CodeKind::Null => 0,
            CodeKind::Void => 1,
            CodeKind::Short => 2,
            CodeKind::Long => 3,
            CodeKind::UShort => 4,
            CodeKind::ULong => 5,
            CodeKind::Boolean => 8,
            CodeKind::Char => 9,
            CodeKind::Octet => 10,
            CodeKind::AnyCode => 11,
            CodeKind::Code => 12,
            CodeKind::ObjRef => 14,
            CodeKind::Struct => 15,
            CodeKind::Union => 16,
            CodeKind::Enum => 17,
            CodeKind::Str => 18,
            CodeKind::Sequence => 19,
            CodeKind::Array => 20,
            CodeKind::Alias => 21,
            CodeKind::Except => 22,
            CodeKind::LongLong => 23,
            CodeKind::ULongLong => 24,
        }
    }
}

/// The kind of a TypeCode that is no graph. A graph has none of its own.
pub fn kind_of(code: &TypeCode) -> CodeKind
    ensures { result ≡ kind_of code.now }
{
    match code {
        TypeCode::Null => CodeKind::Null,
        TypeCode::Void => CodeKind::Void,
        TypeCode::Short => CodeKind::Short,
        TypeCode::Long => CodeKind::Long,
        TypeCode::UShort => CodeKind::UShort,
        TypeCode::ULong => CodeKind::ULong,
        TypeCode::Boolean => CodeKind::Boolean,
        TypeCode::Char => CodeKind::Char,
        TypeCode::Octet => CodeKind::Octet,
        TypeCode::AnyCode => CodeKind::AnyCode,
        TypeCode::Code => CodeKind::Code,
        TypeCode::LongLong => CodeKind::LongLong,
        TypeCode::ULongLong => CodeKind::ULongLong,
        TypeCode::Str { .. } => CodeKind::Str,
        TypeCode::ObjRef { .. } => CodeKind::ObjRef,
        TypeCode::Struct { .. } => CodeKind::Struct,
        TypeCode::Union { .. } => CodeKind::Union,
        TypeCode::Enum { .. } => CodeKind::Enum,
        TypeCode::Sequence { .. } => CodeKind::Sequence,
        TypeCode::Array { .. } => CodeKind::Array,
        TypeCode::Alias { .. } => CodeKind::Alias,
        TypeCode::Except { .. } => CodeKind::Except,
        TypeCode::Linked(_) => CodeKind::Null,
    }
}

/// The first of these that has the number.
fn find_kind(kinds: &[CodeKind], number: u32) -> Option<CodeKind>
    ensures { result ≡ kind_by_number kinds.now number }
{
    for kind in kinds {
        if number == kind.number() {
            return Some(*kind);
        }
    }
    None
}

/// The kind of a number.
pub fn kind_of_number(number: u32) -> Option<CodeKind>
    ensures { result ≡ kind_by_number all_kinds number }
{
    find_kind(&KINDS, number)
}

/// Whether a discriminator may have the kind, or an alias, whose item is looked at then.
fn may_switch(kind: CodeKind) -> bool
    ensures { result ≡ may_switch kind }
{
    matches!(
        kind,
        CodeKind::Short
            | CodeKind::Long
            | CodeKind::UShort
            | CodeKind::ULong
            | CodeKind::Boolean
            | CodeKind::Char
            | CodeKind::Enum
            | CodeKind::Alias
            | CodeKind::LongLong
            | CodeKind::ULongLong
    )
}

/// Whether the kind may stand there.
pub fn may_stand(mode: Mode, kind: CodeKind) -> bool
    ensures { result ≡ may_stand mode kind }
{
    match mode {
        Mode::Outer => true,
        Mode::Inner => !matches!(kind, CodeKind::Null | CodeKind::Void),
        Mode::Switch => may_switch(kind),
    }
}

/// How the item of an alias stands.
pub fn under(mode: Mode) -> Mode
    ensures { result ≡ under mode }
{
    match mode {
        Mode::Switch => Mode::Switch,
        Mode::Inner => Mode::Inner,
        Mode::Outer => Mode::Inner,
    }
}

/// The next kind, which may stand there; whether it is one level too deep tells the fault of an
/// indirection.
fn kind_in(r: &mut Reader, mode: Mode, deep: bool) -> Result<CodeKind, ValueFault>
    ensures { Gives is_memory r.new result
        ((kind_in (indirection_fault deep) mode).format.reads r.old) }
{
    let place = r.aligned();
    let number = r.u32()?;
    match kind_of_number(number) {
        Some(kind) if may_stand(mode, kind) => Ok(kind),
        Some(_) => Err(ValueFault::BadValue(place)),
        None if number == INDIRECTION && deep => Err(ValueFault::Depth(place)),
        None if number == INDIRECTION => Err(ValueFault::Indirection(place)),
        None if number > LAST_NUMBER => Err(ValueFault::BadKind(place)),
        None => match mode {
            Mode::Switch => Err(ValueFault::BadValue(place)),
            Mode::Inner => Err(ValueFault::Unsupported(number)),
            Mode::Outer => Err(ValueFault::Unsupported(number)),
        },
    }
}

/// The next kind, which may stand there.
///
/// # Errors
///
/// `BadValue` for a kind that may not stand there, `Unsupported` for one that is left out,
/// `Indirection` for one that points back, `BadKind` for a number that no kind has; `Cdr` where the
/// input ends. It isn't said where the reader then stands.
pub fn kind_at(r: &mut Reader, mode: Mode) -> Result<CodeKind, ValueFault>
    ensures { Gives is_memory r.new result ((kind_at mode).format.reads r.old) }
{
    kind_in(r, mode, false)
}

/// The next kind, which may stand there, or `None` for the number that an indirection begins with.
///
/// # Errors
///
/// As [`kind_at`], but for an indirection.
pub fn place_at(r: &mut Reader, mode: Mode) -> Result<Option<CodeKind>, ValueFault>
    ensures gives { Gives is_memory r.new result ((kind_or_indirection mode).format.reads r.old) }
    ensures place { IfOk result (λ k. r.new.place ≡ next_aligned 4 r.old + 4) }
{
    let place = r.aligned();
    let number = r.u32()?;
    if number == INDIRECTION {
        return Ok(None);
    }
    match kind_of_number(number) {
        Some(kind) if may_stand(mode, kind) => Ok(Some(kind)),
        Some(_) => Err(ValueFault::BadValue(place)),
        None if number > LAST_NUMBER => Err(ValueFault::BadKind(place)),
        None => match mode {
            Mode::Switch => Err(ValueFault::BadValue(place)),
            Mode::Inner => Err(ValueFault::Unsupported(number)),
            Mode::Outer => Err(ValueFault::Unsupported(number)),
        },
    }
}

/// The next kind, one level too deep: none may stand there.
///
/// # Errors
///
/// `Depth` in place of a kind and of an indirection; else as [`kind_at`].
pub fn deep_kind(r: &mut Reader, mode: Mode) -> Result<CodeKind, ValueFault>
    ensures { Gives is_memory r.new result ((deep_kind mode).format.reads r.old) }
{
    let place = r.aligned();
    let _kind = kind_in(r, mode, true)?;
    Err(ValueFault::Depth(place))
}
