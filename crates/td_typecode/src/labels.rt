//! A union's discriminator, from bytes.

ghost use Rattle.std.specs.Prelude.{◌≡◌};
ghost use Rattle.td_cdr.specs.Format.{Gives};
ghost use Rattle.td_cdr.specs.ValueFaults.{is_memory};
ghost use Rattle.td_typecode.specs.Labels.{labels, one_of};

use crate::code::{TypeCode, Value};
use crate::plain::{
    boolean_at, char_at, long_at, longlong_at, short_at, ulong_at, ulonglong_at, ushort_at,
};
use td_cdr::{Reader, ValueFault};

/// A value of a discriminator of at most so many levels.
///
/// # Errors
///
/// `BadValue` for what is no value of the discriminator's type, or where no level is left; `Cdr`
/// where the input ends, or for a boolean above 1. It isn't said where the reader then stands.
#[tactic(auto, unfolding(crate::specs::Labels::spelled_labels))]
pub fn label_at(r: &mut Reader, levels: u32, switch: &TypeCode) -> Result<Value, ValueFault>
    ensures { Gives is_memory r.new result ((labels levels switch.now).format.reads r.old) }
{
    if levels == 0 {
        return Err(ValueFault::BadValue(r.aligned()));
    }
    match switch {
        TypeCode::Short => short_at(r),
        TypeCode::Long => long_at(r),
        TypeCode::UShort => ushort_at(r),
        TypeCode::ULong => ulong_at(r),
        TypeCode::LongLong => longlong_at(r),
        TypeCode::ULongLong => ulonglong_at(r),
        TypeCode::Boolean => boolean_at(r),
        TypeCode::Char => char_at(r),
        TypeCode::Enum { labels, .. } => one_of(r, labels.len()),
        TypeCode::Alias { item, .. } => label_at(r, levels - 1, item.get()),
        _ => Err(ValueFault::BadValue(r.aligned())),
    }
}

/// The number of one of so many names.
///
/// # Errors
///
/// `BadValue` for a number that isn't below the count; `Cdr` where the input ends.
pub fn one_of(r: &mut Reader, count: usize) -> Result<Value, ValueFault>
    ensures { Gives is_memory r.new result ((one_of count).format.reads r.old) }
{
    let place = r.aligned();
    let n = r.u32()?;
    if n as usize >= count {
        return Err(ValueFault::BadValue(place));
    }
    Ok(Value::Enum(n))
}
