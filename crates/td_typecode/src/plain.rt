//! Plain values, from bytes.

ghost use Rattle.std.specs.Prelude.{◌≡◌};
ghost use Rattle.td_cdr.specs.Format.{Gives};
ghost use Rattle.td_cdr.specs.ValueFaults.{is_memory};
ghost use Rattle.td_typecode.specs.Labels.{short_value, long_value, ushort_value, ulong_value, longlong_value};
ghost use Rattle.td_typecode.specs.Labels.{ulonglong_value, boolean_value, char_value, octet_value};

use crate::code::Value;
use td_cdr::{Reader, ValueFault};

/// A short.
///
/// # Errors
///
/// `Cdr` where the input ends.
pub fn short_at(r: &mut Reader) -> Result<Value, ValueFault>
    ensures { Gives is_memory r.new result (short_value.format.reads r.old) }
{
    Ok(Value::Short(r.i16()?))
}

/// A long.
///
/// # Errors
///
/// `Cdr` where the input ends.
pub fn long_at(r: &mut Reader) -> Result<Value, ValueFault>
    ensures { Gives is_memory r.new result (long_value.format.reads r.old) }
{
    Ok(Value::Long(r.i32()?))
}

/// An unsigned short.
///
/// # Errors
///
/// `Cdr` where the input ends.
pub fn ushort_at(r: &mut Reader) -> Result<Value, ValueFault>
    ensures { Gives is_memory r.new result (ushort_value.format.reads r.old) }
{
    Ok(Value::UShort(r.u16()?))
}

/// An unsigned long.
///
/// # Errors
///
/// `Cdr` where the input ends.
pub fn ulong_at(r: &mut Reader) -> Result<Value, ValueFault>
    ensures { Gives is_memory r.new result (ulong_value.format.reads r.old) }
{
    Ok(Value::ULong(r.u32()?))
}

/// A long long.
///
/// # Errors
///
/// `Cdr` where the input ends.
pub fn longlong_at(r: &mut Reader) -> Result<Value, ValueFault>
    ensures { Gives is_memory r.new result (longlong_value.format.reads r.old) }
{
    Ok(Value::LongLong(r.i64()?))
}

/// An unsigned long long.
///
/// # Errors
///
/// `Cdr` where the input ends.
pub fn ulonglong_at(r: &mut Reader) -> Result<Value, ValueFault>
    ensures { Gives is_memory r.new result (ulonglong_value.format.reads r.old) }
{
    Ok(Value::ULongLong(r.u64()?))
}

/// A boolean.
///
/// # Errors
///
/// `Cdr` where the input ends, or for an octet above 1.
pub fn boolean_at(r: &mut Reader) -> Result<Value, ValueFault>
    ensures { Gives is_memory r.new result (boolean_value.format.reads r.old) }
{
    Ok(Value::Boolean(r.boolean()?))
}

/// A char.
///
/// # Errors
///
/// `Cdr` where the input ends.
pub fn char_at(r: &mut Reader) -> Result<Value, ValueFault>
    ensures { Gives is_memory r.new result (char_value.format.reads r.old) }
{
    Ok(Value::Char(r.octet()?))
}

/// An octet.
///
/// # Errors
///
/// `Cdr` where the input ends.
pub fn octet_at(r: &mut Reader) -> Result<Value, ValueFault>
    ensures { Gives is_memory r.new result (octet_value.format.reads r.old) }
{
    Ok(Value::Octet(r.octet()?))
}
