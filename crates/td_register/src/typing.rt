//! The types and modes of properties (OMG's Trading Object Service, "Service Types", and the structure
//! DynamicProp of module CosTradingDynamic).

ghost use Rattle.std.specs.Prelude.{◌≡◌, IfOk, option_copied};
ghost use Rattle.td_typecode.specs.Values.{code_in};
ghost use Rattle.td_typecode.specs.declared.code.Value.{out-Value};
ghost use Rattle.td_register.specs.Properties.{has_type, is_typed, mode_of, returned_type};
ghost use Rattle.td_register.specs.Properties.{second_code};

use std::alloc::Global;
use td_cdr::Memory;
use td_sameness::same_type;
use td_types::property_named;
use td_value::{Any, PropStruct, PropertyMode, TypeCode, Value, is_dynamic};

/// The TypeCode that a value is.
fn code_in(value: &Value) -> Option<&TypeCode>
    ensures { option_copied result ≡ code_in (out-Value value.now) }
{
    match value {
        Value::Code(code) => Some(code.get()),
        _ => None,
    }
}

/// The TypeCode that the second of these is.
fn second_code(values: &[Value]) -> Option<&TypeCode>
    ensures { option_copied result ≡ second_code values.now }
{
    match values {
        [_first, second, ..] => code_in(second),
        _ => None,
    }
}

/// The returned_type of a DynamicProp.
fn returned_type(value: &Value) -> Option<&TypeCode>
    ensures { option_copied result ≡ returned_type value.now }
{
    match value {
        Value::Struct(members) => second_code(members.as_slice()),
        _ => None,
    }
}

/// Whether the any's value, or the values that it is evaluated to, are of a declared type.
///
/// # Errors
///
/// `Memory` only when out of memory.
fn has_type(alloc: Global, declared: &TypeCode, any: &Any) -> Result<bool, Memory>
    ensures { IfOk result (λ yes. yes ≡ has_type declared.now any.now) }
{
    if !is_dynamic(&any.code) {
        return same_type(alloc, &any.code, declared);
    }
    match returned_type(&any.value) {
        None => Ok(false),
        Some(code) => same_type(alloc, code, declared),
    }
}

/// Whether the any is of the declared type, where one is declared.
///
/// # Errors
///
/// `Memory` only when out of memory.
pub(crate) fn is_typed(
    alloc: Global,
    declared: Option<&PropStruct>,
    any: &Any,
) -> Result<bool, Memory>
    ensures { IfOk result (λ yes. yes ≡ is_typed (option_copied declared.entry) any.now) }
{
    match declared {
        None => Ok(true),
        Some(declared) => has_type(alloc, &declared.value_type, any),
    }
}

/// The mode of the property of a name; normal where the type doesn't name it.
pub fn mode_of(demanded: &[PropStruct], name: &[u8]) -> PropertyMode
    ensures { result ≡ mode_of demanded.now name.now }
{
    match property_named(demanded, name) {
        None => PropertyMode::Normal,
        Some(declared) => declared.mode,
    }
}
