//! What is asked of an offer's properties (OMG's Trading Object Service, interface Register, export).

ghost use Rattle.std.specs.Prelude.{◌≡◌, List, ℕ, [], ◌∷◌, ◌++◌, IfOk, OnOk, option_copied};
ghost use Rattle.td_cdr.specs.Seen.{HaveSeen};
ghost use Rattle.td_register.specs.Causes.{limit_if};
ghost use Rattle.td_register.specs.Judged.{IsFirstCause};
ghost use Rattle.td_register.specs.Properties.{carries, is_too_large, mismatches, missing_property, missing_cause};
ghost use Rattle.td_register.specs.Properties.{name_cause};
ghost use Rattle.td_register.specs.Properties.{properties_cause, value_cause};

use crate::refusal::{Fault, Refusal, raised};
use crate::typing::{is_typed, mode_of};
use std::alloc::Global;
use td_cdr::{Boxed, List, Memory, Seen, Text, Twin, copy_two, is_identifier, nothing_seen, see};
use td_exceptions::UserException;
use td_types::{MOST_BYTES, MOST_PROPERTIES, is_mandatory, is_readonly, property_named};
use td_value::{Ior, PropStruct, Property, is_dynamic, offer_size};

/// Whether one of these has the name.
pub fn carries(properties: &[Property], name: &[u8]) -> bool
    ensures { result ≡ carries properties.now name.now }
{
    for property in properties {
        if property.name.as_slice() == name {
            return true;
        }
    }
    false
}

/// Puts a copy of a property behind the others.
///
/// # Errors
///
/// `Memory` only when out of memory.
pub fn push_copy(
    alloc: Global,
    properties: &mut List<Property>,
    property: &Property,
) -> Result<(), Memory>
    ensures { OnOk result (properties.new ≡ properties.old ++ property.now ∷ []) }
{
    let twin = property.copy(alloc)?;
    properties.push(twin)
}

/// Refuses a name that is none, or that was met; and notes it as met.
///
/// # Errors
///
/// `IllegalPropertyName`; `DuplicatePropertyName`; `Memory` when out of memory.
pub fn check_name<'a>(alloc: Global, seen: &mut Seen<'a>, name: &'a Text) -> Result<(), Fault>
    ensures judged { (before : List (List ℕ)) → HaveSeen seen.old before
        → IsFirstCause (name_cause before name.now) result }
    ensures noted { (before : List (List ℕ)) → HaveSeen seen.old before →
        OnOk result (HaveSeen seen.new (name.now ∷ before)) }
{
    if !is_identifier(name.as_slice()) {
        return Err(raised(UserException::IllegalPropertyName {
            name: name.copy(alloc)?,
        }));
    }
    if !see(seen, name.as_slice())? {
        return Err(raised(UserException::DuplicatePropertyName {
            name: name.copy(alloc)?,
        }));
    }
    Ok(())
}

/// Whether the type doesn't let the value stand there.
///
/// # Errors
///
/// `Memory` only when out of memory.
fn mismatches(
    alloc: Global,
    supported: bool,
    demanded: &[PropStruct],
    property: &Property,
) -> Result<bool, Memory>
    ensures { IfOk result (λ yes. yes ≡ mismatches supported demanded.now property.now) }
{
    let declared = property_named(demanded, property.name.as_slice());
    if is_dynamic(&property.value.code) && !supported {
        return Ok(true);
    }
    Ok(!is_typed(alloc, declared, &property.value)?)
}

/// Refuses a value that the type doesn't let stand there.
///
/// # Errors
///
/// `PropertyTypeMismatch`; `ReadonlyDynamicProperty`; `Memory` when out of memory.
pub fn check_value(
    alloc: Global,
    supported: bool,
    type_name: &Text,
    demanded: &[PropStruct],
    property: &Property,
) -> Result<(), Fault>
    ensures { IsFirstCause (value_cause supported type_name.now demanded.now property.now) result }
{
    if mismatches(alloc, supported, demanded, property)? {
        let property = Boxed::copy_of(alloc, property)?;
        let service_type = type_name.copy(alloc)?;
        return Err(raised(UserException::PropertyTypeMismatch {
            service_type,
            property,
        }));
    }
    if is_dynamic(&property.value.code)
        && is_readonly(mode_of(demanded, property.name.as_slice()))
    {
        let (service_type, name) = copy_two(alloc, type_name, &property.name)?;
        return Err(raised(UserException::ReadonlyDynamicProperty { service_type, name }));
    }
    Ok(())
}

/// Refuses the first property that can't stand in an offer of the type.
///
/// # Errors
///
/// Of the first property at fault, as [`check_name`] and then [`check_value`]; `Memory` when out
/// of memory.
pub fn check_properties(
    alloc: Global,
    supported: bool,
    type_name: &Text,
    demanded: &[PropStruct],
    properties: &[Property],
) -> Result<(), Fault>
    ensures { IsFirstCause (properties_cause supported type_name.now demanded.now [] properties.now)
        result }
{
    let mut seen = nothing_seen(alloc);
    for property in properties {
        check_name(alloc, &mut seen, &property.name)?;
        check_value(alloc, supported, type_name, demanded, property)?;
    }
    Ok(())
}

/// The first mandatory property that is lacking.
fn missing_property<'a>(
    demanded: &'a [PropStruct],
    properties: &[Property],
) -> Option<&'a PropStruct>
    ensures { option_copied result ≡ missing_property demanded.now properties.now }
{
    for declared in demanded {
        if is_mandatory(declared.mode) && !carries(properties, declared.name.as_slice()) {
            return Some(declared);
        }
    }
    None
}

/// Refuses an offer that lacks a mandatory property.
///
/// # Errors
///
/// `MissingMandatoryProperty` of the first that is missing; `Memory` when out of memory.
pub fn check_missing(
    alloc: Global,
    type_name: &Text,
    demanded: &[PropStruct],
    properties: &[Property],
) -> Result<(), Fault>
    ensures { IsFirstCause
        (missing_cause type_name.now (missing_property demanded.now properties.now)) result }
{
    match missing_property(demanded, properties) {
        None => Ok(()),
        Some(declared) => {
            let (service_type, name) = copy_two(alloc, type_name, &declared.name)?;
            Err(raised(UserException::MissingMandatoryProperty { service_type, name }))
        }
    }
}

/// Refuses an offer with too many properties or encoded bytes.
///
/// # Errors
///
/// IMP_LIMIT for more than 256 properties or 1 MiB; `Memory` when out of memory.
pub fn check_size(alloc: Global, reference: &Ior, properties: &List<Property>) -> Result<(), Fault>
    ensures { IsFirstCause (limit_if (is_too_large reference.now properties.now)) result }
{
    if properties.len() > MOST_PROPERTIES {
        return Err(Fault::Refused(Refusal::Limit));
    }
    if offer_size(alloc, reference, properties)? > MOST_BYTES {
        return Err(Fault::Refused(Refusal::Limit));
    }
    Ok(())
}
