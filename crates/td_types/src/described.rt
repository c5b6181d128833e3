//! A type as the repository describes it.

ghost use Rattle.std.specs.Prelude.{◌≡◌, IfOk};
ghost use Rattle.td_types.specs.Descriptions.{description};
ghost use Rattle.td_types.specs.Kept.{entry_type, kept_description};
ghost use Rattle.td_types.specs.Repository.{halves};

use crate::entry::TypeEntry;
use std::alloc::Global;
use td_cdr::{Memory, copy_three};
use td_value::{IncarnationNumber, TypeStruct};

/// A number as the two halves of an IncarnationNumber. Takes no memory.
pub fn halves(number: u64) -> IncarnationNumber
    ensures { result ≡ halves number }
{
    IncarnationNumber {
        high: (number / 4294967296) as u32,
        low: (number % 4294967296) as u32,
    }
}

/// The type with its own properties and the supertypes that it lists.
///
/// # Errors
///
/// `Memory` only when out of memory.
pub(crate) fn description(alloc: Global, entry: &TypeEntry) -> Result<TypeStruct, Memory>
    ensures { IfOk result (λ d. d ≡ description (entry_type entry.now)) }
{
    let service_type = &entry.service_type;
    let (if_name, (props, super_types)) = copy_three(
        alloc,
        &service_type.if_name,
        &service_type.props,
        &service_type.supers,
    )?;
    Ok(TypeStruct {
        if_name,
        props,
        super_types,
        masked: service_type.masked,
        incarnation: halves(service_type.incarnation),
    })
}

/// The type with all its properties and all its supertypes.
///
/// # Errors
///
/// `Memory` only when out of memory.
pub(crate) fn kept_description(alloc: Global, entry: &TypeEntry) -> Result<TypeStruct, Memory>
    ensures { IfOk result (λ d. d ≡ kept_description entry.now) }
{
    let service_type = &entry.service_type;
    let (if_name, (props, super_types)) = copy_three(
        alloc,
        &service_type.if_name,
        &entry.full,
        &entry.ancestors,
    )?;
    Ok(TypeStruct {
        if_name,
        props,
        super_types,
        masked: service_type.masked,
        incarnation: halves(service_type.incarnation),
    })
}
