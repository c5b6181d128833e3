//! Service types by their names, as the operations on offers look for them (OMG's Trading Object Service,
//! the exceptions IllegalServiceType and UnknownServiceType of module CosTrading).

ghost use Rattle.std.specs.Prelude.{◌≡◌, is_some};
ghost use Rattle.td_exceptions.specs.declared.exception.UserException.TheVariants as user;
ghost use Rattle.td_types.specs.Repository.{type_named};
ghost use Rattle.td_register.specs.Causes.{with_cause, there};
ghost use Rattle.td_register.specs.Judged.{IsFirstCause};
ghost use Rattle.td_register.specs.Named.{type_properties, open_type, if_unmasked};
ghost use Rattle.td_register.specs.Registers.{interface_cause, no_more};

use crate::refusal::{Fault, illegal_type, raised, unknown_type};
use std::alloc::Global;
use td_cdr::{Text, Twin, copy_two, is_word_name};
use td_exceptions::UserException;
use td_store::{OfferRecord, Store, belongs};
use td_types::Types;
use td_value::{Ior, PropStruct};

/// Whether a type has the name and isn't masked.
#[tactic(auto, using(crate::proofs::Otherwise::is_unmasked, crate::proofs::Otherwise::is_nowhere))]
fn is_open(types: &Types, name: &[u8]) -> bool
    ensures { result ≡ is_some (if_unmasked (type_named types.now.types name.now)) }
{
    match types.is_masked(name) {
        Some(masked) => !masked,
        None => false,
    }
}

/// Refuses a name that no type has, or a masked one.
///
/// # Errors
///
/// `IllegalServiceType`; `UnknownServiceType`, also of a masked type; `Memory` when out of memory.
#[tactic(auto, using(crate::proofs::Otherwise::nothing_there, crate::proofs::Otherwise::something_there))]
pub fn check_open(alloc: Global, types: &Types, name: &Text) -> Result<(), Fault>
    ensures { IsFirstCause (with_cause (open_type types.now.types name.now) no_more) result }
{
    if !is_word_name(name.as_slice()) {
        return Err(illegal_type(name.copy(alloc)?));
    }
    if !is_open(types, name.as_slice()) {
        return Err(unknown_type(name.copy(alloc)?));
    }
    Ok(())
}

/// Refuses a reference whose interface doesn't conform to the type's.
///
/// # Errors
///
/// `UnknownServiceType`; `InterfaceTypeMismatch`; `Memory` when out of memory.
#[tactic(auto, using(crate::proofs::Otherwise::none_there, crate::proofs::Otherwise::some_there))]
pub fn check_interface(
    alloc: Global,
    store: &Store,
    name: &Text,
    reference: &Ior,
) -> Result<(), Fault>
    ensures { IsFirstCause (with_cause (there (type_named store.now.types.types name.now)
        (user.UnknownServiceType name.now)) (interface_cause store.now name.now reference.now))
        result }
{
    let Some(if_name) = store.types.interface_of(name.as_slice()) else {
        return Err(unknown_type(name.copy(alloc)?));
    };
    if !store
        .types
        .interface_conforms(reference.id.as_slice(), if_name.as_slice())
    {
        let (service_type, reference) = copy_two(alloc, name, reference)?;
        return Err(raised(UserException::InterfaceTypeMismatch {
            service_type,
            reference,
        }));
    }
    Ok(())
}

/// What an offer's type demands of its properties; nothing where the offer belongs to none.
pub fn type_properties<'a>(types: &'a Types, offer: &OfferRecord) -> &'a [PropStruct]
    ensures { result.now ≡ type_properties types.now.types offer.now }
{
    if belongs(types, offer) {
        types.full_properties(offer.service_type.as_slice())
    } else {
        &[]
    }
}
