//! Whether a type and its properties can have their names.

ghost use Rattle.std.specs.Prelude.{ℕ, []};
ghost use Rattle.td_types.specs.Adding.{name_fault, property_fault};
ghost use Rattle.td_types.specs.Judged.{IsFirstFault};
ghost use Rattle.td_types.specs.Kept.{repository};

use crate::entries::Entries;
use crate::fault::{RepoFault, TypesFault};
use std::alloc::Global;
use td_cdr::{Text, Twin, is_identifier, is_word_name, nothing_seen, see};
use td_value::PropStruct;

/// Refuses a type's name that is none, or that a type has.
#[tactic(auto, using(crate::proofs::Named::no_type, crate::proofs::Named::some_type))]
pub(crate) fn check_name(alloc: Global, entries: &Entries, name: &Text) -> Result<(), TypesFault>
    ensures { IsFirstFault (name_fault (repository entries.now [] 0) name.now)
        (λ _. Unit {0}) result }
{
    if !is_word_name(name.as_slice()) {
        return Err(TypesFault::User(RepoFault::IllegalServiceType(name.copy(alloc)?)));
    }
    if entries.get(name.as_slice()).is_some() {
        return Err(TypesFault::User(RepoFault::ServiceTypeExists(name.copy(alloc)?)));
    }
    Ok(())
}

/// Refuses the first property whose name is none, or the name of one before it.
pub(crate) fn check_properties(alloc: Global, props: &[PropStruct]) -> Result<(), TypesFault>
    ensures { IsFirstFault (property_fault [] props.now) (λ _. Unit {0}) result }
{
    let mut seen = nothing_seen(alloc);
    for prop in props {
        if !is_identifier(prop.name.as_slice()) {
            return Err(TypesFault::User(RepoFault::IllegalPropertyName(prop.name.copy(alloc)?)));
        }
        if !see(&mut seen, prop.name.as_slice())? {
            return Err(TypesFault::User(RepoFault::DuplicatePropertyName(prop.name.copy(alloc)?)));
        }
    }
    Ok(())
}
