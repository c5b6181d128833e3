//! The supertypes of a new type.

ghost use Rattle.std.specs.Prelude.{◌≡◌, ℕ, [], map, IfOk};
ghost use Rattle.td_types.specs.Adding.{supers_fault};
ghost use Rattle.td_types.specs.Judged.{IsFirstFault, AreBases};
ghost use Rattle.td_types.specs.Kept.{repository};
ghost use Rattle.td_types.specs.declared.fault.RepoFault.TheVariants as fault;

use crate::entries::Entries;
use crate::entry::TypeEntry;
use crate::fault::{RepoFault, TypesFault};
use crate::interfaces::Interfaces;
use crate::sought::find_entry;
use std::alloc::Global;
use td_cdr::{List, Memory, Text, Twin, copy_four, nothing_seen, see};

/// The entries of the supertypes. Refuses the first that no type has, that stands before, or to whose
/// interface the new type's doesn't conform.
pub(crate) fn bases_of<'a>(
    alloc: Global,
    interfaces: &Interfaces,
    entries: &'a Entries,
    name: &Text,
    if_name: &Text,
    supers: &[Text],
) -> Result<List<&'a TypeEntry>, TypesFault>
    ensures { IsFirstFault (supers_fault (repository entries.now interfaces.now 0)
        name.now if_name.now [] supers.now)
        (λ bases. AreBases entries.now supers.now (map (λ b. b.now) bases)) result }
{
    let mut bases = List::new(alloc);
    let mut seen = nothing_seen(alloc);
    for base_name in supers {
        let base = find_entry(alloc, entries, base_name)?;
        if !see(&mut seen, base_name.as_slice())? {
            return Err(TypesFault::User(RepoFault::DuplicateServiceTypeName(base_name.copy(
                alloc,
            )?)));
        }
        if !interfaces.conforms(if_name.as_slice(), base.service_type.if_name.as_slice()) {
            return Err(TypesFault::User(mismatch(alloc, base_name, base, name, if_name)?));
        }
        bases.push(base)?;
    }
    Ok(bases)
}

/// The new type's interface doesn't conform to that of this supertype.
fn mismatch(
    alloc: Global,
    base_name: &Text,
    base: &TypeEntry,
    name: &Text,
    if_name: &Text,
) -> Result<RepoFault, Memory>
    ensures { IfOk result (λ f.
        f ≡ fault.InterfaceTypeMismatch base_name.now base.now.service_type.if_name name.now
        if_name.now) }
{
    let (base_service, (base_if, (derived_service, derived_if))) = copy_four(
        alloc,
        base_name,
        &base.service_type.if_name,
        name,
        if_name,
    )?;
    Ok(RepoFault::InterfaceTypeMismatch {
        base_service,
        base_if,
        derived_service,
        derived_if,
    })
}
