//! Listing types, and the last incarnation.

ghost use Rattle.std.specs.Prelude.{◌≡◌, IfOk, map, filter};
ghost use Rattle.td_types.specs.Calls.{AnswersRepositoryCall, list_types, is_listed};
ghost use Rattle.td_types.specs.Kept.{entry_type};
ghost use Rattle.td_types.specs.Repository.{IsRepository};

use crate::entry::TypeEntry;
use crate::fault::TypesFault;
use crate::reply::TypesReply;
use crate::types::Types;
use std::alloc::Global;
use td_cdr::{List, Memory, Text, Twin};

impl Types {
    /// The names of all types, or of those of this incarnation or a later one, in the order of their
    /// incarnations (list_types).
    ///
    /// # Errors
    ///
    /// `Memory` only when out of memory.
    #[tactic(auto, unfolding(crate::specs::Calls::list_types))]
    pub fn list(&self, since: Option<u64>) -> Result<TypesReply, TypesFault>
        ensures answer { AnswersRepositoryCall (list_types self.now since) self.now self.now
            result }
    {
        let names = listed(self.alloc, self.entries.as_slice(), since)?;
        Ok(TypesReply::Names(names))
    }

    /// The last incarnation given, 0 before the first (attribute incarnation). Takes no memory.
    pub fn incarnation(&self) -> u64
        ensures answer { result ≡ self.now.last }
        // What holds of each repository, for those who keep one.
        ensures valid { IsRepository self.now }
    {
        self.last
    }
}

/// The names of the types that are listed.
///
/// # Errors
///
/// `Memory` only when out of memory.
fn listed(alloc: Global, entries: &[TypeEntry], since: Option<u64>) -> Result<List<Text>, Memory>
    ensures { IfOk result (λ names. names
        ≡ map (λ t. t.name) (filter (is_listed since) (map entry_type entries.now))) }
{
    let mut names = List::new(alloc);
    for entry in entries {
        if is_listed(since, entry) {
            names.push(entry.service_type.name.copy(alloc)?)?;
        }
    }
    Ok(names)
}

/// Whether the type is of this incarnation or a later one.
fn is_listed(since: Option<u64>, entry: &TypeEntry) -> bool
    ensures { result ≡ is_listed since (entry_type entry.now) }
{
    match since {
        None => true,
        Some(since) => since <= entry.service_type.incarnation,
    }
}
