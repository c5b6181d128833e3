//! An entry looked for by its name, as the calls on one type look for it.

ghost use Rattle.std.specs.Prelude.{◌≡◌, Ok, MatchResult};
ghost use Rattle.td_types.specs.Sought.{find_entry, IsRefusedCall};

use crate::entries::Entries;
use crate::entry::TypeEntry;
use crate::fault::{RepoFault, TypesFault};
use std::alloc::Global;
use td_cdr::{Text, Twin, is_word_name};

/// The entry of that name, or why there is none.
pub(crate) fn find_entry<'a>(
    alloc: Global,
    entries: &'a Entries,
    name: &Text,
) -> Result<&'a TypeEntry, TypesFault>
    ensures { MatchResult result (λ e. find_entry entries.now name.now
        ≡ Ok e.now) (IsRefusedCall (find_entry entries.now name.now)) }
{
    if !is_word_name(name.as_slice()) {
        return Err(TypesFault::User(RepoFault::IllegalServiceType(name.copy(alloc)?)));
    }
    match entries.get(name.as_slice()) {
        None => Err(TypesFault::User(RepoFault::UnknownServiceType(name.copy(alloc)?))),
        Some(entry) => Ok(entry),
    }
}
