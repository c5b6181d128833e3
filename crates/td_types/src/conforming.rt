//! Whether a type conforms to another.

ghost use Rattle.std.specs.Prelude.{◌≡◌, ◌↔◌, IsTrue, IfOk, false, [], map, filter};
ghost use Rattle.td_types.specs.Conforming.{conforms, Conforms, subtypes};
ghost use Rattle.td_types.specs.Judged.{AreKept};
ghost use Rattle.td_types.specs.Kept.{entry_type, is_below};
ghost use Rattle.td_types.specs.Laws.{RisesAbove};
ghost use Rattle.td_types.specs.Repository.{has_type};

use crate::entries::Entries;
use crate::entry::TypeEntry;
use crate::places::is_among;
use crate::types::Types;
use std::alloc::Global;
use td_cdr::{List, Memory, Text};

impl Types {
    /// Whether the first type conforms to the second: they are the same type, or declared supertypes
    /// lead from the first to the second. Takes no memory.
    pub fn conforms(&self, sub: &Text, base: &Text) -> bool
        ensures answer { result ≡ conforms self.now.types sub.now base.now }
        ensures chain { IsTrue result ↔ Conforms self.now.types sub.now base.now }
    {
        entry_conforms(&self.entries, sub.as_slice(), base.as_slice())
    }

    /// The incarnations of the types that conform to the type of a name, its own among them, rising;
    /// none where no type has the name.
    ///
    /// # Errors
    ///
    /// `Memory` only when out of memory.
    pub fn subtypes(&self, base: &Text) -> Result<List<u64>, Memory>
        ensures answer { IfOk result (λ numbers. numbers ≡ subtypes self.now.types base.now) }
        ensures rising { IfOk result (RisesAbove 0) }
        ensures unknown { has_type self.now.types base.now ≡ false
            → IfOk result (λ numbers. numbers ≡ []) }
    {
        below(self.alloc, self.entries.as_slice(), base.as_slice())
    }
}

/// Whether the type of the first name conforms to that of the second.
fn entry_conforms(entries: &Entries, sub: &[u8], base: &[u8]) -> bool
    requires { AreKept entries.now }
    ensures { result ≡ conforms (map entry_type entries.now) sub.now base.now }
{
    match entries.get(sub) {
        None => false,
        Some(entry) => is_below(entry, base),
    }
}

/// The incarnations of the types that conform to the type of a name.
///
/// # Errors
///
/// `Memory` only when out of memory.
fn below(alloc: Global, entries: &[TypeEntry], base: &[u8]) -> Result<List<u64>, Memory>
    ensures { IfOk result (λ numbers. numbers ≡ map
        (λ e. e.service_type.incarnation) (filter (is_below base.now) entries.now)) }
{
    let mut numbers = List::new(alloc);
    for entry in entries {
        if is_below(entry, base) {
            numbers.push(entry.service_type.incarnation)?;
        }
    }
    Ok(numbers)
}

/// Whether the entry's type conforms to the type of a name.
fn is_below(entry: &TypeEntry, base: &[u8]) -> bool
    ensures { result ≡ is_below base.now entry.now }
{
    entry.service_type.name.as_slice() == base || is_among(base, entry.ancestors.as_slice())
}
