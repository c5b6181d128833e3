//! The entries of all types, each found by its name.

ghost use Rattle.std.specs.Prelude.{◌≡◌, false, [], ◌∷◌, ◌++◌, length, map, OnOk, OnErr, option_copied};
ghost use Rattle.td_types.specs.Kept.{entry_type};
ghost use Rattle.td_types.specs.Removing.{without_entry, with_mask};
ghost use Rattle.td_types.specs.Repository.{has_type};
ghost use Rattle.td_types.specs.Sought.{entry_named};

use crate::entry::TypeEntry;
use indexmap::IndexMap;
use std::alloc::Global;
use std::marker::Model;
use td_cdr::{Memory, Text, Twin};

/// The entries in the order of adding.
#[derive(Drop)]
pub(crate) struct Entries {
    named: IndexMap<Vec<u8>, TypeEntry>,
}

impl Model for Entries {
    ghost use Rattle.std.specs.Prelude.{List};
    ghost use Rattle.std.specs.Coded.{codes};
    ghost use Rattle.indexmap.specs.IndexMap.{values};
    ghost use Rattle.td_types.specs.NamedEntries.{AreNamed};
    ghost use Rattle.td_types.specs.declared.entry.TypeEntry.{TypeEntry as Kept};
    ghost use Rattle.td_typecode.specs.contracts.code.TypeCode as code;

    ghost Value = { List Kept };

    ghost coded = { Prim.hlevel (codes, code.the_row.coded) };

    ghost view = { λ e. values e.named };

    ghost invariant = { λ e. AreNamed e.named.entries };
}

impl Entries {
    /// No entries. Takes no memory.
    pub(crate) fn new(alloc: Global) -> Entries
        ensures { result ≡ [] }
    {
        Entries {
            named: IndexMap::new(alloc),
        }
    }

    /// How many there are.
    pub(crate) fn len(&self) -> usize
        ensures { result ≡ length self.now }
    {
        self.named.len()
    }

    /// The entries in order.
    pub(crate) fn as_slice(&self) -> &[TypeEntry]
        ensures { result.now ≡ self.now }
    {
        self.named.values().as_slice()
    }

    /// The entry of the type of a name.
    pub(crate) fn get(&self, name: &[u8]) -> Option<&TypeEntry>
        ensures { option_copied result ≡ entry_named self.now name.now }
    {
        self.named.get(name)
    }

    /// Adds the entry of a type of a new name.
    ///
    /// # Errors
    ///
    /// `Memory` only when out of memory; nothing is then added.
    pub(crate) fn add(&mut self, alloc: Global, entry: TypeEntry) -> Result<(), Memory>
        requires { has_type (map entry_type self.old) entry.service_type.name ≡ false }
        ensures added { OnOk result (self.new ≡ self.old ++ entry ∷ []) }
        ensures kept { OnErr result (self.new ≡ self.old) }
    {
        let name = entry.service_type.name.to_vec(alloc)?;
        match self.named.insert(name, entry) {
            Ok(_) => Ok(()),
            Err(_) => Err(Memory),
        }
    }

    /// Removes the entry of the type of a name. The others stay in their order.
    pub(crate) fn remove(&mut self, name: &[u8])
        ensures { self.new ≡ without_entry self.old name.now }
    {
        self.named.shift_remove(name);
    }

    /// Sets the mask of the type of a name.
    pub(crate) fn set_mask(&mut self, name: &[u8], masked: bool)
        ensures { self.new ≡ with_mask self.old name.now masked }
    {
        if let Some(entry) = self.named.get_mut(name) {
            entry.service_type.masked = masked;
        }
    }
}
