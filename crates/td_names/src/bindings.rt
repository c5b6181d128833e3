//! The bindings of one context.

ghost use Rattle.std.specs.Prelude.{◌≡◌, ◌+◌, [], length, map, take, IfOk, OnOk, OnErr, IsSome, is_some, not};
ghost use Rattle.std.specs.Prelude.{if◌then◌else◌, option_copied};
ghost use Rattle.std.specs.Map.{lookup, remove_entry};
ghost use Rattle.indexmap.specs.IndexMap.{insert_entry};
ghost use Rattle.td_names.specs.Applying.{binding_of};
ghost use Rattle.td_names.specs.Stores.{same_component};

use crate::component::{Bound, NameBinding, NameComponent};
use indexmap::IndexMap;
use std::alloc::Global;
use std::marker::Model;
use td_cdr::{List, Memory, Twin};

/// The bindings of a context in the order of binding, each found by its component.
pub(crate) struct Bindings {
    named: IndexMap<NameComponent, Bound>,
}

// By hand, since a derived drop is written out at each exit, and proved again in each crate above.
impl Drop for Bindings {
    fn drop(self) {
        let Bindings { named: _named } = self;
    }
}

impl Model for Bindings {
    ghost use Rattle.std.specs.Prelude.{List};
    ghost use Rattle.std.specs.Coded.{codes};
    ghost use Rattle.td_names.specs.declared.component.NameComponent.{NameComponent as part};
    ghost use Rattle.td_names.specs.declared.component.Bound.{Bound as what};

    ghost Value = { List (part × what) };

    ghost coded = { Prim.hlevel codes };

    ghost view = { λ b. b.named.entries };
}

impl Bindings {
    /// No bindings. Takes no memory.
    pub(crate) fn new(alloc: Global) -> Bindings
        ensures { result ≡ [] }
    {
        Bindings {
            named: IndexMap::new(alloc),
        }
    }

    /// How many there are.
    pub(crate) fn len(&self) -> usize
        ensures { result ≡ length self.now }
    {
        self.named.len()
    }

    /// What is bound under a component. Takes no memory.
    pub(crate) fn get(&self, component: &NameComponent) -> Option<&Bound>
        ensures { option_copied result ≡ lookup (same_component component.now) self.now }
    {
        self.named.get(component)
    }

    /// Binds under a component, in its place or behind the others. Tells whether there is one more.
    ///
    /// # Errors
    ///
    /// `Memory` only when out of memory; the bindings are then as before.
    pub(crate) fn set(&mut self, component: NameComponent, bound: Bound) -> Result<bool, Memory>
        ensures ok { OnOk result (self.new ≡ insert_entry same_component self.old component bound) }
        ensures old { IfOk result (λ b. b
            ≡ not (is_some (lookup (same_component component) self.old))) }
        ensures count { IfOk result (λ b. length self.new ≡ length self.old
            + (if b then 1 else 0)) }
        ensures err { OnErr result (self.new ≡ self.old) }
    {
        match self.named.insert(component, bound) {
            Ok(old) => Ok(old.is_none()),
            Err(_) => Err(Memory),
        }
    }

    /// Takes what is bound under a component away. The others stay in their order. Takes no memory.
    pub(crate) fn remove(&mut self, component: &NameComponent)
        ensures others { self.new ≡ remove_entry (same_component component.now) self.old }
        ensures count { IsSome (lookup (same_component component.now) self.old)
            → length self.new + 1 ≡ length self.old }
    {
        self.named.shift_remove(component);
    }

    /// What a listing tells of them, in the order of binding.
    ///
    /// # Errors
    ///
    /// `Memory` only when out of memory.
    pub(crate) fn list(&self, alloc: Global) -> Result<List<NameBinding>, Memory>
        ensures { IfOk result (λ list. list ≡ map binding_of self.now) }
    {
        let mut list = List::with_room(alloc, self.named.len())?;
        for i in 0..self.named.len() {
            if let Some((component, bound)) = self.named.get_index(i) {
                list.push(NameBinding {
                    name: component.copy(alloc)?,
                    context: bound.context,
                })?;
            }
        }
        Ok(list)
    }
}
