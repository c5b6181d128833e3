//! Where bindings are written. The calls above have judged their limits before.

ghost use Rattle.indexmap.specs.IndexMap.{insert_entry};
ghost use Rattle.std.specs.Map.{remove_entry};
ghost use Rattle.std.specs.Prelude.{◌≡◌, ◌+◌, ◌⊎◌, Some, false, if◌then◌else◌, is_some, not, true};
ghost use Rattle.std.specs.Prelude.{IfOk, IsSome, OnErr, OnOk};
ghost use Rattle.td_names.specs.Applying.{next_reference, or_none, with_bound, with_bound_context, without_bound};
ghost use Rattle.td_names.specs.Stores.{bindings_full, bound_in, changes_full, contexts_full, count_in, is_live};
ghost use Rattle.td_names.specs.Stores.{looked_up, same_component};

use crate::bindings::Bindings;
use crate::component::{Bound, NameComponent};
use crate::store::NameStore;
use std::alloc::Global;
use td_cdr::Memory;
use td_typecode::Ior;

impl NameStore {
    /// Binds in a live context under a component, in its place or behind the others.
    ///
    /// # Errors
    ///
    /// `Memory` only when out of memory; nothing was done then.
    pub(crate) fn set(
        &mut self,
        context: u32,
        component: NameComponent,
        bound: Bound,
    ) -> Result<(), Memory>
        requires live { is_live self.old context ≡ true }
        requires room { changes_full self.old ≡ false }
        requires place { IsSome (bound_in self.old context component)
            ⊎ (bindings_full self.old ≡ false) }
        ensures ok { OnOk result (self.new ≡ with_bound self.old context component bound) }
        ensures err { OnErr result (self.new ≡ self.old) }
    {
        let slot = &mut self.contexts[context as usize - 1];
        let added = bind_in(slot, component, bound)?;
        self.bindings += u64::from(added);
        self.changes += 1;
        Ok(())
    }

    /// Makes a context, and binds its reference in a live context under a component that isn't bound.
    ///
    /// # Errors
    ///
    /// `Memory` only when out of memory; nothing was done then.
    pub(crate) fn set_new(
        &mut self,
        alloc: Global,
        context: u32,
        component: NameComponent,
        object: Ior,
    ) -> Result<(), Memory>
        requires live { is_live self.old context ≡ true }
        requires room { changes_full self.old ≡ false }
        requires bindings { bindings_full self.old ≡ false }
        requires contexts { contexts_full self.old ≡ false }
        requires object { object ≡ next_reference self.old }
        ensures ok { OnOk result (self.new ≡ with_bound_context self.old context component) }
        ensures err { OnErr result (self.new ≡ self.old) }
    {
        self.contexts.reserve(1)?;
        let slot = &mut self.contexts[context as usize - 1];
        let bound = Bound {
            context: true,
            object,
        };
        let added = bind_in(slot, component, bound)?;
        self.contexts.push_reserved(Some(Bindings::new(alloc)));
        self.bindings += u64::from(added);
        self.changes += 1;
        Ok(())
    }

    /// Takes what is bound in a live context under a component away.
    pub(crate) fn remove(&mut self, context: u32, component: &NameComponent)
        requires room { changes_full self.old ≡ false }
        requires there { IsSome (bound_in self.old context component.now) }
        ensures { self.new ≡ without_bound self.old context component.now }
    {
        let slot = &mut self.contexts[context as usize - 1];
        unbind_in(slot, component);
        self.bindings -= 1;
        self.changes += 1;
    }
}

/// Binds in these bindings, and tells whether there is one more.
///
/// # Errors
///
/// `Memory` only when out of memory; nothing was done then.
fn bind_in(
    context: &mut Option<Bindings>,
    component: NameComponent,
    bound: Bound,
) -> Result<bool, Memory>
    requires { IsSome context.old }
    ensures ok { OnOk result (context.new
        ≡ Some (insert_entry same_component (or_none context.old) component bound)) }
    ensures added { IfOk result (λ b. count_in context.new ≡ count_in context.old
        + (if b then 1 else 0)) }
    ensures old { IfOk result (λ b. b ≡ not (is_some (looked_up component context.old))) }
    ensures err { OnErr result (context.new ≡ context.old) }
{
    match context {
        Some(bindings) => bindings.set(component, bound),
        None => unreachable!(),
    }
}

/// Takes what is bound in these bindings under a component away.
fn unbind_in(context: &mut Option<Bindings>, component: &NameComponent)
    requires { IsSome (looked_up component.now context.old) }
    ensures new { context.new
        ≡ Some (remove_entry (same_component component.now) (or_none context.old)) }
    ensures count { count_in context.new + 1 ≡ count_in context.old }
{
    match context {
        Some(bindings) => bindings.remove(component),
        None => unreachable!(),
    }
}
