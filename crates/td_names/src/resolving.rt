//! Calls that change nothing: resolve and list.

ghost use Rattle.std.specs.Prelude.{◌≡◌, IfOk, true};
ghost use Rattle.td_names.specs.Applying.{at_place, list_bindings, or_none, resolve_component};
ghost use Rattle.td_names.specs.Stores.{bindings_of, bound_in, is_live};
ghost use Rattle.td_names.specs.Walking.{last_of, place};

use crate::act::{MISSING_NODE, NameAnswer, NameReply};
use crate::component::NameComponent;
use crate::store::NameStore;
use crate::walking::{last_component, not_found_last};
use std::alloc::Global;
use td_cdr::{List, Memory, Twin};

impl NameStore {
    /// What a name is bound to.
    ///
    /// # Errors
    ///
    /// `Memory` only when out of memory.
    pub(crate) fn resolve(
        &self,
        alloc: Global,
        context: u32,
        name: List<NameComponent>,
    ) -> Result<NameAnswer, Memory>
        requires { is_live self.now context ≡ true }
        ensures { IfOk result (λ r. (self.now, r) ≡ at_place self.now (place self.now context name)
            (λ d. resolve_component self.now (last_of name) (bound_in self.now d (last_of name)))) }
    {
        match self.place(alloc, context, name.as_slice())? {
            Err(refusal) => Ok(refusal),
            Ok(place) => self.resolve_at(alloc, place, last_component(name)),
        }
    }

    fn resolve_at(
        &self,
        alloc: Global,
        place: u32,
        last: NameComponent,
    ) -> Result<NameAnswer, Memory>
        ensures { IfOk result (λ r. (self.now, r)
            ≡ resolve_component self.now last (bound_in self.now place last)) }
    {
        match self.bound(place, &last) {
            Some(bound) => {
                let object = bound.object.copy(alloc)?;
                Ok(NameAnswer::Done(NameReply::Object(object)))
            }
            None => not_found_last(alloc, MISSING_NODE, last),
        }
    }

    /// All bindings of a context, in the order of binding.
    ///
    /// # Errors
    ///
    /// `Memory` only when out of memory.
    pub(crate) fn list(&self, alloc: Global, context: u32) -> Result<NameAnswer, Memory>
        requires { is_live self.now context ≡ true }
        ensures { IfOk result (λ r. r ≡ list_bindings (or_none (bindings_of self.now context))) }
    {
        match self.bindings_of(context) {
            Some(bindings) => {
                let list = bindings.list(alloc)?;
                Ok(NameAnswer::Done(NameReply::Bindings(list)))
            }
            None => unreachable!(),
        }
    }
}
