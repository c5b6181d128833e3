//! Calls that make and destroy contexts.

ghost use Rattle.std.specs.Prelude.{◌≡◌, IfOk, OnErr, true};
ghost use Rattle.td_names.specs.Applying.{at_place, context_bound_anew, destroy_context, fresh_context, next_reference};
ghost use Rattle.td_names.specs.Applying.{or_none};
ghost use Rattle.td_names.specs.Stores.{bindings_of, bound_in, contexts_full, is_live};
ghost use Rattle.td_names.specs.Walking.{last_of, place};
ghost use Rattle.std.specs.Prelude.{false};

use crate::act::{NameAnswer, NameException, NameRefusal, NameReply};
use crate::address::context_reference;
use crate::bindings::Bindings;
use crate::component::NameComponent;
use crate::store::NameStore;
use crate::walking::last_component;
use std::alloc::Global;
use td_cdr::{List, Memory, Twin};
use td_typecode::Ior;

/// The number of the root.
const ROOT: u32 = 1;

impl NameStore {
    /// Makes a context.
    ///
    /// # Errors
    ///
    /// `Memory` only when out of memory; nothing was done then.
    pub(crate) fn new_context(&mut self, alloc: Global) -> Result<NameAnswer, Memory>
        ensures ok { IfOk result (λ r. (self.new, r) ≡ fresh_context self.old) }
        ensures err { OnErr result (self.new ≡ self.old) }
    {
        if self.changes_full() || self.contexts_full() {
            return Ok(NameAnswer::System(NameRefusal::ImpLimit));
        }
        let reference = self.next_reference(alloc)?;
        self.contexts.push(Some(Bindings::new(alloc)))?;
        self.changes += 1;
        Ok(NameAnswer::Done(NameReply::Object(reference)))
    }

    /// The reference that the next context gets.
    ///
    /// # Errors
    ///
    /// `Memory` only when out of memory.
    fn next_reference(&self, alloc: Global) -> Result<Ior, Memory>
        requires { contexts_full self.now ≡ false }
        ensures { IfOk result (λ reference. reference ≡ next_reference self.now) }
    {
        let number = self.contexts.len() as u32 + 1;
        context_reference(alloc, &self.home, number)
    }

    /// Makes a context, and binds it under a name that isn't bound.
    ///
    /// # Errors
    ///
    /// `Memory` only when out of memory; nothing was done then.
    pub(crate) fn bind_new_context(
        &mut self,
        alloc: Global,
        context: u32,
        name: List<NameComponent>,
    ) -> Result<NameAnswer, Memory>
        requires { is_live self.old context ≡ true }
        ensures ok { IfOk result (λ r. (self.new, r)
            ≡ at_place self.old (place self.old context name)
            (λ d. context_bound_anew self.old d (last_of name)
            (bound_in self.old d (last_of name)))) }
        ensures err { OnErr result (self.new ≡ self.old) }
    {
        match self.place(alloc, context, name.as_slice())? {
            Err(refusal) => Ok(refusal),
            Ok(place) => self.bind_new_at(alloc, place, last_component(name)),
        }
    }

    fn bind_new_at(
        &mut self,
        alloc: Global,
        place: u32,
        last: NameComponent,
    ) -> Result<NameAnswer, Memory>
        requires { is_live self.old place ≡ true }
        ensures ok { IfOk result (λ r.
            (self.new, r) ≡ context_bound_anew self.old place last (bound_in self.old place last)) }
        ensures err { OnErr result (self.new ≡ self.old) }
    {
        if self.bound(place, &last).is_some() {
            return Ok(NameAnswer::User(NameException::AlreadyBound));
        }
        if self.changes_full() || self.bindings_full() || self.contexts_full() {
            return Ok(NameAnswer::System(NameRefusal::ImpLimit));
        }
        let reference = self.next_reference(alloc)?;
        let object = reference.copy(alloc)?;
        self.set_new(alloc, place, last, object)?;
        Ok(NameAnswer::Done(NameReply::Object(reference)))
    }

    /// Destroys a context without bindings.
    pub(crate) fn destroy(&mut self, context: u32) -> NameAnswer
        requires { is_live self.old context ≡ true }
        ensures { (self.new, result)
            ≡ destroy_context self.old context (or_none (bindings_of self.old context)) }
    {
        if context == ROOT {
            return NameAnswer::System(NameRefusal::NoImplement);
        }
        match self.bindings_of(context) {
            Some(bindings) => {
                if bindings.len() > 0 {
                    return NameAnswer::User(NameException::NotEmpty);
                }
            }
            None => unreachable!(),
        }
        if self.changes_full() {
            return NameAnswer::System(NameRefusal::ImpLimit);
        }
        self.contexts[context as usize - 1] = None;
        self.changes += 1;
        NameAnswer::Done(NameReply::Nothing)
    }
}
