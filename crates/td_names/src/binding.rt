//! Calls that bind and unbind.

ghost use Rattle.std.specs.Prelude.{◌≡◌, IfOk, OnErr, true};
ghost use Rattle.td_names.specs.Applying.{at_place, bound_anew, rebound, unbound};
ghost use Rattle.td_names.specs.Stores.{bound_in, is_live};
ghost use Rattle.td_names.specs.Walking.{last_of, place};

use crate::act::{MISSING_NODE, NOT_OBJECT, NameAnswer, NameException, NameRefusal, NameReply};
use crate::component::{Bound, NameComponent};
use crate::store::NameStore;
use crate::walking::{last_component, not_found_last};
use std::alloc::Global;
use td_cdr::{List, Memory};
use td_typecode::Ior;

impl NameStore {
    /// Binds under a name that isn't bound.
    ///
    /// # Errors
    ///
    /// `Memory` only when out of memory; nothing was done then.
    pub(crate) fn bind(
        &mut self,
        alloc: Global,
        context: u32,
        name: List<NameComponent>,
        bound: Bound,
    ) -> Result<NameAnswer, Memory>
        requires { is_live self.old context ≡ true }
        ensures ok { IfOk result (λ r. (self.new, r)
            ≡ at_place self.old (place self.old context name)
            (λ d. bound_anew self.old d (last_of name) bound
            (bound_in self.old d (last_of name)))) }
        ensures err { OnErr result (self.new ≡ self.old) }
    {
        match self.place(alloc, context, name.as_slice())? {
            Err(refusal) => Ok(refusal),
            Ok(place) => self.bind_at(place, last_component(name), bound),
        }
    }

    fn bind_at(
        &mut self,
        place: u32,
        last: NameComponent,
        bound: Bound,
    ) -> Result<NameAnswer, Memory>
        requires { is_live self.old place ≡ true }
        ensures ok { IfOk result (λ r.
            (self.new, r) ≡ bound_anew self.old place last bound (bound_in self.old place last)) }
        ensures err { OnErr result (self.new ≡ self.old) }
    {
        if self.bound(place, &last).is_some() {
            return Ok(NameAnswer::User(NameException::AlreadyBound));
        }
        if self.changes_full() || self.bindings_full() {
            return Ok(NameAnswer::System(NameRefusal::ImpLimit));
        }
        self.set(place, last, bound)?;
        Ok(NameAnswer::Done(NameReply::Nothing))
    }

    /// Binds an object under a name, in place of an object that is bound so.
    ///
    /// # Errors
    ///
    /// `Memory` only when out of memory; nothing was done then.
    pub(crate) fn rebind(
        &mut self,
        alloc: Global,
        context: u32,
        name: List<NameComponent>,
        object: Ior,
    ) -> Result<NameAnswer, Memory>
        requires { is_live self.old context ≡ true }
        ensures ok { IfOk result (λ r. (self.new, r)
            ≡ at_place self.old (place self.old context name)
            (λ d. rebound self.old d (last_of name) object (bound_in self.old d (last_of name)))) }
        ensures err { OnErr result (self.new ≡ self.old) }
    {
        match self.place(alloc, context, name.as_slice())? {
            Err(refusal) => Ok(refusal),
            Ok(place) => self.rebind_at(alloc, place, last_component(name), object),
        }
    }

    fn rebind_at(
        &mut self,
        alloc: Global,
        place: u32,
        last: NameComponent,
        object: Ior,
    ) -> Result<NameAnswer, Memory>
        requires { is_live self.old place ≡ true }
        ensures ok { IfOk result (λ r.
            (self.new, r) ≡ rebound self.old place last object (bound_in self.old place last)) }
        ensures err { OnErr result (self.new ≡ self.old) }
    {
        match self.bound(place, &last).map(|b| b.context) {
            Some(true) => return not_found_last(alloc, NOT_OBJECT, last),
            Some(false) => {
                if self.changes_full() {
                    return Ok(NameAnswer::System(NameRefusal::ImpLimit));
                }
            }
            None => {
                if self.changes_full() || self.bindings_full() {
                    return Ok(NameAnswer::System(NameRefusal::ImpLimit));
                }
            }
        }
        let bound = Bound {
            context: false,
            object,
        };
        self.set(place, last, bound)?;
        Ok(NameAnswer::Done(NameReply::Nothing))
    }

    /// Takes away what is bound under a name.
    ///
    /// # Errors
    ///
    /// `Memory` only when out of memory; nothing was done then.
    pub(crate) fn unbind(
        &mut self,
        alloc: Global,
        context: u32,
        name: List<NameComponent>,
    ) -> Result<NameAnswer, Memory>
        requires { is_live self.old context ≡ true }
        ensures ok { IfOk result (λ r. (self.new, r)
            ≡ at_place self.old (place self.old context name)
            (λ d. unbound self.old d (last_of name) (bound_in self.old d (last_of name)))) }
        ensures err { OnErr result (self.new ≡ self.old) }
    {
        match self.place(alloc, context, name.as_slice())? {
            Err(refusal) => Ok(refusal),
            Ok(place) => self.unbind_at(alloc, place, last_component(name)),
        }
    }

    fn unbind_at(
        &mut self,
        alloc: Global,
        place: u32,
        last: NameComponent,
    ) -> Result<NameAnswer, Memory>
        ensures ok { IfOk result (λ r.
            (self.new, r) ≡ unbound self.old place last (bound_in self.old place last)) }
        ensures err { OnErr result (self.new ≡ self.old) }
    {
        if self.bound(place, &last).is_none() {
            return not_found_last(alloc, MISSING_NODE, last);
        }
        if self.changes_full() {
            return Ok(NameAnswer::System(NameRefusal::ImpLimit));
        }
        self.remove(place, &last);
        Ok(NameAnswer::Done(NameReply::Nothing))
    }
}
