//! Walks along names.

ghost use Rattle.std.specs.Prelude.{◌≡◌, ◌≢◌, [], ◌∷◌, ◌↔◌, drop, IfOk, IsTrue, Some, true};
ghost use Rattle.td_names.specs.Stores.{is_live};
ghost use Rattle.td_names.specs.Walking.{holder, if_live, last_of, next_context, not_found, place};
ghost use Rattle.td_names.specs.declared.act.NameAnswer.TheVariants.{User};
ghost use Rattle.td_names.specs.declared.act.NameException.TheVariants as fault;

use crate::act::{MISSING_NODE, NOT_CONTEXT, NameAnswer, NameException, NameRefusal};
use crate::address::led_to;
use crate::component::{Bound, NameComponent};
use crate::limits::name_fits;
use crate::store::NameStore;
use std::alloc::Global;
use td_cdr::{List, Memory, Twin};

impl NameStore {
    /// The context in which the last component of a name is looked up, or why there is none.
    ///
    /// # Errors
    ///
    /// `Memory` only when out of memory.
    pub(crate) fn place(
        &self,
        alloc: Global,
        context: u32,
        name: &[NameComponent],
    ) -> Result<Result<u32, NameAnswer>, Memory>
        requires { is_live self.now context ≡ true }
        ensures place { IfOk result (λ r. r ≡ place self.now context name.now) }
        ensures live { IfOk result (λ r. IfOk r (λ d. is_live self.now d ≡ true)) }
    {
        if !name_fits(name) {
            return Ok(Err(NameAnswer::System(NameRefusal::ImpLimit)));
        }
        let place = self.holder(alloc, context, name)?;
        Ok(place)
    }

    /// The same for a name within the limits.
    ///
    /// # Errors
    ///
    /// `Memory` only when out of memory.
    fn holder(
        &self,
        alloc: Global,
        context: u32,
        name: &[NameComponent],
    ) -> Result<Result<u32, NameAnswer>, Memory>
        ensures { IfOk result (λ place. place ≡ holder self.now context name.now) }
    {
        if name.is_empty() {
            return Ok(Err(NameAnswer::User(NameException::InvalidName)));
        }
        let mut at = context;
        for i in 0..name.len() - 1 {
            let Some(bound) = self.bound(at, &name[i]) else {
                return Ok(Err(not_found(alloc, MISSING_NODE, &name[i..])?));
            };
            if !bound.context {
                return Ok(Err(not_found(alloc, NOT_CONTEXT, &name[i..])?));
            }
            match self.next_context(alloc, bound)? {
                Some(next) => at = next,
                None => return Ok(Err(cannot_proceed(alloc, bound, &name[i + 1..])?)),
            }
        }
        Ok(Ok(at))
    }

    /// The live context here that a binding leads to.
    ///
    /// # Errors
    ///
    /// `Memory` only when out of memory.
    fn next_context(&self, alloc: Global, bound: &Bound) -> Result<Option<u32>, Memory>
        ensures { IfOk result (λ next. next ≡ next_context self.now bound.now) }
    {
        let led = led_to(alloc, &self.home, &bound.object)?;
        match led {
            Some(number) => Ok(self.if_live(number)),
            None => Ok(None),
        }
    }

    fn if_live(&self, number: u32) -> Option<u32>
        ensures { result ≡ if_live self.now (Some number) }
    {
        if self.live(number) {
            Some(number)
        } else {
            None
        }
    }
}

/// The last component of a name that has one.
pub(crate) fn last_component(mut name: List<NameComponent>) -> NameComponent
    requires { name ≢ [] }
    ensures { result ≡ last_of name }
{
    match name.pop() {
        Some(last) => last,
        None => unreachable!(),
    }
}

/// A name isn't found, of which this is left.
///
/// # Errors
///
/// `Memory` only when out of memory.
fn not_found(alloc: Global, why: u32, rest: &[NameComponent]) -> Result<NameAnswer, Memory>
    ensures { IfOk result (λ r. r ≡ not_found why rest.now) }
{
    let rest = copies(alloc, rest)?;
    Ok(NameAnswer::User(NameException::NotFound { why, rest }))
}

/// A name isn't found, of which the last component is left.
///
/// # Errors
///
/// `Memory` only when out of memory.
pub(crate) fn not_found_last(
    alloc: Global,
    why: u32,
    last: NameComponent,
) -> Result<NameAnswer, Memory>
    ensures { IfOk result (λ r. r ≡ not_found why (last ∷ [])) }
{
    let mut rest = List::with_room(alloc, 1)?;
    rest.push(last)?;
    Ok(NameAnswer::User(NameException::NotFound { why, rest }))
}

/// The walk can't go on through this binding, where this is left of the name.
///
/// # Errors
///
/// `Memory` only when out of memory.
fn cannot_proceed(
    alloc: Global,
    bound: &Bound,
    rest: &[NameComponent],
) -> Result<NameAnswer, Memory>
    ensures { IfOk result (λ r. r ≡ User (fault.CannotProceed bound.now.object rest.now)) }
{
    let rest = copies(alloc, rest)?;
    let context = bound.object.copy(alloc)?;
    Ok(NameAnswer::User(NameException::CannotProceed { context, rest }))
}

/// Copies of components.
///
/// # Errors
///
/// `Memory` only when out of memory.
fn copies(alloc: Global, components: &[NameComponent]) -> Result<List<NameComponent>, Memory>
    ensures { IfOk result (λ copies. copies ≡ components.now) }
{
    let mut copies = List::with_room(alloc, components.len())?;
    for component in components {
        copies.push(component.copy(alloc)?)?;
    }
    Ok(copies)
}
