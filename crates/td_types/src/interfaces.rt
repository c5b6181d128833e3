//! The declared interfaces, and which of them leads to which (CORBA, IDL on the inheritance of
//! interfaces).

ghost use Rattle.std.specs.Prelude.{◌≡◌, ◌<◌, ◌||◌, ℕ, false, [], ◌∷◌, length, IfOk, MatchOption};
ghost use Rattle.std.specs.Str.{bytes_eq};
ghost use Rattle.td_types.specs.Interfaces.{interface_conforms, leads_within};
ghost use Rattle.td_types.specs.Reaching.{AreLinks, Reaches, AllReach, names_base, id_at, declares};

use crate::places::{is_among, links_of, places_of};
use crate::reaching::reach;
use std::alloc::Global;
use std::marker::Model;
use std::slice;
use td_cdr::{List, Memory, Text};

/// The declared interfaces as they came, and of each the declarations that its bases lead to.
#[derive(Drop)]
pub(crate) struct Interfaces {
    declared: List<(Text, List<Text>)>,
    reached: List<List<bool>>,
}

impl Model for Interfaces {
    ghost use Rattle.td_types.specs.Repository.{InterfaceBases};
    ghost use Rattle.td_types.specs.Reaching.{AllReach};

    ghost Value = { InterfaceBases };

    ghost view = { λ i. i.declared };

    ghost invariant = { λ i. AllReach i.declared i.reached };
}

impl Interfaces {
    /// The interfaces with their declared bases.
    ///
    /// # Errors
    ///
    /// `Memory` only when out of memory.
    pub(crate) fn new(
        alloc: Global,
        declared: List<(Text, List<Text>)>,
    ) -> Result<Interfaces, Memory>
        ensures { IfOk result (λ i. i ≡ declared) }
    {
        let reached = all_reached(alloc, declared.as_slice())?;
        Ok(Interfaces { declared, reached })
    }

    /// Whether one interface conforms to another: they are equal, one of them is empty, or declared
    /// bases lead from the first to the second. Takes no memory.
    #[tactic(auto, unfolding(crate::specs::Interfaces::interface_conforms))]
    pub(crate) fn conforms(&self, sub: &[u8], base: &[u8]) -> bool
        ensures { result ≡ interface_conforms self.now sub.now base.now }
    {
        sub.is_empty()
            || base.is_empty()
            || leads(self.declared.as_slice(), self.reached.as_slice(), sub, base)
    }
}

/// Of each declaration, the declarations that its bases lead to.
fn all_reached(alloc: Global, declared: &[(Text, List<Text>)]) -> Result<List<List<bool>>, Memory>
    ensures { IfOk result (λ reached. AllReach declared.now reached) }
{
    let links = links_of(alloc, declared)?;
    let mut reached = List::new(alloc);
    for entry in declared {
        let marks = reached_from(alloc, declared, &links, &entry.0)?;
        reached.push(marks)?;
    }
    Ok(reached)
}

/// The declarations that an interface leads to, its own included.
fn reached_from(
    alloc: Global,
    declared: &[(Text, List<Text>)],
    links: &Vec<List<usize>>,
    id: &Text,
) -> Result<List<bool>, Memory>
    requires { AreLinks declared.now links.now.items }
    ensures { IfOk result (λ marks. Reaches declared.now id.now marks) }
{
    let starts = places_of(alloc, declared, slice::from_ref(id))?;
    reach(alloc, links, starts.as_slice())
}

/// Whether declared bases lead from one interface to another, or they are equal.
fn leads(declared: &[(Text, List<Text>)], reached: &[List<bool>], first: &[u8], last: &[u8]) -> bool
    requires { AllReach declared.now reached.now }
    ensures { result ≡ leads_within (length declared.now) declared.now first.now last.now }
{
    match place_of(declared, first) {
        Some(place) => first == last || is_named(declared, reached[place].as_slice(), last),
        None => first == last,
    }
}

/// The first place at which an interface is declared.
fn place_of(declared: &[(Text, List<Text>)], id: &[u8]) -> Option<usize>
    ensures { MatchOption result ((place : ℕ) → declares declared.now (id.now ∷ []) place ≡ false)
        (λ place. (place < length declared.now) × (id_at declared.now place ≡ id.now)) }
{
    for (place, entry) in declared.iter().enumerate() {
        if entry.0.as_slice() == id {
            return Some(place);
        }
    }
    None
}

/// Whether one of the marked declarations names this base.
fn is_named(declared: &[(Text, List<Text>)], marks: &[bool], base: &[u8]) -> bool
    requires { length marks.now ≡ length declared.now }
    ensures { result ≡ names_base declared.now marks.now base.now }
{
    for (place, entry) in declared.iter().enumerate() {
        if marks[place] && is_among(base, entry.1.as_slice()) {
            return true;
        }
    }
    false
}
