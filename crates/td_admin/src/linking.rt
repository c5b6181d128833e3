//! Links that are added (OMG's Trading Object Service, interface Link, add_link).

ghost use Rattle.std.specs.Prelude.{◌≡◌, None, Some, MatchResult, is_some};
ghost use Rattle.td_ior.specs.Profiles.{iiop_of};
ghost use Rattle.td_ops.specs.declared.call.Change.TheVariants as change;
ghost use Rattle.td_ops.specs.declared.outcome.Reply.TheVariants as reply;
ghost use Rattle.td_store.specs.LinkLists.{link_of};
ghost use Rattle.td_register.specs.Judged.{AcceptsChange, IsMet, IsFirstCause};
ghost use Rattle.td_admin.specs.LinkJudged.{IsLinked, IsNewLink, link_cause};
ghost use Rattle.td_register.specs.Causes.{unless_full};
ghost use Rattle.td_admin.specs.Links.{add_link_cause, name_cause, permits_more, rules_cause, target_cause, with_link};
ghost use Rattle.td_register.specs.Needs.{NeedsNone};

use std::alloc::Global;
use td_cdr::{Boxed, Memory, Text, Twin, is_word_name, share_three};
use td_exceptions::UserException;
use td_ior::{IorFault, iiop_of};
use td_ops::Change;
use td_register::{Accepted, ChangeReply, Fault, Refusal, entry_of, invalid_lookup, raised};
use td_store::{LinkRecord, Links, Store, StoreFault};
use td_value::{FollowOption, Ior};

/// Whether the first rule permits more than the second.
fn permits_more(a: FollowOption, b: FollowOption) -> bool
    ensures { result ≡ permits_more a b }
{
    b.number() < a.number()
}

/// Refuses rules that permit too much.
pub(crate) fn check_rules(
    maximum: FollowOption,
    def_pass_on: FollowOption,
    limiting: FollowOption,
) -> Result<(), Fault>
    ensures judged { IsFirstCause (rules_cause maximum def_pass_on limiting) result }
    ensures free { NeedsNone result }
{
    if permits_more(def_pass_on, limiting) {
        return Err(raised(UserException::DefaultFollowTooPermissive {
            def_pass_on_follow_rule: def_pass_on,
            limiting_follow_rule: limiting,
        }));
    }
    if permits_more(limiting, maximum) {
        return Err(raised(UserException::LimitingFollowTooPermissive {
            limiting_follow_rule: limiting,
            max_link_follow_policy: maximum,
        }));
    }
    Ok(())
}

/// Refuses a name that is none, or that a link has.
fn check_name(alloc: Global, links: &Links, name: &Text) -> Result<(), Fault>
    ensures { IsFirstCause (name_cause links.now name.now) result }
{
    if !is_word_name(name.as_slice()) {
        return Err(raised(UserException::IllegalLinkName {
            name: name.copy(alloc)?,
        }));
    }
    if links.get(name).is_some() {
        return Err(raised(UserException::DuplicateLinkName {
            name: name.copy(alloc)?,
        }));
    }
    Ok(())
}

/// Whether a reference has an IIOP profile.
pub(crate) fn is_reachable(alloc: Global, reference: &Ior) -> bool
    ensures { result ≡ is_some (iiop_of reference.now) }
{
    match iiop_of(alloc, reference) {
        Ok(_) => true,
        Err(IorFault::NoIiop) => false,
        // Only a profile that was found runs out of memory.
        Err(_) => true,
    }
}

/// The Register of a target that can be reached.
fn register_of<'a>(alloc: Global, target: &Ior, register: &'a Option<Ior>) -> Result<&'a Ior, Fault>
    ensures { MatchResult result
        (λ r. (target_cause target.now register.now ≡ None) × (register.now ≡ Some r.now))
        (IsMet (target_cause target.now register.now)) }
{
    let Some(known) = register else {
        return Err(invalid_lookup(alloc, target)?);
    };
    if !is_reachable(alloc, target) {
        return Err(invalid_lookup(alloc, target)?);
    }
    Ok(known)
}

/// The Register that a new link has, where nothing is at fault with its name, its target and its rules.
fn known_register<'a>(
    alloc: Global,
    store: &Store,
    name: &Text,
    target: &Ior,
    def_pass_on: FollowOption,
    limiting: FollowOption,
    register: &'a Option<Ior>,
) -> Result<&'a Ior, Fault>
    ensures { MatchResult result
        (λ r. (link_cause store.now name.now target.now def_pass_on limiting register.now ≡ None)
        × (register.now ≡ Some r.now))
        (IsMet (link_cause store.now name.now target.now def_pass_on limiting register.now)) }
{
    check_name(alloc, &store.links, name)?;
    let known = register_of(alloc, target, register)?;
    check_rules(
        store.attributes.max_link_follow_policy,
        def_pass_on,
        limiting,
    )?;
    Ok(known)
}

/// The link that is added, where nothing is at fault.
fn new_link(
    alloc: Global,
    store: &Store,
    name: &Text,
    target: &Ior,
    def_pass_on: FollowOption,
    limiting: FollowOption,
    register: &Option<Ior>,
) -> Result<LinkRecord, Fault>
    ensures { IsNewLink store.now name.now target.now def_pass_on limiting register.now result }
{
    let known = known_register(alloc, store, name, target, def_pass_on, limiting, register)?;
    let (name, (target, register)) = share_three(alloc, name, target, known)?;
    Ok(LinkRecord {
        name,
        target,
        register,
        def_pass_on,
        limiting,
    })
}

/// Puts a link behind the others.
fn insert_link(alloc: Global, store: &mut Store, link: LinkRecord) -> Result<(), Fault>
    requires fresh { link_of store.old.links link.name ≡ None }
    ensures { IsLinked link store.old store.new result }
{
    match store.links.insert(alloc, link) {
        Ok(()) => Ok(()),
        Err(StoreFault::Full) => Err(Fault::Refused(Refusal::Limit)),
        Err(StoreFault::Memory) => Err(Fault::Memory),
    }
}

/// Adds a link to a trader whose Register is known.
///
/// # Errors
///
/// `IllegalLinkName`, `DuplicateLinkName`; `InvalidLookupRef`; `DefaultFollowTooPermissive`,
/// `LimitingFollowTooPermissive`; IMP_LIMIT for too many links, and where no more changes are accepted;
/// `Memory` when out of memory.
pub fn add_link(
    alloc: Global,
    store: &mut Store,
    full: bool,
    name: Text,
    target: Boxed<Ior>,
    def_pass_on: FollowOption,
    limiting: FollowOption,
    register: Option<Ior>,
) -> Result<Accepted, Fault>
    ensures { AcceptsChange (change.AddLink name target def_pass_on limiting register)
        (unless_full full (add_link_cause store.old name target def_pass_on limiting register)
        reply.Nothing (with_link store.old name target def_pass_on limiting register))
        store.old store.new result }
{
    let link = new_link(
        alloc,
        store,
        &name,
        target.get(),
        def_pass_on,
        limiting,
        &register,
    )?;
    if full {
        return Err(Fault::Refused(Refusal::Limit));
    }
    insert_link(alloc, store, link)?;
    Ok(entry_of(
        Change::AddLink {
            name,
            target,
            def_pass_on,
            limiting,
            register,
        },
        ChangeReply::nothing(),
    ))
}
