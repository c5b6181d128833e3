//! Links to other traders (OMG's Trading Object Service, interface Link).

ghost use Rattle.std.specs.Prelude.{◌≡◌, Ok, MatchResult, IfOk};
ghost use Rattle.td_ops.specs.declared.call.Change.TheVariants as change;
ghost use Rattle.td_ops.specs.declared.outcome.Reply.TheVariants as reply;
ghost use Rattle.td_register.specs.Judged.{IsAbsent, AcceptsChange, IsOutcomeOrNoMemory};
ghost use Rattle.td_store.specs.Stores.{link_info_of};
ghost use Rattle.td_register.specs.Needs.{NeedsNone};
ghost use Rattle.td_register.specs.Causes.{unless_full};
ghost use Rattle.td_admin.specs.Links.{describe_link, link_named, list_links, remove_link_cause, without_named};

use std::alloc::Global;
use td_cdr::{Memory, Text, Twin, is_word_name};
use td_exceptions::UserException;
use td_ops::{Change, Outcome, Reply};
use td_register::{Accepted, ChangeReply, Fault, Refusal, entry_of, raised, refusal_outcome};
use td_store::{LinkRecord, Links, Store};
use td_value::LinkInfo;

/// The link of a name.
fn link_named<'a>(alloc: Global, links: &'a Links, name: &Text) -> Result<&'a LinkRecord, Fault>
    ensures { MatchResult result (λ l. link_named links.now name.now ≡ Ok l.now)
        (IsAbsent (link_named links.now name.now)) }
{
    if !is_word_name(name.as_slice()) {
        return Err(raised(UserException::IllegalLinkName {
            name: name.copy(alloc)?,
        }));
    }
    match links.get(name) {
        Some(link) => Ok(link),
        None => Err(raised(UserException::UnknownLinkName {
            name: name.copy(alloc)?,
        })),
    }
}

/// Removes a link. Takes no memory.
///
/// # Errors
///
/// `IllegalLinkName`, `UnknownLinkName`; IMP_LIMIT where no more changes are accepted.
pub fn remove_link(store: &mut Store, full: bool, name: Text) -> Result<Accepted, Fault>
    ensures accepts { AcceptsChange (change.RemoveLink name)
        (unless_full full (remove_link_cause store.old name) reply.Nothing
        (without_named store.old name)) store.old store.new result }
    ensures free { NeedsNone result }
{
    if !is_word_name(name.as_slice()) {
        return Err(raised(UserException::IllegalLinkName { name }));
    }
    if store.links.get(&name).is_none() {
        return Err(raised(UserException::UnknownLinkName { name }));
    }
    if full {
        return Err(Fault::Refused(Refusal::Limit));
    }
    store.links.remove(&name);
    Ok(entry_of(Change::RemoveLink { name }, ChangeReply::nothing()))
}

/// What a link is.
///
/// # Errors
///
/// `Memory` only when out of memory.
pub(crate) fn link_info(alloc: Global, link: &LinkRecord) -> Result<LinkInfo, Memory>
    ensures { IfOk result (λ i. i ≡ link_info_of link.now) }
{
    Ok(LinkInfo {
        target: link.target.get().copy(alloc)?,
        target_reg: link.register.get().copy(alloc)?,
        def_pass_on_follow_rule: link.def_pass_on,
        limiting_follow_rule: link.limiting,
    })
}

/// What a link is (describe_link), or the refusal as an outcome.
///
/// # Errors
///
/// `Memory` only when out of memory.
#[tactic(auto, unfolding(crate::specs::Links::describe_link))]
pub fn describe_link(alloc: Global, store: &Store, name: &Text) -> Result<Outcome, Memory>
    ensures { IsOutcomeOrNoMemory (describe_link store.now name.now) result }
{
    match link_named(alloc, &store.links, name) {
        Ok(link) => Ok(Outcome::Done(Reply::Link(link_info(alloc, link)?))),
        Err(Fault::Refused(refusal)) => Ok(refusal_outcome(refusal)),
        Err(Fault::Memory) => Err(Memory),
    }
}

/// The names of all links (list_links).
///
/// # Errors
///
/// `Memory` only when out of memory.
#[tactic(auto, unfolding(crate::specs::Links::list_links))]
pub fn list_links(alloc: Global, store: &Store) -> Result<Outcome, Memory>
    ensures { IsOutcomeOrNoMemory (list_links store.now) result }
{
    Ok(Outcome::Done(Reply::Names(store.links.names(alloc)?)))
}
