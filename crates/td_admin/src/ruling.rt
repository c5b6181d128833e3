//! Links that are given other rules (OMG's Trading Object Service, interface Link, modify_link).

ghost use Rattle.std.specs.Prelude.{◌≡◌, None, MatchResult};
ghost use Rattle.td_ops.specs.declared.call.Change.TheVariants as change;
ghost use Rattle.td_ops.specs.declared.outcome.Reply.TheVariants as reply;
ghost use Rattle.td_register.specs.Judged.{AcceptsChange, IsMet};
ghost use Rattle.td_register.specs.Causes.{unless_full};
ghost use Rattle.td_admin.specs.Links.{modify_link_cause, with_rules};
ghost use Rattle.td_register.specs.Needs.{NeedsNone};

use crate::linking::check_rules;
use td_cdr::{Text, is_word_name};
use td_exceptions::UserException;
use td_ops::Change;
use td_register::{Accepted, ChangeReply, Fault, Refusal, entry_of, raised};
use td_store::Store;
use td_value::FollowOption;

/// The name of the link, where it may have these rules. Takes no memory.
fn ruled_name(
    store: &Store,
    name: Text,
    def_pass_on: FollowOption,
    limiting: FollowOption,
) -> Result<Text, Fault>
    ensures judged { MatchResult result
        (λ n. (modify_link_cause store.now name def_pass_on limiting ≡ None) × (n ≡ name))
        (IsMet (modify_link_cause store.now name def_pass_on limiting)) }
    ensures free { NeedsNone result }
{
    if !is_word_name(name.as_slice()) {
        return Err(raised(UserException::IllegalLinkName { name }));
    }
    if store.links.get(&name).is_none() {
        return Err(raised(UserException::UnknownLinkName { name }));
    }
    match check_rules(
        store.attributes.max_link_follow_policy,
        def_pass_on,
        limiting,
    ) {
        Ok(()) => Ok(name),
        Err(fault) => Err(fault),
    }
}

/// Gives a link other rules, in its place. Takes no memory.
///
/// # Errors
///
/// `IllegalLinkName`, `UnknownLinkName`; `DefaultFollowTooPermissive`, `LimitingFollowTooPermissive`;
/// IMP_LIMIT where no more changes are accepted.
pub fn modify_link(
    store: &mut Store,
    full: bool,
    name: Text,
    def_pass_on: FollowOption,
    limiting: FollowOption,
) -> Result<Accepted, Fault>
    ensures accepts { AcceptsChange (change.ModifyLink name def_pass_on limiting)
        (unless_full full (modify_link_cause store.old name def_pass_on limiting) reply.Nothing
        (with_rules store.old name def_pass_on limiting)) store.old store.new result }
    ensures free { NeedsNone result }
{
    let name = ruled_name(store, name, def_pass_on, limiting)?;
    if full {
        return Err(Fault::Refused(Refusal::Limit));
    }
    store.links.set_rules(&name, def_pass_on, limiting);
    Ok(entry_of(
        Change::ModifyLink {
            name,
            def_pass_on,
            limiting,
        },
        ChangeReply::nothing(),
    ))
}
