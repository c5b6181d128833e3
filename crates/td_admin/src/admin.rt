//! What Admin sets, and the attributes that all objects tell (OMG's Trading Object Service, interfaces
//! TraderComponents, SupportAttributes, ImportAttributes, LinkAttributes and Admin).

ghost use Rattle.std.specs.Prelude.{◌≡◌, None, IfOk};
ghost use Rattle.td_ops.specs.declared.call.Change.TheVariants as change;
ghost use Rattle.td_ops.specs.declared.outcome.Reply.TheVariants as reply;
ghost use Rattle.td_admin.specs.Administration.{attribute_reply, follow_of, get, number_of, reference_of};
ghost use Rattle.td_admin.specs.Administration.{set_attributes, stem_cause, truth_of, with_follow, with_number};
ghost use Rattle.td_admin.specs.Administration.{with_stem, with_truth};
ghost use Rattle.td_register.specs.Causes.{unless_full};
ghost use Rattle.td_register.specs.Judged.{AcceptsChange, IsOutcomeOrNoMemory};
ghost use Rattle.td_register.specs.Needs.{NeedsNone};

use std::alloc::Global;
use std::mem;
use td_cdr::{Memory, Octets, Twin};
use td_ops::{
    Attribute, Change, FollowAttribute, NumberAttribute, Outcome, ReferenceAttribute, Reply,
    TruthAttribute,
};
use td_policy::Attributes;
use td_register::{Accepted, ChangeReply, Fault, Refusal, entry_of};
use td_store::Store;
use td_types::halves;
use td_value::{FollowOption, Ior};

/// How many octets a stem has at most.
const LONGEST_STEM: usize = 64;

fn reference_of(which: ReferenceAttribute, a: &Attributes) -> &Ior
    ensures { result.now ≡ reference_of which a.now }
{
    match which {
        ReferenceAttribute::LookupIf => a.lookup_if.get(),
        ReferenceAttribute::RegisterIf => a.register_if.get(),
        ReferenceAttribute::LinkIf => a.link_if.get(),
        ReferenceAttribute::ProxyIf => a.proxy_if.get(),
        ReferenceAttribute::AdminIf => a.admin_if.get(),
        ReferenceAttribute::TypeRepos => a.type_repos.get(),
    }
}

/// The value of an attribute that is a truth value (interface SupportAttributes).
pub fn truth_of(which: TruthAttribute, a: &Attributes) -> bool
    ensures { result ≡ truth_of which a.now }
{
    match which {
        TruthAttribute::SupportsModifiableProperties => a.supports_modifiable_properties,
        TruthAttribute::SupportsDynamicProperties => a.supports_dynamic_properties,
        TruthAttribute::SupportsProxyOffers => a.supports_proxy_offers,
    }
}

/// The value of an attribute that is a number (interface ImportAttributes).
pub fn number_of(which: NumberAttribute, a: &Attributes) -> u32
    ensures { result ≡ number_of which a.now }
{
    match which {
        NumberAttribute::DefSearchCard => a.def_search_card,
        NumberAttribute::MaxSearchCard => a.max_search_card,
        NumberAttribute::DefMatchCard => a.def_match_card,
        NumberAttribute::MaxMatchCard => a.max_match_card,
        NumberAttribute::DefReturnCard => a.def_return_card,
        NumberAttribute::MaxReturnCard => a.max_return_card,
        NumberAttribute::MaxList => a.max_list,
        NumberAttribute::DefHopCount => a.def_hop_count,
        NumberAttribute::MaxHopCount => a.max_hop_count,
    }
}

/// The value of an attribute that is a follow rule (interfaces ImportAttributes and LinkAttributes).
pub fn follow_of(which: FollowAttribute, a: &Attributes) -> FollowOption
    ensures { result ≡ follow_of which a.now }
{
    match which {
        FollowAttribute::DefFollowPolicy => a.def_follow_policy,
        FollowAttribute::MaxFollowPolicy => a.max_follow_policy,
        FollowAttribute::MaxLinkFollowPolicy => a.max_link_follow_policy,
    }
}

fn put_truth(which: TruthAttribute, value: bool, a: &mut Attributes)
    ensures { a.new ≡ with_truth which value a.old }
{
    match which {
        TruthAttribute::SupportsModifiableProperties => a.supports_modifiable_properties = value,
        TruthAttribute::SupportsDynamicProperties => a.supports_dynamic_properties = value,
        TruthAttribute::SupportsProxyOffers => a.supports_proxy_offers = value,
    }
}

fn put_number(which: NumberAttribute, value: u32, a: &mut Attributes)
    ensures { a.new ≡ with_number which value a.old }
{
    match which {
        NumberAttribute::DefSearchCard => a.def_search_card = value,
        NumberAttribute::MaxSearchCard => a.max_search_card = value,
        NumberAttribute::DefMatchCard => a.def_match_card = value,
        NumberAttribute::MaxMatchCard => a.max_match_card = value,
        NumberAttribute::DefReturnCard => a.def_return_card = value,
        NumberAttribute::MaxReturnCard => a.max_return_card = value,
        NumberAttribute::MaxList => a.max_list = value,
        NumberAttribute::DefHopCount => a.def_hop_count = value,
        NumberAttribute::MaxHopCount => a.max_hop_count = value,
    }
}

fn put_follow(which: FollowAttribute, value: FollowOption, a: &mut Attributes)
    ensures { a.new ≡ with_follow which value a.old }
{
    match which {
        FollowAttribute::DefFollowPolicy => a.def_follow_policy = value,
        FollowAttribute::MaxFollowPolicy => a.max_follow_policy = value,
        FollowAttribute::MaxLinkFollowPolicy => a.max_link_follow_policy = value,
    }
}

/// Sets a truth value, and answers the old one. Takes no memory.
///
/// # Errors
///
/// IMP_LIMIT where no more changes are accepted: no truth value is refused.
pub fn set_truth(
    store: &mut Store,
    full: bool,
    attribute: TruthAttribute,
    value: bool,
) -> Result<Accepted, Fault>
    ensures accepts { AcceptsChange (change.SetTruth attribute value)
        (unless_full full None (reply.Truth (truth_of attribute store.old.attributes))
        (set_attributes store.old (with_truth attribute value store.old.attributes)))
        store.old store.new result }
    ensures free { NeedsNone result }
{
    if full {
        return Err(Fault::Refused(Refusal::Limit));
    }
    let old = truth_of(attribute, &store.attributes);
    put_truth(attribute, value, &mut store.attributes);
    Ok(entry_of(
        Change::SetTruth { attribute, value },
        ChangeReply::truth(old),
    ))
}

/// Sets a number, and answers the old one. Takes no memory.
///
/// # Errors
///
/// IMP_LIMIT where no more changes are accepted: no number is refused.
pub fn set_number(
    store: &mut Store,
    full: bool,
    attribute: NumberAttribute,
    value: u32,
) -> Result<Accepted, Fault>
    ensures accepts { AcceptsChange (change.SetNumber attribute value)
        (unless_full full None (reply.Number (number_of attribute store.old.attributes))
        (set_attributes store.old (with_number attribute value store.old.attributes)))
        store.old store.new result }
    ensures free { NeedsNone result }
{
    if full {
        return Err(Fault::Refused(Refusal::Limit));
    }
    let old = number_of(attribute, &store.attributes);
    put_number(attribute, value, &mut store.attributes);
    Ok(entry_of(
        Change::SetNumber { attribute, value },
        ChangeReply::number(old),
    ))
}

/// Sets a rule for following links, and answers the old one. Takes no memory.
///
/// # Errors
///
/// IMP_LIMIT where no more changes are accepted: no rule is refused.
pub fn set_follow(
    store: &mut Store,
    full: bool,
    attribute: FollowAttribute,
    value: FollowOption,
) -> Result<Accepted, Fault>
    ensures accepts { AcceptsChange (change.SetFollow attribute value)
        (unless_full full None (reply.Follow (follow_of attribute store.old.attributes))
        (set_attributes store.old (with_follow attribute value store.old.attributes)))
        store.old store.new result }
    ensures free { NeedsNone result }
{
    if full {
        return Err(Fault::Refused(Refusal::Limit));
    }
    let old = follow_of(attribute, &store.attributes);
    put_follow(attribute, value, &mut store.attributes);
    Ok(entry_of(
        Change::SetFollow { attribute, value },
        ChangeReply::follow(old),
    ))
}

/// Sets the stem, and answers the old one.
///
/// # Errors
///
/// IMP_LIMIT above 64 octets, and where no more changes are accepted; `Memory` when out of memory.
pub fn set_request_id_stem(
    alloc: Global,
    store: &mut Store,
    full: bool,
    value: Octets,
) -> Result<Accepted, Fault>
    ensures { AcceptsChange (change.SetRequestIdStem value)
        (unless_full full (stem_cause value) (reply.Stem store.old.attributes.request_id_stem)
        (set_attributes store.old (with_stem value store.old.attributes))) store.old store.new
        result }
{
    if value.len() > LONGEST_STEM {
        return Err(Fault::Refused(Refusal::Limit));
    }
    if full {
        return Err(Fault::Refused(Refusal::Limit));
    }
    let stem = value.copy(alloc)?;
    let old = mem::replace(&mut store.attributes.request_id_stem, stem);
    Ok(entry_of(Change::SetRequestIdStem { value }, ChangeReply::stem(old)))
}

/// An attribute's value.
///
/// # Errors
///
/// `Memory` only when out of memory.
fn attribute_reply(alloc: Global, store: &Store, which: Attribute) -> Result<Reply, Memory>
    ensures { IfOk result (λ r. r ≡ attribute_reply store.now which) }
{
    match which {
        Attribute::Reference(which) => {
            Ok(Reply::Reference(reference_of(which, &store.attributes).copy(alloc)?))
        }
        Attribute::Truth(which) => Ok(Reply::Truth(truth_of(which, &store.attributes))),
        Attribute::Number(which) => Ok(Reply::Number(number_of(which, &store.attributes))),
        Attribute::Follow(which) => Ok(Reply::Follow(follow_of(which, &store.attributes))),
        Attribute::RequestIdStem => {
            Ok(Reply::Stem(store.attributes.request_id_stem.copy(alloc)?))
        }
        Attribute::Incarnation => Ok(Reply::Incarnation(halves(store.types.incarnation()))),
    }
}

/// An attribute is read.
///
/// # Errors
///
/// `Memory` only when out of memory.
#[tactic(auto, unfolding(crate::specs::Administration::get))]
pub fn get(alloc: Global, store: &Store, which: Attribute) -> Result<Outcome, Memory>
    ensures { IsOutcomeOrNoMemory (get store.now which) result }
{
    Ok(Outcome::Done(attribute_reply(alloc, store, which)?))
}
