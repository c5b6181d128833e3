//! The attributes of a trader and of its type repository (OMG's Trading Object Service, interfaces
//! TraderComponents, SupportAttributes, ImportAttributes, LinkAttributes, Admin and
//! ServiceTypeRepository), by the types of their values.

ghost use Rattle.std.specs.Prelude.{◌≡◌, ◌++◌, codes};
ghost use Rattle.td_ops.specs.Attributes.{attribute_name, follow_name, number_name, reference_name, truth_name};

use std::alloc::Global;
use td_cdr::{Memory, Twin};

/// An attribute whose value is a reference.
#[derive(Clone, Copy, PartialEq, Eq)]
pub enum ReferenceAttribute {
    LookupIf,
    RegisterIf,
    LinkIf,
    ProxyIf,
    AdminIf,
    TypeRepos,
}

/// An attribute whose value is a truth value.
#[derive(Clone, Copy, PartialEq, Eq)]
pub enum TruthAttribute {
    SupportsModifiableProperties,
    SupportsDynamicProperties,
    SupportsProxyOffers,
}

/// An attribute whose value is an unsigned long.
#[derive(Clone, Copy, PartialEq, Eq)]
pub enum NumberAttribute {
    DefSearchCard,
    MaxSearchCard,
    DefMatchCard,
    MaxMatchCard,
    DefReturnCard,
    MaxReturnCard,
    MaxList,
    DefHopCount,
    MaxHopCount,
}

/// An attribute whose value is a rule of following links.
#[derive(Clone, Copy, PartialEq, Eq)]
pub enum FollowAttribute {
    DefFollowPolicy,
    MaxFollowPolicy,
    MaxLinkFollowPolicy,
}

/// An attribute.
#[derive(Clone, Copy, PartialEq, Eq)]
pub enum Attribute {
    Reference(ReferenceAttribute),
    Truth(TruthAttribute),
    Number(NumberAttribute),
    Follow(FollowAttribute),
    /// What the identifiers of a trader's queries begin with.
    RequestIdStem,
    /// The number that the type repository gave last.
    Incarnation,
}

/// The name of the operation that reads an attribute.
pub(crate) fn reading_name(attribute: Attribute) -> &'static str
    ensures { result.now ≡ codes "_get_" ++ attribute_name attribute }
{
    match attribute {
        Attribute::Reference(reference) => reference_reading_name(reference),
        Attribute::Truth(truth) => truth_reading_name(truth),
        Attribute::Number(number) => number_reading_name(number),
        Attribute::Follow(follow) => follow_reading_name(follow),
        Attribute::RequestIdStem => "_get_request_id_stem",
        Attribute::Incarnation => "_get_incarnation",
    }
}

fn reference_reading_name(attribute: ReferenceAttribute) -> &'static str
    ensures { result.now ≡ codes "_get_" ++ reference_name attribute }
{
    match attribute {
        ReferenceAttribute::LookupIf => "_get_lookup_if",
        ReferenceAttribute::RegisterIf => "_get_register_if",
        ReferenceAttribute::LinkIf => "_get_link_if",
        ReferenceAttribute::ProxyIf => "_get_proxy_if",
        ReferenceAttribute::AdminIf => "_get_admin_if",
        ReferenceAttribute::TypeRepos => "_get_type_repos",
    }
}

fn truth_reading_name(attribute: TruthAttribute) -> &'static str
    ensures { result.now ≡ codes "_get_" ++ truth_name attribute }
{
    match attribute {
        TruthAttribute::SupportsModifiableProperties => "_get_supports_modifiable_properties",
        TruthAttribute::SupportsDynamicProperties => "_get_supports_dynamic_properties",
        TruthAttribute::SupportsProxyOffers => "_get_supports_proxy_offers",
    }
}

fn number_reading_name(attribute: NumberAttribute) -> &'static str
    ensures { result.now ≡ codes "_get_" ++ number_name attribute }
{
    match attribute {
        NumberAttribute::DefSearchCard => "_get_def_search_card",
        NumberAttribute::MaxSearchCard => "_get_max_search_card",
        NumberAttribute::DefMatchCard => "_get_def_match_card",
        NumberAttribute::MaxMatchCard => "_get_max_match_card",
        NumberAttribute::DefReturnCard => "_get_def_return_card",
        NumberAttribute::MaxReturnCard => "_get_max_return_card",
        NumberAttribute::MaxList => "_get_max_list",
        NumberAttribute::DefHopCount => "_get_def_hop_count",
        NumberAttribute::MaxHopCount => "_get_max_hop_count",
    }
}

fn follow_reading_name(attribute: FollowAttribute) -> &'static str
    ensures { result.now ≡ codes "_get_" ++ follow_name attribute }
{
    match attribute {
        FollowAttribute::DefFollowPolicy => "_get_def_follow_policy",
        FollowAttribute::MaxFollowPolicy => "_get_max_follow_policy",
        FollowAttribute::MaxLinkFollowPolicy => "_get_max_link_follow_policy",
    }
}

/// The name of the operation that sets an attribute.
pub(crate) fn truth_setting_name(attribute: TruthAttribute) -> &'static str
    ensures { result.now ≡ codes "set_" ++ truth_name attribute }
{
    match attribute {
        TruthAttribute::SupportsModifiableProperties => "set_supports_modifiable_properties",
        TruthAttribute::SupportsDynamicProperties => "set_supports_dynamic_properties",
        TruthAttribute::SupportsProxyOffers => "set_supports_proxy_offers",
    }
}

/// The name of the operation that sets an attribute.
pub(crate) fn number_setting_name(attribute: NumberAttribute) -> &'static str
    ensures { result.now ≡ codes "set_" ++ number_name attribute }
{
    match attribute {
        NumberAttribute::DefSearchCard => "set_def_search_card",
        NumberAttribute::MaxSearchCard => "set_max_search_card",
        NumberAttribute::DefMatchCard => "set_def_match_card",
        NumberAttribute::MaxMatchCard => "set_max_match_card",
        NumberAttribute::DefReturnCard => "set_def_return_card",
        NumberAttribute::MaxReturnCard => "set_max_return_card",
        NumberAttribute::MaxList => "set_max_list",
        NumberAttribute::DefHopCount => "set_def_hop_count",
        NumberAttribute::MaxHopCount => "set_max_hop_count",
    }
}

/// The name of the operation that sets an attribute.
pub(crate) fn follow_setting_name(attribute: FollowAttribute) -> &'static str
    ensures { result.now ≡ codes "set_" ++ follow_name attribute }
{
    match attribute {
        FollowAttribute::DefFollowPolicy => "set_def_follow_policy",
        FollowAttribute::MaxFollowPolicy => "set_max_follow_policy",
        FollowAttribute::MaxLinkFollowPolicy => "set_max_link_follow_policy",
    }
}
