//! Attributes that are set.

ghost use Rattle.std.specs.Prelude.{◌≡◌, codes};
ghost use Rattle.td_cdr.specs.Format.{value_named};
ghost use Rattle.td_lines.specs.Causes.{ParsesLine};
ghost use Rattle.td_lines.specs.Settings.{follow_change, number_change, setting_name, parse_setting, settings};
ghost use Rattle.td_lines.specs.Settings.{change_to, truth_change};
ghost use Rattle.td_ops.specs.Attributes.{follow_name, number_name, truth_name};

use crate::cause::{LineCause, Misfit};
use td_cdr::{Named, find_named};
use td_forms::{rule_named, truth_named};
use td_ior::number_up_to;
use td_ops::{Change, FollowAttribute, NumberAttribute, TruthAttribute};

/// An attribute that a file may set.
#[derive(Clone, Copy)]
enum Setting {
    Truth(TruthAttribute),
    Number(NumberAttribute),
    Follow(FollowAttribute),
}

fn truth_name(attribute: TruthAttribute) -> &'static str
    ensures { result.now ≡ truth_name attribute }
{
    match attribute {
        TruthAttribute::SupportsModifiableProperties => "supports_modifiable_properties",
        TruthAttribute::SupportsDynamicProperties => "supports_dynamic_properties",
        TruthAttribute::SupportsProxyOffers => "supports_proxy_offers",
    }
}

fn number_name(attribute: NumberAttribute) -> &'static str
    ensures { result.now ≡ number_name attribute }
{
    match attribute {
        NumberAttribute::DefSearchCard => "def_search_card",
        NumberAttribute::MaxSearchCard => "max_search_card",
        NumberAttribute::DefMatchCard => "def_match_card",
        NumberAttribute::MaxMatchCard => "max_match_card",
        NumberAttribute::DefReturnCard => "def_return_card",
        NumberAttribute::MaxReturnCard => "max_return_card",
        NumberAttribute::MaxList => "max_list",
        NumberAttribute::DefHopCount => "def_hop_count",
        NumberAttribute::MaxHopCount => "max_hop_count",
    }
}

fn follow_name(attribute: FollowAttribute) -> &'static str
    ensures { result.now ≡ follow_name attribute }
{
    match attribute {
        FollowAttribute::DefFollowPolicy => "def_follow_policy",
        FollowAttribute::MaxFollowPolicy => "max_follow_policy",
        FollowAttribute::MaxLinkFollowPolicy => "max_link_follow_policy",
    }
}

impl Named for Setting {
    ghost name_of = { setting_name };

    fn name(self) -> &'static [u8] {
        match self {
            Setting::Truth(attribute) => truth_name(attribute).as_bytes(),
            Setting::Number(attribute) => number_name(attribute).as_bytes(),
            Setting::Follow(attribute) => follow_name(attribute).as_bytes(),
        }
    }
}

fn setting_named(word: &[u8]) -> Option<Setting>
    ensures { result ≡ value_named setting_name settings word.now }
{
    find_named(
        &[
            Setting::Truth(TruthAttribute::SupportsModifiableProperties),
            Setting::Truth(TruthAttribute::SupportsDynamicProperties),
            Setting::Truth(TruthAttribute::SupportsProxyOffers),
            Setting::Number(NumberAttribute::DefSearchCard),
            Setting::Number(NumberAttribute::MaxSearchCard),
            Setting::Number(NumberAttribute::DefMatchCard),
            Setting::Number(NumberAttribute::MaxMatchCard),
            Setting::Number(NumberAttribute::DefReturnCard),
            Setting::Number(NumberAttribute::MaxReturnCard),
            Setting::Number(NumberAttribute::MaxList),
            Setting::Number(NumberAttribute::DefHopCount),
            Setting::Number(NumberAttribute::MaxHopCount),
            Setting::Follow(FollowAttribute::DefFollowPolicy),
            Setting::Follow(FollowAttribute::MaxFollowPolicy),
            Setting::Follow(FollowAttribute::MaxLinkFollowPolicy),
        ],
        word,
    )
}

fn truth_change(attribute: TruthAttribute, value: &[u8]) -> Option<Change>
    ensures { result ≡ truth_change attribute value.now }
{
    match truth_named(value) {
        Some(value) => Some(Change::SetTruth { attribute, value }),
        None => None,
    }
}

fn number_change(attribute: NumberAttribute, value: &[u8]) -> Option<Change>
    ensures { result ≡ number_change attribute value.now }
{
    match number_up_to(value, 4294967295) {
        Some(value) => Some(Change::SetNumber {
            attribute,
            value: value as u32,
        }),
        None => None,
    }
}

fn follow_change(attribute: FollowAttribute, value: &[u8]) -> Option<Change>
    ensures { result ≡ follow_change attribute value.now }
{
    match rule_named(value) {
        Some(value) => Some(Change::SetFollow { attribute, value }),
        None => None,
    }
}

/// The change that sets an attribute to the value that a word spells.
fn change_to(setting: Setting, value: &[u8]) -> Option<Change>
    ensures { result ≡ change_to setting value.now }
{
    match setting {
        Setting::Truth(attribute) => truth_change(attribute, value),
        Setting::Number(attribute) => number_change(attribute, value),
        Setting::Follow(attribute) => follow_change(attribute, value),
    }
}

/// The change that a `set` line asks for.
pub(crate) fn parse_setting(attribute: &[u8], value: &[u8]) -> Result<Change, Misfit>
    ensures { ParsesLine (parse_setting attribute.now value.now) result }
{
    let Some(setting) = setting_named(attribute) else {
        return Err(Misfit::Is(LineCause::Name));
    };
    match change_to(setting, value) {
        Some(change) => Ok(change),
        None => Err(Misfit::Is(LineCause::Value)),
    }
}
