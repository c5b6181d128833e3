//! The cardinalities and the hop count that a query is served with.

ghost use Rattle.std.specs.Prelude.{◌≡◌, ◌++◌, option_map, IfOk, OnOk};
ghost use Rattle.td_value.specs.Enumerations.{follow_option_number};
ghost use Rattle.td_policy.specs.Effective.{effective_number, above, over_maximum, effective_of};

use crate::attributes::Attributes;
use crate::stated::Stated;
use std::alloc::Global;
use td_cdr::{List, Memory, Text, Twin};
use td_value::FollowOption;

/// The cardinalities and the hop count that a query is served with.
pub struct Effective {
    /// Over how many links the query goes at most.
    pub hops: u32,
    /// How many offers are matched at most.
    pub match_card: u32,
    /// How many offers are returned at most.
    pub return_card: u32,
    /// How many offers are searched at most.
    pub search_card: u32,
    /// The names of the policies whose stated value is above the trader's maximum, in the order
    /// hop_count, link_follow_rule, match_card, return_card, search_card.
    pub over: List<Text>,
}

// By hand, since a derived drop is written out at each exit, and proved again in each crate above.
impl Drop for Effective {
    fn drop(self) {
        let Effective {
            hops: _hops,
            match_card: _match_card,
            return_card: _return_card,
            search_card: _search_card,
            over: _over,
        } = self;
    }
}

/// The cardinalities and the hop count that a query is served with: of each the lesser of the
/// trader's maximum and the stated value, or of the maximum and the default where none is stated.
///
/// # Errors
///
/// `Memory` only when out of memory.
pub fn effective_of(
    alloc: Global,
    stated: &Stated,
    attributes: &Attributes,
) -> Result<Effective, Memory>
    ensures { IfOk result (λ e. e ≡ effective_of stated.now attributes.now) }
{
    let a = attributes;
    let over = over_maximum(alloc, stated, a)?;
    Ok(Effective {
        hops: effective_number(stated.hops, a.def_hop_count, a.max_hop_count),
        match_card: effective_number(stated.match_card, a.def_match_card, a.max_match_card),
        return_card: effective_number(stated.return_card, a.def_return_card, a.max_return_card),
        search_card: effective_number(stated.search_card, a.def_search_card, a.max_search_card),
        over,
    })
}

/// The lesser of the maximum and the stated value, or the default where none is stated.
fn effective_number(stated: Option<u32>, default: u32, maximum: u32) -> u32
    ensures { result ≡ effective_number stated default maximum }
{
    stated.unwrap_or(default).min(maximum)
}

/// The names of the policies that are stated above their maximum.
fn over_maximum(alloc: Global, s: &Stated, a: &Attributes) -> Result<List<Text>, Memory>
    ensures { IfOk result (λ names. names ≡ over_maximum s.now a.now) }
{
    let mut over = List::new(alloc);
    name_above(alloc, &mut over, b"hop_count", s.hops, a.max_hop_count)?;
    let most = a.max_follow_policy.number();
    name_above(
        alloc,
        &mut over,
        b"link_follow_rule",
        number_of(s.follow),
        most,
    )?;
    name_above(
        alloc,
        &mut over,
        b"match_card",
        s.match_card,
        a.max_match_card,
    )?;
    name_above(
        alloc,
        &mut over,
        b"return_card",
        s.return_card,
        a.max_return_card,
    )?;
    name_above(
        alloc,
        &mut over,
        b"search_card",
        s.search_card,
        a.max_search_card,
    )?;
    Ok(over)
}

/// The number of the rule, where there is one.
fn number_of(rule: Option<FollowOption>) -> Option<u32>
    ensures { result ≡ option_map follow_option_number rule }
{
    match rule {
        None => None,
        Some(rule) => Some(rule.number()),
    }
}

/// Adds the policy's name where a value is stated that is above the maximum.
fn name_above(
    alloc: Global,
    names: &mut List<Text>,
    name: &[u8],
    stated: Option<u32>,
    maximum: u32,
) -> Result<(), Memory>
    ensures { OnOk result (names.new ≡ names.old ++ above name.now stated maximum) }
{
    match stated {
        None => Ok(()),
        Some(n) => {
            if maximum < n {
                names.push(Text::from_slice(alloc, name)?)
            } else {
                Ok(())
            }
        }
    }
}
