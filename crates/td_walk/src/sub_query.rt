//! The queries that a trader passes on (OMG's Trading Object Service, "Link Follow Behavior", starting_trader and
//! interface Proxy).

ghost use Rattle.std.specs.Prelude.{◌≡◌, ℕ, ◌-◌, None, Some, option_map, IfOk};
ghost use Rattle.td_walk.specs.Passing.{along_path};
ghost use Rattle.td_walk.specs.SubQueries.{passed_preference, sub_query_with, path_left, path_query, link_query};
ghost use Rattle.td_walk.specs.SubQueries.{lets_follow};
ghost use Rattle.td_walk.specs.SubQueries.{has_hops, follows, stated_rule, proxy_query};
ghost use Rattle.td_walk.specs.SubQueries.{keeps_order, wanted_behind, is_full};

use crate::passing::{along_path, copies_without, put_all_passed, with_search_policies};
use std::alloc::Global;
use td_cdr::{List, Memory, Text, Twin};
use td_lang::Preference;
use td_ops::Query;
use td_policy::{follow, lesser, pass_on};
use td_store::{LinkRecord, Local, ProxyPart};
use td_value::{FollowOption, Policy, SpecifiedProps};

/// How many offers a sub-query asks for at once.
const ASKED_AT_ONCE: u32 = 1000;

/// The preference that is passed on: random offers are drawn where the query began.
fn passed_preference(alloc: Global, preference: &Preference, text: &Text) -> Result<Text, Memory>
    ensures { IfOk result (λ sub_query_with. sub_query_with
        ≡ passed_preference preference.now text.now) }
{
    match preference {
        Preference::Random => Text::from_slice(alloc, b"first"),
        _ => text.copy(alloc),
    }
}

/// The query with a constraint and these policies, for all properties.
fn sub_query_with(
    alloc: Global,
    local: &Local,
    constraint: Text,
    policies: Vec<Policy>,
) -> Result<Query, Memory>
    ensures { IfOk result (λ query. query ≡ sub_query_with local.now constraint policies.items) }
{
    let service_type = local.query.service_type.copy(alloc)?;
    let preference = passed_preference(alloc, &local.preference, &local.query.preference)?;
    Ok(Query {
        service_type,
        constraint,
        preference,
        policies: List::from_vec(policies),
        desired: SpecifiedProps::All,
        how_many: ASKED_AT_ONCE,
    })
}

/// The policies that go along a path, from the names of starting_trader.
fn path_policies(
    alloc: Global,
    start: &Option<List<Text>>,
    policies: &List<Policy>,
) -> Result<Vec<Policy>, Memory>
    ensures { IfOk result (λ sub_query_with. sub_query_with.items
        ≡ along_path (path_left start.now) policies.now) }
{
    let Some(names) = start else {
        return copies_without(alloc, policies.as_slice(), b"starting_trader");
    };
    match names.as_slice().split_first() {
        None => copies_without(alloc, policies.as_slice(), b"starting_trader"),
        Some((_first, left)) => along_path(alloc, left, policies),
    }
}

/// The query that goes along a path: the names of starting_trader behind the first are left, and every other
/// policy is as it was stated.
///
/// # Errors
///
/// `Memory` only when out of memory.
#[tactic(auto, unfolding(crate::specs::SubQueries::path_query))]
pub fn sub_query_for_path(alloc: Global, local: &Local) -> Result<Query, Memory>
    ensures { IfOk result (λ query. query ≡ path_query local.now) }
{
    let policies = path_policies(alloc, &local.stated.start, &local.query.policies)?;
    let constraint = local.query.constraint.copy(alloc)?;
    sub_query_with(alloc, local, constraint, policies)
}

/// Whether the offers are in the order in which they are gathered.
fn keeps_order(preference: &Preference) -> bool
    ensures { result ≡ keeps_order preference.now }
{
    matches!(preference, Preference::Empty | Preference::First)
}

/// What is left of a number of offers behind so many.
fn left_of(most: u32, offers: usize) -> u32
    ensures { result ≡ most - offers }
{
    match u32::try_from(offers) {
        Ok(offers) => most.saturating_sub(offers),
        Err(_) => 0,
    }
}

/// How many offers are still wanted once so many are gathered; where they get another order than that of gathering, all
/// that there are. Takes no memory.
pub fn wanted_behind(local: &Local, gathered: usize) -> Option<u32>
    ensures { result ≡ wanted_behind local.now gathered }
{
    if keeps_order(&local.preference) {
        Some(left_of(local.effective.return_card, gathered))
    } else {
        None
    }
}

/// How many offers are still wanted behind so many more. Takes no memory.
pub fn fewer_wanted(wanted: Option<u32>, offers: usize) -> Option<u32>
    ensures { result ≡ option_map (λ n. n - offers) wanted }
{
    match wanted {
        None => None,
        Some(most) => Some(left_of(most, offers)),
    }
}

/// Whether enough offers are there.
pub fn is_full(wanted: Option<u32>) -> bool
    ensures { result ≡ is_full wanted }
{
    wanted == Some(0)
}

/// The query that goes over a link: with one hop less, the rule that is passed on, the search's identifier, and the
/// number of offers that are still wanted, where that is limited.
///
/// # Errors
///
/// `Memory` only when out of memory.
#[tactic(auto, unfolding(crate::specs::SubQueries::link_query))]
pub fn sub_query_for_link(
    alloc: Global,
    local: &Local,
    wanted: Option<u32>,
    link: &LinkRecord,
) -> Result<Query, Memory>
    ensures { IfOk result (λ query. query ≡ link_query local.now wanted link.now) }
{
    let rule = pass_on(
        &local.stated,
        &local.attributes,
        link.limiting,
        link.def_pass_on,
    );
    let policies = with_search_policies(
        alloc,
        local.effective.hops,
        Some(rule),
        &local.identifier,
        wanted,
        local.query.policies.as_slice(),
    )?;
    let constraint = local.query.constraint.copy(alloc)?;
    sub_query_with(alloc, local, constraint, policies)
}

/// The rule that is passed on where one is stated.
fn stated_rule(stated: Option<FollowOption>, maximum: FollowOption) -> Option<FollowOption>
    ensures { result ≡ stated_rule stated maximum }
{
    match stated {
        None => None,
        Some(rule) => Some(lesser(rule, maximum)),
    }
}

/// The query that goes to a proxy offer's trader, with the constraint that the recipe made: with one hop less, a
/// rule where one is stated, the search's identifier, the number of offers that are still wanted, where that is
/// limited, and what the proxy offer passes on.
///
/// # Errors
///
/// `Memory` only when out of memory.
#[tactic(auto, unfolding(crate::specs::SubQueries::proxy_query))]
pub fn sub_query_for_proxy(
    alloc: Global,
    local: &Local,
    wanted: Option<u32>,
    part: &ProxyPart,
    constraint: Text,
) -> Result<Query, Memory>
    ensures { IfOk result (λ query. query ≡ proxy_query local.now wanted part.now constraint) }
{
    let rule = stated_rule(local.stated.follow, local.attributes.max_follow_policy);
    let mut policies = with_search_policies(
        alloc,
        local.effective.hops,
        rule,
        &local.identifier,
        wanted,
        local.query.policies.as_slice(),
    )?;
    put_all_passed(
        alloc,
        wanted.is_some(),
        &mut policies,
        part.policies.as_slice(),
    )?;
    sub_query_with(alloc, local, constraint, policies)
}

/// Whether a link's rule lets it be followed: `if_no_local` where no ordinary offer matched.
fn lets_follow(local_match: bool, rule: FollowOption) -> bool
    ensures { result ≡ lets_follow local_match rule }
{
    match rule {
        FollowOption::LocalOnly => false,
        FollowOption::IfNoLocal => !local_match,
        FollowOption::Always => true,
    }
}

/// Whether the query may go over a link or to a proxy offer's trader.
pub fn has_hops(local: &Local) -> bool
    ensures { result ≡ has_hops local.now }
{
    local.effective.hops > 0
}

/// Whether the link is followed: there are hops, and its rule lets it. Takes no memory.
pub fn follows(local: &Local, local_match: bool, link: &LinkRecord) -> bool
    ensures { result ≡ follows local.now local_match link.now }
{
    has_hops(local)
        && lets_follow(
            local_match,
            follow(&local.stated, &local.attributes, link.limiting),
        )
}
