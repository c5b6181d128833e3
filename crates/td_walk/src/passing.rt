//! The policies that are passed on (OMG's Trading Object Service, "Policies", "Link Follow Behavior" and interface
//! Proxy, policies_to_pass_on).

ghost use Rattle.std.specs.Prelude.{◌≡◌, ◌-◌, codes, option_copied, option_map, IfOk, OnOk};
ghost use Rattle.std.specs.List.{position};
ghost use Rattle.td_value.specs.Enumerations.{follow_option_number};
ghost use Rattle.td_policy.specs.Values.{rule, rule_numbered};
ghost use Rattle.td_walk.specs.Passing.{is_named, policy_named, with_policy, with_optional, without_policy};
ghost use Rattle.td_walk.specs.Passing.{follow_policy, identifier_policy, card_policy, with_search_policies};
ghost use Rattle.td_walk.specs.Passing.{along_path};
ghost use Rattle.td_walk.specs.Passing.{number_in, follow_in, is_less, states_less, stands, with_passed};
ghost use Rattle.td_walk.specs.Passing.{with_all_passed};

use std::alloc::Global;
use td_cdr::{List, Memory, Octets, Text, Twin};
use td_policy::{is_rule, number_policy, octets_policy, rule_policy, texts_policy};
use td_sameness::same_tree;
use td_value::{FollowOption, Policy, TypeCode, Value};

/// How many policies are put to those of a query at most.
const MOST_PUT: usize = 4;

fn is_named(policy: &Policy, name: &[u8]) -> bool
    ensures { result ≡ is_named name.now policy.now }
{
    policy.name.as_slice() == name
}

fn place_named(policies: &[Policy], name: &[u8]) -> Option<usize>
    ensures { result ≡ position (is_named name.now) policies.now }
{
    policies.iter().position(|policy| is_named(policy, name))
}

/// Puts the policy in the place of the one of its name, or else at the end.
#[tactic(auto, using(crate::proofs::Replacing::at_its_place, crate::proofs::Replacing::at_the_end))]
fn put(policies: &mut Vec<Policy>, policy: Policy) -> Result<(), Memory>
    ensures { OnOk result (policies.new.items ≡ with_policy policy policies.old.items) }
{
    match place_named(policies.as_slice(), policy.name.as_slice()) {
        Some(place) => {
            policies[place] = policy;
            Ok(())
        }
        None => {
            policies.push(policy)?;
            Ok(())
        }
    }
}

/// Copies of the policies that haven't this name.
pub(crate) fn copies_without(
    alloc: Global,
    policies: &[Policy],
    name: &[u8],
) -> Result<Vec<Policy>, Memory>
    ensures { IfOk result (λ others. others.items ≡ without_policy name.now policies.now) }
{
    let mut others = Vec::with_capacity(alloc, policies.len() + MOST_PUT)?;
    for policy in policies {
        if !is_named(policy, name) {
            others.push(policy.copy(alloc)?)?;
        }
    }
    Ok(others)
}

fn put_follow(
    alloc: Global,
    policies: &mut Vec<Policy>,
    follow: Option<FollowOption>,
) -> Result<(), Memory>
    ensures { OnOk result (policies.new.items
        ≡ with_optional (option_map follow_policy follow) policies.old.items) }
{
    match follow {
        None => Ok(()),
        Some(follow) => put(policies, rule_policy(alloc, b"link_follow_rule", follow)?),
    }
}

fn put_identifier(
    alloc: Global,
    policies: &mut Vec<Policy>,
    identifier: &Option<Octets>,
) -> Result<(), Memory>
    ensures { OnOk result
        (policies.new.items ≡ with_optional (option_map identifier_policy identifier.now)
        policies.old.items) }
{
    match identifier {
        None => Ok(()),
        Some(identifier) => put(
            policies,
            octets_policy(alloc, b"request_id", identifier.as_slice())?,
        ),
    }
}

fn put_card(alloc: Global, policies: &mut Vec<Policy>, wanted: Option<u32>) -> Result<(), Memory>
    ensures { OnOk result (policies.new.items
        ≡ with_optional (option_map card_policy wanted) policies.old.items) }
{
    match wanted {
        None => Ok(()),
        Some(offers) => put(policies, number_policy(alloc, b"return_card", offers)?),
    }
}

/// The policies that go over a link or to a proxy offer's trader: one hop is taken, a rule is stated where there is
/// one, the identifier is the search's, and where so many offers are still wanted, no more are to be returned. A start
/// elsewhere isn't passed on.
///
/// # Errors
///
/// `Memory` only when out of memory.
pub(crate) fn with_search_policies(
    alloc: Global,
    hops: u32,
    follow: Option<FollowOption>,
    identifier: &Option<Octets>,
    wanted: Option<u32>,
    policies: &[Policy],
) -> Result<Vec<Policy>, Memory>
    ensures { IfOk result (λ passed. passed.items
        ≡ with_search_policies hops follow identifier.now wanted policies.now) }
{
    let mut passed = copies_without(alloc, policies, b"starting_trader")?;
    put(
        &mut passed,
        number_policy(alloc, b"hop_count", hops.saturating_sub(1))?,
    )?;
    put_follow(alloc, &mut passed, follow)?;
    put_identifier(alloc, &mut passed, identifier)?;
    put_card(alloc, &mut passed, wanted)?;
    Ok(passed)
}

/// The policies that go along a path on which these names are left.
///
/// # Errors
///
/// `Memory` only when out of memory.
pub(crate) fn along_path(
    alloc: Global,
    left: &[Text],
    policies: &List<Policy>,
) -> Result<Vec<Policy>, Memory>
    ensures { IfOk result (λ passed. passed.items ≡ along_path left.now policies.now) }
{
    if left.is_empty() {
        return copies_without(alloc, policies.as_slice(), b"starting_trader");
    }
    let mut passed = policies.copy(alloc)?.into_vec();
    put(&mut passed, texts_policy(alloc, b"starting_trader", left)?)?;
    Ok(passed)
}

fn number_in(policy: &Policy) -> Option<u32>
    ensures { result ≡ number_in policy.now }
{
    if !same_tree(&policy.value.code, &TypeCode::ULong) {
        return None;
    }
    match &policy.value.value {
        Value::ULong(n) => Some(*n),
        _ => None,
    }
}

/// The number of a rule.
fn rule_number(n: u32) -> Option<u32>
    ensures { result ≡ option_map follow_option_number (rule_numbered n) }
{
    match n {
        0 => Some(0),
        1 => Some(1),
        2 => Some(2),
        _ => None,
    }
}

fn follow_number(value: &Value) -> Option<u32>
    ensures { result ≡ option_map follow_option_number (rule.value_of value.now) }
{
    match value {
        Value::Enum(n) => rule_number(*n),
        _ => None,
    }
}

fn follow_in(alloc: Global, policy: &Policy) -> Result<Option<u32>, Memory>
    ensures { IfOk result (λ n. n ≡ follow_in policy.now) }
{
    if !is_rule(alloc, &policy.value.code)? {
        return Ok(None);
    }
    Ok(follow_number(&policy.value.value))
}

/// Whether the left one is less; what states no number counts as less.
fn is_less(left: Option<u32>, right: Option<u32>) -> bool
    ensures { result ≡ is_less left right }
{
    match (left, right) {
        (None, _) => true,
        (Some(_), None) => false,
        (Some(m), Some(n)) => m < n,
    }
}

fn policy_named<'a>(policies: &'a [Policy], name: &[u8]) -> Option<&'a Policy>
    ensures { option_copied result ≡ policy_named policies.now name.now }
{
    policies.iter().find(|policy| is_named(policy, name))
}

/// Whether a hop count stands that is less than this policy's.
fn has_fewer_hops(policies: &[Policy], policy: &Policy) -> bool
    ensures { result ≡ states_less number_in (policy_named policies.now (codes "hop_count"))
        policy.now }
{
    match policy_named(policies, b"hop_count") {
        None => false,
        Some(earlier) => is_less(number_in(earlier), number_in(policy)),
    }
}

/// Whether fewer offers are wanted than this policy states.
fn wants_fewer(policies: &[Policy], policy: &Policy) -> bool
    ensures { result ≡ states_less number_in (policy_named policies.now (codes "return_card"))
        policy.now }
{
    match policy_named(policies, b"return_card") {
        None => false,
        Some(earlier) => is_less(number_in(earlier), number_in(policy)),
    }
}

/// Whether a rule stands that permits less than this policy's.
fn follows_less(alloc: Global, policies: &[Policy], policy: &Policy) -> Result<bool, Memory>
    ensures { IfOk result (λ less.
        less ≡ states_less follow_in (policy_named policies.now (codes "link_follow_rule"))
        policy.now) }
{
    match policy_named(policies, b"link_follow_rule") {
        None => Ok(false),
        Some(earlier) => Ok(is_less(follow_in(alloc, earlier)?, follow_in(alloc, policy)?)),
    }
}

/// Whether the policy is left out, since one stands that it may not replace.
fn stands(
    alloc: Global,
    limited: bool,
    policies: &[Policy],
    policy: &Policy,
) -> Result<bool, Memory>
    ensures { IfOk result (λ so. so ≡ stands limited policies.now policy.now) }
{
    if is_named(policy, b"request_id") {
        Ok(true)
    } else if is_named(policy, b"hop_count") {
        Ok(has_fewer_hops(policies, policy))
    } else if is_named(policy, b"link_follow_rule") {
        follows_less(alloc, policies, policy)
    } else if limited && is_named(policy, b"return_card") {
        Ok(wants_fewer(policies, policy))
    } else {
        Ok(false)
    }
}

fn put_passed(
    alloc: Global,
    limited: bool,
    policies: &mut Vec<Policy>,
    policy: &Policy,
) -> Result<(), Memory>
    ensures { OnOk result (policies.new.items ≡ with_passed limited policies.old.items policy.now) }
{
    if stands(alloc, limited, policies.as_slice(), policy)? {
        return Ok(());
    }
    put(policies, policy.copy(alloc)?)
}

/// Puts a proxy offer's policies to those of a sub-query; where the offers that are wanted are limited, that limit may
/// only fall.
///
/// # Errors
///
/// `Memory` only when out of memory.
pub(crate) fn put_all_passed(
    alloc: Global,
    limited: bool,
    policies: &mut Vec<Policy>,
    passed: &[Policy],
) -> Result<(), Memory>
    ensures { OnOk result (policies.new.items
        ≡ with_all_passed limited passed.now policies.old.items) }
{
    for policy in passed {
        put_passed(alloc, limited, policies, policy)?;
    }
    Ok(())
}
