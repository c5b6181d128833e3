//! The policies that a query's options come to.

ghost use Rattle.std.specs.Prelude.{◌≡◌, OnOk};
ghost use Rattle.td_cli_request.specs.Forms.{ParsesTo};
ghost use Rattle.td_cli_request.specs.Policies.{options_in, policies_in, with_exact, with_follow, with_hops, with_id};
ghost use Rattle.td_cli_request.specs.Policies.{with_options};
ghost use Rattle.td_cli_args.specs.Wishes.{asked_query};

use crate::fault::AskFault;
use crate::given::{number_given, octets_given, rule_given};
use std::alloc::Global;
use td_cdr::{List, Memory, Octets};
use td_cli_args::QueryWords;
use td_policy::{number_policy, octets_policy, rule_policy, truth_policy};
use td_value::{FollowOption, Policy};

/// The options of a query that have a value.
#[derive(Drop)]
pub(crate) struct Options {
    pub(crate) hops: Option<u32>,
    pub(crate) follow: Option<FollowOption>,
    pub(crate) id: Option<Octets>,
}

/// The options, in their forms.
fn parse_options(alloc: Global, words: &QueryWords<'_>) -> Result<Options, AskFault>
    ensures { ParsesTo (options_in (asked_query words.now)) result }
{
    let hops = number_given(words.hops)?;
    let follow = rule_given(words.follow)?;
    let id = octets_given(alloc, words.id)?;
    Ok(Options { hops, follow, id })
}

fn put_exact(alloc: Global, policies: &mut List<Policy>, exact: bool) -> Result<(), Memory>
    ensures { OnOk result (policies.new ≡ with_exact exact policies.old) }
{
    if exact {
        policies.push(truth_policy(alloc, b"exact_type_match", true)?)?;
    }
    Ok(())
}

fn put_hops(alloc: Global, policies: &mut List<Policy>, hops: Option<u32>) -> Result<(), Memory>
    ensures { OnOk result (policies.new ≡ with_hops hops policies.old) }
{
    match hops {
        Some(hops) => policies.push(number_policy(alloc, b"hop_count", hops)?),
        None => Ok(()),
    }
}

fn put_follow(
    alloc: Global,
    policies: &mut List<Policy>,
    follow: Option<FollowOption>,
) -> Result<(), Memory>
    ensures { OnOk result (policies.new ≡ with_follow follow policies.old) }
{
    match follow {
        Some(rule) => policies.push(rule_policy(alloc, b"link_follow_rule", rule)?),
        None => Ok(()),
    }
}

fn put_id(alloc: Global, policies: &mut List<Policy>, id: &Option<Octets>) -> Result<(), Memory>
    ensures { OnOk result (policies.new ≡ with_id id.now policies.old) }
{
    match id {
        Some(id) => policies.push(octets_policy(alloc, b"request_id", id.as_slice())?),
        None => Ok(()),
    }
}

/// Puts the policies behind these, each only where its option is given.
fn put_policies(
    alloc: Global,
    policies: &mut List<Policy>,
    exact: bool,
    options: &Options,
) -> Result<(), Memory>
    ensures { OnOk result (policies.new ≡ with_options exact options.now policies.old) }
{
    put_exact(alloc, policies, exact)?;
    put_hops(alloc, policies, options.hops)?;
    put_follow(alloc, policies, options.follow)?;
    put_id(alloc, policies, &options.id)
}

/// The policies of a query.
pub(crate) fn parse_policies(
    alloc: Global,
    words: &QueryWords<'_>,
) -> Result<List<Policy>, AskFault>
    ensures { ParsesTo (policies_in (asked_query words.now)) result }
{
    let options = parse_options(alloc, words)?;
    let mut policies = List::new(alloc);
    match put_policies(alloc, &mut policies, words.exact, &options) {
        Ok(()) => Ok(policies),
        Err(_) => Err(AskFault::Memory),
    }
}
