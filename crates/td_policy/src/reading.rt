//! What an importer states by its policies (OMG's Trading Object Service, "Policies").

ghost use Rattle.std.specs.Prelude.{◌≡◌};
ghost use Rattle.td_cdr.specs.Format.{Computes};
ghost use Rattle.td_policy.specs.Faults.{is_memory, LeavesValue};
ghost use Rattle.td_policy.specs.Stated.{nothing, stated, with_policy};

use crate::fault::PolicyFault;
use crate::stated::Stated;
use crate::values::{put_number, put_octets, put_rule, put_texts, put_truth};
use std::alloc::Global;
use td_cdr::{List, Twin, is_identifier, nothing_seen, see};
use td_value::Policy;

/// What an importer states by its policies. A policy whose name is legal and unknown states nothing.
///
/// # Errors
///
/// That of the first policy that is bad, the causes of one policy in this order: `IllegalPolicyName`,
/// where its name is no identifier; `DuplicatePolicyName`, where an earlier policy has its name;
/// `PolicyTypeMismatch`, where its value's type isn't the same as the policy's;
/// `InvalidPolicyValue`, for more than 64 names in starting_trader, more than 256 octets in
/// request_id, and a value that isn't of its own type. `Memory` when out of memory.
pub fn read_policies(alloc: Global, policies: &List<Policy>) -> Result<Stated, PolicyFault>
    ensures { Computes is_memory (λ s. s) result (stated policies.now) }
{
    let mut seen = nothing_seen(alloc);
    let mut stated = states_nothing();
    for policy in policies.as_slice() {
        if !is_identifier(policy.name.as_slice()) {
            return Err(PolicyFault::IllegalPolicyName(policy.name.copy(alloc)?));
        }
        if !see(&mut seen, policy.name.as_slice())? {
            return Err(PolicyFault::DuplicatePolicyName(policy.name.copy(alloc)?));
        }
        add_policy(alloc, policy, &mut stated)?;
    }
    Ok(stated)
}

/// Nothing is stated.
fn states_nothing() -> Stated
    ensures { result ≡ nothing }
{
    Stated {
        exact: None,
        hops: None,
        follow: None,
        match_card: None,
        return_card: None,
        search_card: None,
        start: None,
        use_dynamic: None,
        use_modifiable: None,
        use_proxy: None,
        request_id: None,
    }
}

/// Adds what one policy states.
fn add_policy(alloc: Global, policy: &Policy, stated: &mut Stated) -> Result<(), PolicyFault>
    ensures { LeavesValue (with_policy policy.now stated.old) stated.new result }
{
    let name = policy.name.as_slice();
    if name == b"exact_type_match".as_slice() {
        put_truth(alloc, policy, &mut stated.exact)
    } else if name == b"hop_count".as_slice() {
        put_number(alloc, policy, &mut stated.hops)
    } else if name == b"link_follow_rule".as_slice() {
        put_rule(alloc, policy, &mut stated.follow)
    } else if name == b"match_card".as_slice() {
        put_number(alloc, policy, &mut stated.match_card)
    } else if name == b"return_card".as_slice() {
        put_number(alloc, policy, &mut stated.return_card)
    } else if name == b"search_card".as_slice() {
        put_number(alloc, policy, &mut stated.search_card)
    } else if name == b"starting_trader".as_slice() {
        put_texts(alloc, policy, &mut stated.start)
    } else if name == b"use_dynamic_properties".as_slice() {
        put_truth(alloc, policy, &mut stated.use_dynamic)
    } else if name == b"use_modifiable_properties".as_slice() {
        put_truth(alloc, policy, &mut stated.use_modifiable)
    } else if name == b"use_proxy_offers".as_slice() {
        put_truth(alloc, policy, &mut stated.use_proxy)
    } else if name == b"request_id".as_slice() {
        put_octets(alloc, policy, &mut stated.request_id)
    } else {
        Ok(())
    }
}
