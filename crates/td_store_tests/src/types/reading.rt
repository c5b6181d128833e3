//! Lists of policies, good and bad.

use crate::lines::{EMPTY, follows};
use crate::policies::{policies, stated_of};
use crate::telling::{put, put_all, put_names, put_number, put_truth};
use std::alloc::Global;
use std::test::Fail;
use td_cdr::{Boxed, Memory};
use td_policy::{PolicyFault, Stated, read_policies};

/// What a list of policies is answered: each policy with its type, an alias of that and another one; then names,
/// limits, and two bad policies in either order.
const LISTS: &str = "read exact_type_match:truth = ok
read exact_type_match:alias-truth = ok
read exact_type_match:number:7 = mismatch exact_type_match
read hop_count:number:7 = ok
read hop_count:alias-number:7 = ok
read hop_count:truth = mismatch hop_count
read link_follow_rule:rule:1 = ok
read link_follow_rule:alias-rule:1 = ok
read link_follow_rule:number:7 = mismatch link_follow_rule
read match_card:number:7 = ok
read match_card:alias-number:7 = ok
read match_card:rule:1 = mismatch match_card
read return_card:number:7 = ok
read return_card:alias-number:7 = ok
read return_card:octets:q*1 = mismatch return_card
read search_card:number:7 = ok
read search_card:alias-number:7 = ok
read search_card:texts:b*1 = mismatch search_card
read starting_trader:texts:b*2 = ok
read starting_trader:alias-texts:b*2 = ok
read starting_trader:octets:q*2 = mismatch starting_trader
read use_dynamic_properties:truth = ok
read use_dynamic_properties:alias-truth = ok
read use_dynamic_properties:number:7 = mismatch use_dynamic_properties
read use_modifiable_properties:truth = ok
read use_modifiable_properties:alias-truth = ok
read use_modifiable_properties:rule:1 = mismatch use_modifiable_properties
read use_proxy_offers:truth = ok
read use_proxy_offers:alias-truth = ok
read use_proxy_offers:texts:- = mismatch use_proxy_offers
read request_id:octets:q*8 = ok
read request_id:alias-octets:q*8 = ok
read request_id:texts:b*8 = mismatch request_id
read = ok
read unknown:number:7 = ok
read unknown:number:7 other:truth hop_count:number:7 = ok
read 9x:number:7 = illegal 9x
read :number:7 = illegal -
read hop-count:number:7 = illegal hop-count
read hop_count:number:7 hop_count:number:7 = duplicate hop_count
read hop_count:number:7 match_card:number:7 hop_count:texts:b*1 = duplicate hop_count
read unknown:number:7 unknown:truth = duplicate unknown
read starting_trader:texts:- = ok
read starting_trader:texts:b*64 = ok
read starting_trader:texts:b*65 = invalid starting_trader
read request_id:octets:- = ok
read request_id:octets:q*256 = ok
read request_id:octets:q*257 = invalid request_id
read 9x:number:7 hop_count:truth = illegal 9x
read hop_count:truth 9x:number:7 = mismatch hop_count
read match_card:number:7 hop_count:truth starting_trader:texts:b*65 = mismatch hop_count
read starting_trader:texts:b*65 starting_trader:texts:b*1 = invalid starting_trader
read request_id:octets:q*257 hop_count:truth = invalid request_id
read hop_count:number:7 hop_count:number:7 request_id:octets:q*257 = duplicate hop_count";

#[test]
fn lists(rt: HostRuntime) -> Result<(), Fail> {
    follows(&rt, rt.alloc(), &EMPTY, LISTS)
}

/// All policies at once, in another order than that of the fields: what is stated.
const ALL: &str =
    "state request_id:octets:q*3 use_proxy_offers:truth use_modifiable_properties:truth use_dynamic_properties:truth starting_trader:texts:b*2 search_card:number:7 return_card:number:7 match_card:number:7 link_follow_rule:rule:1 hop_count:number:7 exact_type_match:truth = yes yes yes yes 7 7 7 7 1 b,b qqq";

#[test]
fn each_field(rt: HostRuntime) -> Result<(), Fail> {
    follows(&rt, rt.alloc(), &EMPTY, ALL)
}

/// Tells whether policies are read, or the first fault and the name of its policy.
pub(crate) fn read(alloc: Global, words: &str, content: &mut Vec<u8>) -> Result<(), Memory> {
    let policies = policies(alloc, words)?;
    match read_policies(alloc, &policies).err() {
        None => put(content, b"ok"),
        Some(fault) => put_fault(content, Boxed::new(alloc, fault)?.get()),
    }
}

fn put_fault(content: &mut Vec<u8>, fault: &PolicyFault) -> Result<(), Memory> {
    match fault {
        PolicyFault::IllegalPolicyName(name) => put_all(content, b"illegal", &[name]),
        PolicyFault::DuplicatePolicyName(name) => put_all(content, b"duplicate", &[name]),
        PolicyFault::PolicyTypeMismatch(bad) => put_all(content, b"mismatch", &[&bad.get().name]),
        PolicyFault::InvalidPolicyValue(bad) => put_all(content, b"invalid", &[&bad.get().name]),
        PolicyFault::Memory => Err(Memory),
    }
}

/// Tells what policies state.
pub(crate) fn state(alloc: Global, words: &str, content: &mut Vec<u8>) -> Result<(), Memory> {
    let stated = stated_of(alloc, words)?;
    put_stated(alloc, content, stated.get())
}

/// The truth values, the numbers and the rule, the names, and the identifier.
fn put_stated(alloc: Global, content: &mut Vec<u8>, s: &Stated) -> Result<(), Memory> {
    for truth in [s.exact, s.use_dynamic, s.use_modifiable, s.use_proxy] {
        put_truth(content, truth)?;
    }
    for number in [s.hops, s.match_card, s.return_card, s.search_card] {
        put_number_stated(alloc, content, number)?;
    }
    match s.follow {
        None => put(content, b"none")?,
        Some(rule) => put_number_stated(alloc, content, Some(rule.number()))?,
    }
    put_sequences(content, s)
}

fn put_number_stated(
    alloc: Global,
    content: &mut Vec<u8>,
    number: Option<u32>,
) -> Result<(), Memory> {
    match number {
        None => put(content, b"none"),
        Some(number) => put_number(alloc, content, Some(number as u64)),
    }
}

fn put_sequences(content: &mut Vec<u8>, s: &Stated) -> Result<(), Memory> {
    match &s.start {
        None => put(content, b"none")?,
        Some(names) => put_names(content, names.as_slice())?,
    }
    match &s.request_id {
        None => put(content, b"none"),
        Some(identifier) => put(content, identifier.as_slice()),
    }
}
