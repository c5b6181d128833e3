//! The attributes of a trader.

use crate::lines::{EMPTY, follows};
use crate::telling::{put, put_number, put_truth};
use crate::words::{cut, rule_of, ulong_of};
use std::alloc::Global;
use std::test::Fail;
use td_cdr::{Memory, Twin};
use td_policy::Attributes;

/// The ids of the Lookup, Register, Link, Proxy, Admin and type repository, the stem, what is supported, the numbers
/// by their order in the standard, and the three rules.
const NEW: &str =
    "attributes = A/L A/R A/K A/P A/A A/T A yes yes yes 10000 1000000 1000 1000000 1000 1000000 100 5 10 2 2 2
copied_attributes = A/L A/R A/K A/P A/A A/T A yes yes yes 10000 1000000 1000 1000000 1000 1000000 100 5 10 2 2 2";

#[test]
fn a_new_trader(rt: HostRuntime) -> Result<(), Fail> {
    follows(&rt, rt.alloc(), &EMPTY, NEW)
}

/// Tells the attributes, or a copy of them.
pub(crate) fn see_attributes(
    alloc: Global,
    attributes: &Attributes,
    word: &str,
    content: &mut Vec<u8>,
) -> Result<(), Memory> {
    if word == "attributes" {
        return put_attributes(alloc, content, attributes);
    }
    let twin = attributes.copy(alloc)?;
    put_attributes(alloc, content, &twin)
}

fn put_attributes(alloc: Global, content: &mut Vec<u8>, a: &Attributes) -> Result<(), Memory> {
    for reference in [
        &a.lookup_if,
        &a.register_if,
        &a.link_if,
        &a.proxy_if,
        &a.admin_if,
        &a.type_repos,
    ] {
        put(content, reference.id.as_slice())?;
    }
    put(content, a.request_id_stem.as_slice())?;
    put_truth(content, Some(a.supports_modifiable_properties))?;
    put_truth(content, Some(a.supports_dynamic_properties))?;
    put_truth(content, Some(a.supports_proxy_offers))?;
    for number in numbers_of(a) {
        put_number(alloc, content, Some(number as u64))?;
    }
    Ok(())
}

fn numbers_of(a: &Attributes) -> [u32; 12] {
    [
        a.def_search_card,
        a.max_search_card,
        a.def_match_card,
        a.max_match_card,
        a.def_return_card,
        a.max_return_card,
        a.max_list,
        a.def_hop_count,
        a.max_hop_count,
        a.def_follow_policy.number(),
        a.max_follow_policy.number(),
        a.max_link_follow_policy.number(),
    ]
}

/// Gives the attribute of `NAME NUMBER` another value. Tells nothing.
pub(crate) fn set(a: &mut Attributes, words: &str) -> Result<(), Memory> {
    let (name, digits) = cut(words);
    let number = ulong_of(digits);
    match name {
        "supports_modifiable_properties" => a.supports_modifiable_properties = number != 0,
        "supports_dynamic_properties" => a.supports_dynamic_properties = number != 0,
        "supports_proxy_offers" => a.supports_proxy_offers = number != 0,
        "max_match_card" => a.max_match_card = number,
        "max_return_card" => a.max_return_card = number,
        "max_search_card" => a.max_search_card = number,
        "max_follow_policy" => a.max_follow_policy = rule_of(digits),
        _ => return Err(Memory),
    }
    Ok(())
}
