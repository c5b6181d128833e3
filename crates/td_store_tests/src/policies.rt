//! Policies from words.

use crate::words::{names, rule_of, text, two, ulong_of};
use std::alloc::Global;
use td_cdr::{Boxed, List, Memory, Text, Twin};
use td_policy::{
    Stated, number_policy, octets_policy, read_policies, rule_policy, texts_policy, truth_policy,
};
use td_value::{Any, Policy, TypeCode};

/// What policies state that may stand.
pub(crate) fn stated_of(alloc: Global, words: &str) -> Result<Boxed<Stated>, Memory> {
    let policies = policies(alloc, words)?;
    match read_policies(alloc, &policies) {
        Ok(stated) => Boxed::new(alloc, stated),
        Err(fault) => {
            drop(fault);
            Err(Memory)
        }
    }
}

/// Policies with a blank between them; `-` is none.
pub(crate) fn policies(alloc: Global, words: &str) -> Result<List<Policy>, Memory> {
    let mut policies = List::new(alloc);
    if words == "-" {
        return Ok(policies);
    }
    for word in words.split(' ') {
        policies.push(policy(alloc, word)?)?;
    }
    Ok(policies)
}

/// The policy of `NAME:TYPE:VALUE`, behind `alias-` of a type with an alias in front.
fn policy(alloc: Global, word: &str) -> Result<Policy, Memory> {
    let (name, rest) = two(word);
    let (kind, value) = two(rest);
    match kind.strip_prefix("alias-") {
        Some(kind) => aliased(alloc, &plain_policy(alloc, name.as_bytes(), kind, value)?),
        None => plain_policy(alloc, name.as_bytes(), kind, value),
    }
}

fn plain_policy(alloc: Global, name: &[u8], kind: &str, value: &str) -> Result<Policy, Memory> {
    match kind {
        "truth" => truth_policy(alloc, name, value != "no"),
        "rule" => rule_policy(alloc, name, rule_of(value)),
        "texts" => texts_policy(alloc, name, names(alloc, value, 0)?.as_slice()),
        "octets" => octets_policy(alloc, name, text(alloc, value, 0)?.as_slice()),
        _ => number_policy(alloc, name, ulong_of(value)),
    }
}

/// The same policy, its TypeCode behind an alias.
fn aliased(alloc: Global, policy: &Policy) -> Result<Policy, Memory> {
    let name = policy.name.copy(alloc)?;
    let value = policy.value.value.copy(alloc)?;
    Ok(Policy {
        name,
        value: Any {
            value,
            code: TypeCode::Alias {
                id: Boxed::new(alloc, Text::new(alloc))?,
                name: Boxed::new(alloc, Text::new(alloc))?,
                item: Boxed::new(alloc, policy.value.code.copy(alloc)?)?,
            },
        },
    })
}
