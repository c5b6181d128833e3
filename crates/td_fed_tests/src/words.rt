//! Texts, references, policies and queries from words.

ghost use Rattle.td_typecode.specs.References.{reference};

use std::alloc::Global;
use td_cdr::{List, Memory, Shared, Text};
use td_ops::{Desired, Query};
use td_policy::{number_policy, octets_policy, rule_policy, texts_policy, truth_policy};
use td_value::{FollowOption, Ior, Policy};

/// The text of a `&str`.
pub(crate) fn text(alloc: Global, word: &str) -> Result<Text, Memory> {
    Text::from_slice(alloc, word.as_bytes())
}

/// Two parts with `;` between them, the second empty where there is none.
pub(crate) fn two(words: &str) -> (&str, &str) {
    words.split_once(';').unwrap_or((words, ""))
}

/// A reference without an id and without profiles.
#[tactic(auto, using(crate::proofs::Small::nobody_admitted))]
pub(crate) fn nobody(alloc: Global) -> Ior
    ensures { reference.format.admits result }
{
    Ior {
        id: Text::new(alloc),
        profiles: List::new(alloc),
    }
}

pub(crate) fn rule_of(word: &str) -> FollowOption {
    match word {
        "local_only" => FollowOption::LocalOnly,
        "if_no_local" => FollowOption::IfNoLocal,
        _ => FollowOption::Always,
    }
}

/// Names with commas between them.
pub(crate) fn names(alloc: Global, words: &str) -> Result<List<Text>, Memory> {
    let mut names = List::new(alloc);
    for word in words.split(',') {
        names.push(text(alloc, word)?)?;
    }
    Ok(names)
}

fn start(alloc: Global, words: &str) -> Result<Policy, Memory> {
    let names = names(alloc, words)?;
    texts_policy(alloc, b"starting_trader", names.as_slice())
}

/// A policy as `NAME=VALUE`.
fn policy(alloc: Global, word: &str) -> Result<Policy, Memory> {
    let (name, value) = word.split_once('=').unwrap_or((word, ""));
    match name {
        "link_follow_rule" => rule_policy(alloc, name.as_bytes(), rule_of(value)),
        "request_id" => octets_policy(alloc, name.as_bytes(), value.as_bytes()),
        "starting_trader" => start(alloc, value),
        "use_proxy_offers" => truth_policy(alloc, name.as_bytes(), value == "TRUE"),
        _ => number_policy(alloc, name.as_bytes(), value.parse().unwrap_or(0)),
    }
}

/// Policies with blanks between them.
pub(crate) fn policies(alloc: Global, words: &str) -> Result<List<Policy>, Memory> {
    let mut policies = List::new(alloc);
    for word in words.split(' ') {
        if !word.is_empty() {
            policies.push(policy(alloc, word)?)?;
        }
    }
    Ok(policies)
}

/// All properties are desired, none (`-`), or those of these names.
fn desired(alloc: Global, words: &str) -> Result<Desired, Memory> {
    match words {
        "" => Ok(Desired::All),
        "-" => Ok(Desired::None),
        _ => Ok(Desired::Some(names(alloc, words)?)),
    }
}

/// Gives a query its texts, its policies and the desired properties.
fn write_query(alloc: Global, query: &mut Query, words: &str) -> Result<(), Memory> {
    let (constraint, rest) = two(words);
    let (preference, rest) = two(rest);
    let (passed, wanted) = two(rest);
    query.service_type = text(alloc, "Printer")?;
    query.constraint = text(alloc, constraint)?;
    query.preference = text(alloc, preference)?;
    query.policies = policies(alloc, passed)?;
    query.desired = desired(alloc, wanted)?;
    Ok(())
}

/// A query for Printers, of `CONSTRAINT;PREFERENCE;POLICIES;DESIRED`.
pub(crate) fn query(alloc: Global, words: &str) -> Result<Shared<Query>, Memory> {
    let mut query = Query {
        service_type: Text::new(alloc),
        constraint: Text::new(alloc),
        preference: Text::new(alloc),
        policies: List::new(alloc),
        desired: Desired::All,
        how_many: 10,
    };
    match write_query(alloc, &mut query, words) {
        Ok(()) => Shared::new(alloc, query),
        Err(memory) => {
            drop(query);
            Err(memory)
        }
    }
}
