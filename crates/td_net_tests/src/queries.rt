//! Queries from words.

use std::alloc::Global;
use td_cdr::{List, Memory, Shared, Text};
use td_ops::{Desired, Query};
use td_policy::{number_policy, octets_policy, texts_policy};
use td_value::Policy;

/// The text of a `&str`.
pub(crate) fn text(alloc: Global, word: &str) -> Result<Text, Memory> {
    Text::from_slice(alloc, word.as_bytes())
}

/// A path with one name.
fn start(alloc: Global, name: &str) -> Result<Policy, Memory> {
    let mut names = List::new(alloc);
    names.push(text(alloc, name)?)?;
    texts_policy(alloc, b"starting_trader", names.as_slice())
}

/// A policy by its letter: `i` an identifier, `h` hops, `s` the trader where it starts.
fn policy(alloc: Global, letter: u8, value: &str) -> Result<Policy, Memory> {
    match letter {
        b'i' => octets_policy(alloc, b"request_id", value.as_bytes()),
        b's' => start(alloc, value),
        _ => number_policy(alloc, b"hop_count", value.parse().unwrap_or(0)),
    }
}

/// Adds what a part tells to a query: `rrandom` its preference, `cCost==7` its constraint, or a policy.
fn add(alloc: Global, query: &mut Query, part: &str) -> Result<(), Memory> {
    let (letter, value) = part.split_at_checked(1).unwrap_or(("", ""));
    match letter {
        "r" => query.preference = text(alloc, value)?,
        "c" => query.constraint = text(alloc, value)?,
        "" => {}
        _ => {
            let kind = letter.as_bytes().first().copied().unwrap_or(0);
            query.policies.push(policy(alloc, kind, value)?)?;
        }
    }
    Ok(())
}

fn add_all(alloc: Global, query: &mut Query, parts: &str) -> Result<(), Memory> {
    query.service_type = text(alloc, "Printer")?;
    for part in parts.split('/') {
        add(alloc, query, part)?;
    }
    Ok(())
}

/// A query for Printers with these parts.
pub(crate) fn query(alloc: Global, parts: &str) -> Result<Shared<Query>, Memory> {
    let mut query = Query {
        service_type: Text::new(alloc),
        constraint: Text::new(alloc),
        preference: Text::new(alloc),
        policies: List::new(alloc),
        desired: Desired::All,
        how_many: 10,
    };
    match add_all(alloc, &mut query, parts) {
        Ok(()) => Shared::new(alloc, query),
        Err(memory) => {
            drop(query);
            Err(memory)
        }
    }
}
