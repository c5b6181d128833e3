//! What goes over a link, along a path and to a proxy offer's trader.

use crate::checking::Case;
use crate::words::{policies, rule_of, text};
use std::alloc::Global;
use td_cdr::{Boxed, List, Memory, Octets, Text};
use td_ops::Query;
use td_policy::{Stated, read_policies};
use td_store::{LinkRecord, Local, ProxyPart};
use td_value::Policy;
use td_walk::{follows, sub_query_for_link, sub_query_for_path, sub_query_for_proxy};

// ---- what is passed on

/// The link over which the query goes on, or else the first one.
fn link_of(local: &Local) -> Option<&LinkRecord> {
    match &local.path {
        Some(link) => Some(link),
        None => local.links.as_slice().first(),
    }
}

/// How many offers are still wanted, where that is limited.
fn number_of(word: &str) -> Option<u32> {
    word.parse::<u32>().ok()
}

fn over_link(alloc: Global, local: &Local, wanted: Option<u32>) -> Result<Query, Memory> {
    match link_of(local) {
        Some(link) => sub_query_for_link(alloc, local, wanted, link),
        None => Err(Memory),
    }
}

/// What goes to a proxy offer's trader with these policies, `POLICIES` or `POLICIES/WANTED`.
fn to_proxy(alloc: Global, local: &Local, tried: &str) -> Result<Query, Memory> {
    let (words, wanted) = tried.split_once('/').unwrap_or((tried, ""));
    let constraint = text(alloc, "Cost < 10 and Floor == 3")?;
    match policies(alloc, words) {
        Ok(policies) => {
            let part = ProxyPart {
                if_match_all: false,
                recipe: Text::new(alloc),
                policies,
            };
            let query = sub_query_for_proxy(alloc, local, number_of(wanted), &part, constraint);
            drop(part);
            query
        }
        Err(memory) => {
            drop(constraint);
            Err(memory)
        }
    }
}

fn sub_query(alloc: Global, case: Case, local: &Local, tried: &str) -> Result<Query, Memory> {
    match case {
        Case::Link => over_link(alloc, local, number_of(tried)),
        Case::Path => sub_query_for_path(alloc, local),
        _ => to_proxy(alloc, local, tried),
    }
}

// ---- what it states

/// Whether the policies have these names, in this order.
fn have_names(policies: &[Policy], words: &str) -> bool {
    let mut names = words.split(',');
    for policy in policies {
        if policy.name.as_slice() != names.next().unwrap_or("").as_bytes() {
            return false;
        }
    }
    names.next().is_none()
}

fn are_same(a: &Option<Octets>, b: &Option<Octets>) -> bool {
    match (a, b) {
        (Some(a), Some(b)) => a.as_slice() == b.as_slice(),
        _ => false,
    }
}

fn start_of(stated: &Stated) -> usize {
    match &stated.start {
        Some(names) => names.len(),
        None => 0,
    }
}

/// Whether a query is as `WHAT=VALUE` says: how many hops, matches, returned offers and names of a start are stated,
/// the rule, the names of its policies; `own` is the search's identifier, and `first` how a search asks where its
/// preference was `random`.
fn says(local: &Local, query: &Query, stated: &Stated, word: &str) -> bool {
    let (what, value) = word.split_once('=').unwrap_or((word, ""));
    match what {
        "hops" => stated.hops.is_some() && value.parse::<u32>().ok() == stated.hops,
        "matches" => stated.match_card.is_some() && value.parse::<u32>().ok() == stated.match_card,
        "returned" => {
            stated.return_card.is_some() && value.parse::<u32>().ok() == stated.return_card
        }
        "no_start" => stated.start.is_none(),
        "start" => value.parse::<usize>() == Ok(start_of(stated)),
        "rule" => stated.follow == Some(rule_of(value)),
        "no_rule" => stated.follow.is_none(),
        "own" => are_same(&stated.request_id, &local.identifier),
        "no_identifier" => stated.request_id.is_none(),
        "names" => have_names(query.policies.as_slice(), value),
        "first" => is_first(query),
        "recipe" => query.constraint.as_slice() == b"Cost < 10 and Floor == 3".as_slice(),
        _ => false,
    }
}

fn is_first(query: &Query) -> bool {
    query.preference.as_slice() == b"first".as_slice()
        && query.constraint.as_slice() == b"Cost < 10".as_slice()
        && query.how_many == 1000
}

fn says_all(local: &Local, query: &Query, stated: &Stated, content: &str) -> bool {
    for word in content.split(' ') {
        if !says(local, query, stated, word) {
            return false;
        }
    }
    true
}

fn stated_by(alloc: Global, query: &Query) -> Result<Boxed<Stated>, Memory> {
    match read_policies(alloc, &query.policies) {
        Ok(stated) => Boxed::new(alloc, stated),
        Err(_) => Err(Memory),
    }
}

fn passes_on(
    alloc: Global,
    case: Case,
    local: &Local,
    tried: &str,
    content: &str,
) -> Result<bool, Memory> {
    let query = Boxed::new(alloc, sub_query(alloc, case, local, tried)?)?;
    let stated = stated_by(alloc, query.get())?;
    Ok(says_all(local, query.get(), stated.get(), content))
}

/// Whether the link is followed, where an ordinary offer matched or none did.
fn is_followed(local: &Local, matched: &str, content: &str) -> bool {
    match link_of(local) {
        Some(link) => follows(local, matched == "matched", link) == (content == "followed"),
        None => false,
    }
}

/// Whether what is passed on is as told, or the link is followed.
pub(crate) fn passes(
    alloc: Global,
    case: Case,
    local: &Local,
    tried: &str,
    content: &str,
) -> Result<bool, Memory> {
    match case {
        Case::Follow => Ok(is_followed(local, tried, content)),
        _ => passes_on(alloc, case, local, tried, content),
    }
}
