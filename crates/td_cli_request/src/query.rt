//! The parameters of a query.

ghost use Rattle.std.specs.Prelude.{◌≡◌, map, IfOk};
ghost use Rattle.td_cli_request.specs.Forms.{ParsesTo};
ghost use Rattle.td_cli_request.specs.Queries.{desired_of, query_in, query_with};
ghost use Rattle.td_cli_args.specs.Wishes.{asked_query};

use crate::fault::AskFault;
use crate::given::parse_how_many;
use crate::policies::parse_policies;
use std::alloc::Global;
use td_cdr::{List, Memory, Text};
use td_cli_args::QueryWords;
use td_ops::Query;
use td_value::{Policy, SpecifiedProps};

/// The texts of words.
fn texts_of(alloc: Global, words: &[&str]) -> Result<List<Text>, Memory>
    ensures { IfOk result (λ texts. texts ≡ map (λ w. w.now) words.now) }
{
    let mut texts = List::new(alloc);
    for word in words {
        texts.push(Text::from_slice(alloc, word.as_bytes())?)?;
    }
    Ok(texts)
}

/// The properties that are asked for: those of these names, or all where there is no name.
fn desired_of(alloc: Global, names: &[&str]) -> Result<SpecifiedProps, Memory>
    ensures { IfOk result (λ desired. desired ≡ desired_of (map (λ w. w.now) names.now)) }
{
    match names {
        [] => Ok(SpecifiedProps::All),
        [_first, _others @ ..] => Ok(SpecifiedProps::Some(texts_of(alloc, names)?)),
    }
}

/// The service type, the constraint and the preference.
fn texts_in(alloc: Global, words: &QueryWords<'_>) -> Result<(Text, Text, Text), Memory>
    ensures { IfOk result (λ t. t
        ≡ (words.now.service.now, words.now.constraint.now, words.now.preference.now)) }
{
    Ok((
        Text::from_slice(alloc, words.service.as_bytes())?,
        Text::from_slice(alloc, words.constraint.as_bytes())?,
        Text::from_slice(alloc, words.preference.as_bytes())?,
    ))
}

/// A query with these policies, of so many offers.
fn query_with(
    alloc: Global,
    words: &QueryWords<'_>,
    how_many: u32,
    policies: List<Policy>,
) -> Result<Query, Memory>
    ensures { IfOk result (λ q. q ≡ query_with (asked_query words.now) how_many policies) }
{
    let (service_type, constraint, preference) = texts_in(alloc, words)?;
    let desired = desired_of(alloc, words.names.as_slice())?;
    Ok(Query {
        service_type,
        constraint,
        preference,
        policies,
        desired,
        how_many,
    })
}

/// The parameters of the query that the words ask for.
pub(crate) fn parse_query(alloc: Global, words: &QueryWords<'_>) -> Result<Query, AskFault>
    ensures { ParsesTo (query_in (asked_query words.now)) result }
{
    let how_many = parse_how_many(words.how_many)?;
    let policies = parse_policies(alloc, words)?;
    match query_with(alloc, words, how_many, policies) {
        Ok(query) => Ok(query),
        Err(_) => Err(AskFault::Memory),
    }
}
