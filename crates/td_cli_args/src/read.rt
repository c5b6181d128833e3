//! What clap's matches of the subcommands ask for.

ghost use Rattle.std.specs.Prelude.{◌≡◌, IfOk, map, option_map, unwrap_or, []};
ghost use Rattle.clap.specs.Words.{all_of, first_of, found_of, rows_of, subcommand_rows_of};
ghost use Rattle.td_cli_args.specs.Matches.{says_true, read_matches, read_named, read_query, read_usage};
ghost use Rattle.td_cli_args.specs.Wishes.{addtype_usage, asked_by, asked_query, describe_usage, export_usage};
ghost use Rattle.td_cli_args.specs.Wishes.{link_usage, links_usage, types_usage, withdraw_usage};

use crate::wanted::{ExportWords, LinkWords, QueryWords, TypeWords, Wanted};
use clap::ArgMatches;
use std::alloc::{AllocError, Global};

/// The first value of this name.
fn value<'a>(matches: &ArgMatches<'a>, name: &str) -> Option<&'a str>
    ensures { option_map (λ s. s.now) result ≡ first_of name.now (rows_of (found_of matches.now)) }
{
    matches.get_str(name)
}

/// Whether the flag was given.
fn is_given(matches: &ArgMatches<'_>, name: &str) -> bool
    ensures { result ≡ says_true (first_of name.now (rows_of (found_of matches.now))) }
{
    match value(matches, name) {
        Some(text) => text == "true",
        None => false,
    }
}

/// The values of this name.
fn values<'a>(
    alloc: Global,
    matches: &ArgMatches<'a>,
    name: &str,
) -> Result<Vec<&'a str>, AllocError>
    ensures { IfOk result (λ v. map (λ s. s.now) v.items
        ≡ unwrap_or (all_of name.now (rows_of (found_of matches.now))) []) }
{
    match matches.get_strs(name) {
        Some(values) => Vec::from_slice(alloc, values),
        None => Ok(Vec::new(alloc)),
    }
}

/// What the matches of `query` ask for.
fn read_query<'a>(
    alloc: Global,
    matches: &ArgMatches<'a>,
) -> Result<Option<QueryWords<'a>>, AllocError>
    ensures { IfOk result (λ q. option_map asked_query q
        ≡ read_query (rows_of (found_of matches.now))) }
{
    let Some(reference) = value(matches, "ref") else {
        return Ok(None);
    };
    let Some(service) = value(matches, "type") else {
        return Ok(None);
    };
    let Some(constraint) = value(matches, "constraint") else {
        return Ok(None);
    };
    let Some(preference) = value(matches, "preference") else {
        return Ok(None);
    };
    Ok(Some(QueryWords {
        reference,
        service,
        constraint,
        preference,
        names: values(alloc, matches, "name")?,
        how_many: value(matches, "how-many"),
        hops: value(matches, "hops"),
        follow: value(matches, "follow"),
        id: value(matches, "id"),
        exact: is_given(matches, "exact"),
    }))
}

/// What the matches of `export` ask for.
fn read_export<'a>(
    alloc: Global,
    matches: &ArgMatches<'a>,
) -> Result<Option<Wanted<'a>>, AllocError>
    ensures { IfOk result (λ w. option_map asked_by w
        ≡ read_usage export_usage (rows_of (found_of matches.now))) }
{
    let Some(reference) = value(matches, "ref") else {
        return Ok(None);
    };
    let Some(service) = value(matches, "type") else {
        return Ok(None);
    };
    let Some(object) = value(matches, "object") else {
        return Ok(None);
    };
    Ok(Some(Wanted::Export(ExportWords {
        reference,
        service,
        object,
        properties: values(alloc, matches, "property")?,
    })))
}

/// What the matches of `withdraw` ask for.
fn read_withdraw<'a>(matches: &ArgMatches<'a>) -> Option<Wanted<'a>>
    ensures { option_map asked_by result
        ≡ read_usage withdraw_usage (rows_of (found_of matches.now)) }
{
    let Some(reference) = value(matches, "ref") else {
        return None;
    };
    let Some(id) = value(matches, "id") else {
        return None;
    };
    Some(Wanted::Withdraw { reference, id })
}

/// What the matches of `describe` ask for.
fn read_describe<'a>(matches: &ArgMatches<'a>) -> Option<Wanted<'a>>
    ensures { option_map asked_by result
        ≡ read_usage describe_usage (rows_of (found_of matches.now)) }
{
    let Some(reference) = value(matches, "ref") else {
        return None;
    };
    let Some(id) = value(matches, "id") else {
        return None;
    };
    Some(Wanted::Describe { reference, id })
}

/// What the matches of `link` ask for.
fn read_link<'a>(matches: &ArgMatches<'a>) -> Option<Wanted<'a>>
    ensures { option_map asked_by result ≡ read_usage link_usage (rows_of (found_of matches.now)) }
{
    let Some(reference) = value(matches, "ref") else {
        return None;
    };
    let Some(name) = value(matches, "name") else {
        return None;
    };
    let Some(target) = value(matches, "target") else {
        return None;
    };
    let Some(def_pass_on) = value(matches, "def") else {
        return None;
    };
    let Some(limiting) = value(matches, "limit") else {
        return None;
    };
    Some(Wanted::Link(LinkWords {
        reference,
        name,
        target,
        def_pass_on,
        limiting,
    }))
}

/// What the matches of `links` ask for.
fn read_links<'a>(matches: &ArgMatches<'a>) -> Option<Wanted<'a>>
    ensures { option_map asked_by result ≡ read_usage links_usage (rows_of (found_of matches.now)) }
{
    match value(matches, "ref") {
        Some(reference) => Some(Wanted::Links { reference }),
        None => None,
    }
}

/// What the matches of `types` ask for.
fn read_types<'a>(matches: &ArgMatches<'a>) -> Option<Wanted<'a>>
    ensures { option_map asked_by result ≡ read_usage types_usage (rows_of (found_of matches.now)) }
{
    match value(matches, "ref") {
        Some(reference) => Some(Wanted::Types { reference }),
        None => None,
    }
}

/// What the matches of `addtype` ask for.
fn read_addtype<'a>(
    alloc: Global,
    matches: &ArgMatches<'a>,
) -> Result<Option<Wanted<'a>>, AllocError>
    ensures { IfOk result (λ w. option_map asked_by w
        ≡ read_usage addtype_usage (rows_of (found_of matches.now))) }
{
    let Some(reference) = value(matches, "ref") else {
        return Ok(None);
    };
    let Some(name) = value(matches, "name") else {
        return Ok(None);
    };
    let Some(interface) = value(matches, "interface") else {
        return Ok(None);
    };
    Ok(Some(Wanted::AddType(TypeWords {
        reference,
        name,
        interface,
        items: values(alloc, matches, "item")?,
    })))
}

/// What the matches of the subcommand of this name ask for.
fn read_named<'a>(
    alloc: Global,
    name: &str,
    matches: &ArgMatches<'a>,
) -> Result<Option<Wanted<'a>>, AllocError>
    ensures { IfOk result (λ w. option_map asked_by w
        ≡ read_named name.now (rows_of (found_of matches.now))) }
{
    if name == "query" {
        match read_query(alloc, matches)? {
            Some(query) => Ok(Some(Wanted::Query(query))),
            None => Ok(None),
        }
    } else if name == "export" {
        read_export(alloc, matches)
    } else if name == "withdraw" {
        Ok(read_withdraw(matches))
    } else if name == "describe" {
        Ok(read_describe(matches))
    } else if name == "link" {
        Ok(read_link(matches))
    } else if name == "links" {
        Ok(read_links(matches))
    } else if name == "types" {
        Ok(read_types(matches))
    } else if name == "addtype" {
        read_addtype(alloc, matches)
    } else {
        Ok(None)
    }
}

/// What the matches of the whole program ask for.
pub(crate) fn read_matches<'a>(
    alloc: Global,
    matches: &ArgMatches<'a>,
) -> Result<Option<Wanted<'a>>, AllocError>
    ensures { IfOk result (λ w. option_map asked_by w
        ≡ read_matches (subcommand_rows_of matches.now)) }
{
    match matches.subcommand() {
        Some((name, inner)) => read_named(alloc, name, inner),
        None => Ok(None),
    }
}
