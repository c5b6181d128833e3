//! From the words to what an object is asked for.

ghost use Rattle.std.specs.Prelude.{◌≡◌, IfOk};
ghost use Rattle.td_cli_request.specs.Askings.{asking_of, by_addtype, by_describe, by_export, by_link, by_links};
ghost use Rattle.td_cli_request.specs.Askings.{by_query};
ghost use Rattle.td_cli_request.specs.Askings.{by_types, by_withdraw, call_of_word, export_in};
ghost use Rattle.td_cli_request.specs.Forms.{ParsesTo};
ghost use Rattle.td_cli_args.specs.Wishes.{asked_by, asked_export, asked_link, asked_query, asked_type};

use crate::fault::AskFault;
use crate::given::parse_rule;
use crate::making::Asking;
use crate::properties::parse_properties;
use crate::query::parse_query;
use crate::references::{parse_reference, parse_target};
use crate::types::{TypeItems, parse_items};
use std::alloc::Global;
use td_cdr::{Boxed, Memory, Text, share_owned_three};
use td_cli_args::{ExportWords, LinkWords, QueryWords, TypeWords, Wanted};
use td_ops::{AddLink, Call, Change, Look};
use td_value::SpecifiedServiceTypes;

/// A call of the object that a word spells.
#[tactic(auto, using(crate::proofs::Refusing::refused))]
fn parse_call(alloc: Global, reference: &str, call: Call) -> Result<Asking, AskFault>
    ensures { ParsesTo (call_of_word reference.now call) result }
{
    match parse_target(alloc, reference) {
        Ok(target) => Ok(Asking::Call { target, call }),
        Err(fault) => {
            drop(call);
            Err(fault)
        }
    }
}

/// `query`.
#[tactic(auto, using(crate::proofs::Refusing::refused))]
fn by_query(alloc: Global, words: &QueryWords<'_>) -> Result<Asking, AskFault>
    ensures { ParsesTo (by_query (asked_query words.now)) result }
{
    let query = parse_query(alloc, words)?;
    match parse_target(alloc, words.reference) {
        Ok(target) => Ok(Asking::Query { target, query }),
        Err(fault) => {
            drop(query);
            Err(fault)
        }
    }
}

/// The change that `export` asks for.
fn parse_export(alloc: Global, words: &ExportWords<'_>) -> Result<Change, AskFault>
    ensures { ParsesTo (export_in (asked_export words.now)) result }
{
    let service_type = Text::from_slice(alloc, words.service.as_bytes())?;
    let reference = parse_reference(alloc, words.object)?;
    let properties = parse_properties(alloc, words.properties.as_slice())?;
    let (reference, (service_type, properties)) = share_owned_three(
        alloc,
        (reference, (service_type, properties)),
    )?;
    Ok(Change::Export {
        reference,
        service_type,
        properties,
    })
}

/// `export`.
fn by_export(alloc: Global, words: &ExportWords<'_>) -> Result<Asking, AskFault>
    ensures { ParsesTo (by_export (asked_export words.now)) result }
{
    let change = parse_export(alloc, words)?;
    parse_call(alloc, words.reference, Call::Change(change))
}

/// `withdraw`.
fn by_withdraw(alloc: Global, reference: &str, id: &str) -> Result<Asking, AskFault>
    ensures { ParsesTo (by_withdraw reference.now id.now) result }
{
    let id = Text::from_slice(alloc, id.as_bytes())?;
    parse_call(alloc, reference, Call::Change(Change::Withdraw { id }))
}

/// `describe`.
fn by_describe(alloc: Global, reference: &str, id: &str) -> Result<Asking, AskFault>
    ensures { ParsesTo (by_describe reference.now id.now) result }
{
    let id = Text::from_slice(alloc, id.as_bytes())?;
    parse_call(alloc, reference, Call::Look(Look::Describe { id }))
}

/// `link`.
fn by_link(alloc: Global, words: &LinkWords<'_>) -> Result<Asking, AskFault>
    ensures { ParsesTo (by_link (asked_link words.now)) result }
{
    let def_pass_on = parse_rule(words.def_pass_on)?;
    let limiting = parse_rule(words.limiting)?;
    let name = Text::from_slice(alloc, words.name.as_bytes())?;
    let target = Boxed::new(alloc, parse_reference(alloc, words.target)?)?;
    let link = AddLink {
        name,
        target,
        def_pass_on,
        limiting,
    };
    parse_call(alloc, words.reference, Call::AddLink(link))
}

/// `links`.
fn by_links(alloc: Global, reference: &str) -> Result<Asking, AskFault>
    ensures { ParsesTo (by_links reference.now) result }
{
    parse_call(alloc, reference, Call::Look(Look::ListLinks))
}

/// `types`.
fn by_types(alloc: Global, reference: &str) -> Result<Asking, AskFault>
    ensures { ParsesTo (by_types reference.now) result }
{
    let which = SpecifiedServiceTypes::All;
    parse_call(alloc, reference, Call::Look(Look::ListTypes { which }))
}

/// The name of a type, and the repository id of its interface.
fn names_in(alloc: Global, words: &TypeWords<'_>) -> Result<(Text, Text), Memory>
    ensures { IfOk result (λ names. names ≡ (words.now.name.now, words.now.interface.now)) }
{
    let name = Text::from_slice(alloc, words.name.as_bytes())?;
    let if_name = Text::from_slice(alloc, words.interface.as_bytes())?;
    Ok((name, if_name))
}

/// `addtype`.
fn by_addtype(alloc: Global, words: &TypeWords<'_>) -> Result<Asking, AskFault>
    ensures { ParsesTo (by_addtype (asked_type words.now)) result }
{
    let TypeItems { supers, props } = parse_items(alloc, words.items.as_slice())?;
    let (name, if_name) = names_in(alloc, words)?;
    let change = Change::AddType {
        name,
        if_name,
        props,
        super_types: supers,
    };
    parse_call(alloc, words.reference, Call::Change(change))
}

/// What the words ask an object for.
///
/// # Errors
///
/// - `Form` exactly where a word isn't in its form: REF, OBJECT and TARGET are references as `read_text` reads them;
///   REF says where its object is reached; a number is decimal and below 2^32, an identifier hexadecimal; a rule is
///   `local_only`, `if_no_local` or `always`; a property is `NAME=VALUETYPE:VALUE`; an item of a type is `super=NAME`
///   or `prop=NAME:MODE:VALUETYPE`. Types and values are as in a server's file.
/// - `Memory` when out of memory.
pub fn asking_of(alloc: Global, wanted: &Wanted<'_>) -> Result<Asking, AskFault>
    ensures { ParsesTo (asking_of (asked_by wanted.now)) result }
{
    match wanted {
        Wanted::Query(words) => by_query(alloc, words),
        Wanted::Export(words) => by_export(alloc, words),
        Wanted::Withdraw { reference, id } => by_withdraw(alloc, reference, id),
        Wanted::Describe { reference, id } => by_describe(alloc, reference, id),
        Wanted::Link(words) => by_link(alloc, words),
        Wanted::Links { reference } => by_links(alloc, reference),
        Wanted::Types { reference } => by_types(alloc, reference),
        Wanted::AddType(words) => by_addtype(alloc, words),
    }
}
