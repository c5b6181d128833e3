//! The program for clap: its subcommands, each with its help.

ghost use Rattle.std.specs.Prelude.{◌≡◌, IfOk, false, map};
ghost use Rattle.clap.specs.Words.{app_of, new_app, rule_of, with_subcommand};
ghost use Rattle.clap.specs.declared.builder.command.Command.TheViews.{out-Command};
ghost use Rattle.td_cli_args.specs.Tool.{IsCommand, literal_word, flag, many, query_app, tool_app, top_app, usage_in};
ghost use Rattle.td_cli_args.specs.Tool.{option_word};
ghost use Rattle.td_cli_args.specs.Tool.{with_apps};

use crate::help;
use crate::usages::{USAGES, Usage};
use clap::{Arg, ArgAction, Command};
use std::alloc::{AllocError, Global};

/// A command of this name, with what its help says first and last.
fn named<'a>(alloc: Global, name: &'a str, about: &'a str, example: &'a str) -> Command<'a>
    ensures app { app_of result ≡ new_app name.entry.now }
    ensures local { (out-Command result).has_globals ≡ false }
{
    Command::new(alloc, name).about(about).after_help(example)
}

/// A word that has to stand there.
fn literal_word<'a>(alloc: Global, id: &'a str, help: &'a str) -> Arg<'a>
    ensures rule { rule_of result ≡ literal_word id.entry.now }
    ensures local { result.global ≡ false }
{
    Arg::new(alloc, id)
        .required(true)
        .action(ArgAction::Set)
        .help(help)
}

/// Words that come any number of times.
fn many<'a>(alloc: Global, id: &'a str, help: &'a str) -> Arg<'a>
    ensures rule { rule_of result ≡ many id.entry.now }
    ensures local { result.global ≡ false }
{
    Arg::new(alloc, id).num_args(0..).help(help)
}

/// `--name VALUE`.
fn option_word<'a>(alloc: Global, name: &'a str, help: &'a str) -> Arg<'a>
    ensures rule { rule_of result ≡ option_word name.entry.now }
    ensures local { result.global ≡ false }
{
    Arg::new(alloc, name)
        .long(name)
        .action(ArgAction::Set)
        .help(help)
}

/// `--name`.
fn flag<'a>(alloc: Global, name: &'a str, help: &'a str) -> Arg<'a>
    ensures rule { rule_of result ≡ flag name.entry.now }
    ensures local { result.global ≡ false }
{
    Arg::new(alloc, name)
        .long(name)
        .action(ArgAction::SetTrue)
        .help(help)
}

/// `query`.
fn query<'a>(alloc: Global) -> Result<Command<'a>, AllocError>
    ensures { IfOk result (IsCommand query_app) }
{
    let command = named(alloc, "query", help::QUERY, help::QUERY_EXAMPLE)
        .arg(option_word(alloc, "how-many", help::HOW_MANY))?
        .arg(option_word(alloc, "hops", help::HOPS))?
        .arg(option_word(alloc, "follow", help::FOLLOW))?
        .arg(option_word(alloc, "id", help::IDENTIFIER))?
        .arg(flag(alloc, "exact", help::EXACT))?;
    command
        .arg(literal_word(alloc, "ref", help::LOOKUP))?
        .arg(literal_word(alloc, "type", help::SERVICE_TYPE))?
        .arg(literal_word(alloc, "constraint", help::CONSTRAINT))?
        .arg(literal_word(alloc, "preference", help::PREFERENCE))?
        .arg(many(alloc, "name", help::NAMES))
}

/// A subcommand without options.
fn placed<'a>(alloc: Global, usage: &Usage) -> Result<Command<'a>, AllocError>
    ensures { IfOk result (IsCommand (usage_in usage.now)) }
{
    let mut command = named(alloc, usage.name, usage.about, usage.example);
    for word in usage.places {
        command = command.arg(literal_word(alloc, word.id, word.help))?;
    }
    match &usage.more {
        Some(word) => command.arg(many(alloc, word.id, word.help)),
        None => Ok(command),
    }
}

/// The program without its subcommands.
fn top<'a>(alloc: Global) -> Result<Command<'a>, AllocError>
    ensures { IfOk result (IsCommand top_app) }
{
    Command::new(alloc, "tradecli")
        .about(help::PROGRAM)
        .after_help(help::PROGRAM_END)
        .no_binary_name(true)
        .subcommand_required(true)
        .bin_name("tradecli")
}

/// With these subcommands.
fn with_usages<'a>(
    alloc: Global,
    mut command: Command<'a>,
    usages: &[Usage],
) -> Result<Command<'a>, AllocError>
    requires { (out-Command command).has_globals ≡ false }
    ensures { IfOk result (IsCommand (with_apps (app_of command.entry)
        (map usage_in usages.now))) }
{
    for usage in usages {
        command = command.subcommand(placed(alloc, usage)?)?;
    }
    Ok(command)
}

/// With the queries.
fn with_query<'a>(alloc: Global) -> Result<Command<'a>, AllocError>
    ensures { IfOk result (IsCommand (with_subcommand top_app query_app.top)) }
{
    top(alloc)?.subcommand(query(alloc)?)
}

/// The whole program.
///
/// # Errors
///
/// `AllocError` when out of memory.
pub fn tool<'a>(alloc: Global) -> Result<Command<'a>, AllocError>
    ensures { IfOk result (IsCommand tool_app) }
{
    let command = with_query(alloc)?;
    with_usages(alloc, command, &USAGES)
}
