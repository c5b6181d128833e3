//! What the words ask for, or why they are refused.

ghost use Rattle.std.specs.Prelude.{◌≡◌, ◌≢◌, ◌⊎◌, [], map, string_bytes, IfOk, IfErr, OnOk};
ghost use Rattle.clap.specs.Words.{kind_of, subcommand_rows_of};
ghost use Rattle.td_cli_args.specs.Answers.{IsParseOfWords, IsRefusal, asked_of, refusals};
ghost use Rattle.td_cli_args.specs.Matches.{read_matches};
ghost use Rattle.td_cli_args.specs.declared.parsing.Refusal.TheVariants as refusal;

use crate::command::tool;
use crate::read::read_matches;
use crate::wanted::Wanted;
use clap::ArgMatches;
use clap::error::ErrorKind;
use std::alloc::{AllocError, Global};

/// Why the words are refused.
#[derive(Debug, Drop)]
pub enum Refusal {
    /// Out of memory.
    Memory,
    /// clap refuses the words.
    Words(clap::Error),
    /// A word isn't in its form.
    Form,
}

impl From<AllocError> for Refusal {
    ghost from_gives = { λ _ r. r ≡ refusal.Memory };

    fn from(_error: AllocError) -> Refusal {
        Refusal::Memory
    }
}

/// What the words ask for.
///
/// # Errors
///
/// `Words` only where clap refuses the words, which it does of no documented ones; `Form` where it doesn't, and they
/// ask for nothing; `Memory` when out of memory.
pub fn ask<'a>(alloc: Global, words: &'a [String]) -> Result<Wanted<'a>, Refusal>
    ensures { IsParseOfWords (map string_bytes words.now) result }
{
    let matches = parse(alloc, words)?;
    match read_matches(alloc, &matches)? {
        Some(wanted) => Ok(wanted),
        None => Err(Refusal::Form),
    }
}

/// What clap reads of the words.
fn parse<'a>(alloc: Global, words: &'a [String]) -> Result<ArgMatches<'a>, Refusal>
    ensures ok { IfOk result (λ m. read_matches (subcommand_rows_of m)
        ≡ asked_of (map string_bytes words.now)) }
    ensures taken { OnOk result (refusals (map string_bytes words.now) ≡ []) }
    ensures err { IfErr result (IsRefusal (map string_bytes words.now)) }
{
    let command = tool(alloc)?;
    match command.try_get_matches_from(words) {
        Ok(matches) => Ok(matches),
        Err(error) => Err(refused(error)),
    }
}

/// Tells running out of memory from words that clap refuses.
fn refused(error: clap::Error) -> Refusal
    ensures { (result ≡ refusal.Memory)
        ⊎ ((kind_of error ≢ ErrorKind.OutOfMemory) × (result ≡ refusal.Words error)) }
{
    match error.kind() {
        ErrorKind::OutOfMemory => Refusal::Memory,
        _ => Refusal::Words(error),
    }
}
