//! What the words ask an object for, or why they are refused.

ghost use Rattle.std.specs.Prelude.{◌≡◌, map, string_bytes};
ghost use Rattle.std.specs.List.{list_any};
ghost use Rattle.td_cli_request.specs.Askings.{asking_of};
ghost use Rattle.td_cdr.specs.Text.{has_nul};
ghost use Rattle.td_cli_program.specs.Words.{Makes, ParsesWords};
ghost use Rattle.td_cli_args.specs.Wishes.{asked_by};

use std::alloc::Global;
use td_cdr::has_nul;
use td_cli_args::{Refusal, Wanted, ask};
use td_cli_request::{AskFault, Asking, asking_of};

/// Whether one of the words has a NUL.
fn have_nul(words: &[String]) -> bool
    ensures { result ≡ list_any (λ word. has_nul (string_bytes word)) words.now }
{
    words.iter().any(|word| has_nul(word.as_bytes()))
}

/// What is made of the words that clap read.
fn make(alloc: Global, wanted: &Wanted<'_>) -> Result<Asking, Refusal>
    ensures { Makes (asking_of (asked_by wanted.now)) result }
{
    match asking_of(alloc, wanted) {
        Ok(asking) => Ok(asking),
        Err(AskFault::Form) => Err(Refusal::Form),
        Err(AskFault::Memory) => Err(Refusal::Memory),
    }
}

/// What the words ask an object for.
///
/// # Errors
///
/// Why the words are refused.
pub(crate) fn asking_in(alloc: Global, words: &[String]) -> Result<Asking, Refusal>
    ensures { ParsesWords (map string_bytes words.now) result }
{
    if have_nul(words) {
        return Err(Refusal::Form);
    }
    match ask(alloc, words) {
        Err(refusal) => Err(refusal),
        Ok(wanted) => {
            let answer = make(alloc, &wanted);
            drop(wanted);
            answer
        }
    }
}
