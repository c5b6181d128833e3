//! The words of the client's program: its subcommands with their help, which clap reads, and what the words ask for.
#![tactic(auto)]

mod command;
mod help;
mod parsing;
mod read;
mod usages;
mod wanted;

ghost use Rattle.std.specs.Prelude.{◌≡◌, ◌≤◌, true, List, ℕ, length, Some};
ghost use Rattle.clap.specs.Lexer.{usize_max};
ghost use Rattle.td_cli_args.specs.Answers.{asked_of, is_taken};
ghost use Rattle.td_cli_args.specs.Forms.{SpellsWords};
ghost use Rattle.td_cli_args.specs.Wishes.{CommandWords};

pub use command::tool;
pub use parsing::{Refusal, ask};
pub use wanted::{ExportWords, LinkWords, QueryWords, TypeWords, Wanted};

/// Of words in the documented form clap makes what they ask for, or it has no memory.
#[tactic(auto, using(crate::proofs::Law::reads))]
pub fn documented_words_are_read()
    ensures { (words : List (List ℕ)) (asked : CommandWords) → SpellsWords words asked
        → length words ≤ usize_max → (is_taken words ≡ true) × (asked_of words ≡ Some asked) }
{}
