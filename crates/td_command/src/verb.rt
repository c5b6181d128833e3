//! The words of a command: a verb, and what it is about.

ghost use Rattle.std.specs.Prelude.{◌≡◌, ◌≤◌, IfSome};
ghost use Rattle.td_command.specs.Commands.{count_of, from_one, verb_name, verb_named};

use td_cdr::{Named, find_named};
use td_ior::number_up_to;

/// What a command does.
#[derive(Clone, Copy, Debug, PartialEq, Eq)]
pub(crate) enum Verb {
    /// Serves a session with the traders of a file.
    Pipe,
    /// Prints what a file opens.
    Check,
    /// Prints the file of a ring of so many traders.
    Make,
    /// Drills such a ring.
    Drill,
}

impl Named for Verb {
    ghost name_of = { verb_name };

    fn name(self) -> &'static [u8] {
        match self {
            Verb::Pipe => b"pipe",
            Verb::Check => b"check",
            Verb::Make => b"make",
            Verb::Drill => b"drill",
        }
    }
}

pub(crate) fn verb_named(word: &[u8]) -> Option<Verb>
    ensures { result ≡ verb_named word.now }
{
    find_named(&[Verb::Pipe, Verb::Check, Verb::Make, Verb::Drill], word)
}

/// The same number, but for 0.
fn from_one(count: u64) -> Option<u32>
    requires { count ≤ 64 }
    ensures content { result ≡ from_one count }
    ensures within { IfSome result (λ n. (1 ≤ n) × (n ≤ 64)) }
{
    if count == 0 { None } else { Some(count as u32) }
}

/// The number of traders that a word tells: from 1 to 64, in decimal without leading zeros.
pub fn count_of(word: &[u8]) -> Option<u32>
    ensures content { result ≡ count_of word.now }
    ensures within { IfSome result (λ n. (1 ≤ n) × (n ≤ 64)) }
{
    match number_up_to(word, 64) {
        Some(count) => from_one(count),
        None => None,
    }
}
