//! The first words of lines.

ghost use Rattle.std.specs.Prelude.{◌≡◌, ◌<◌, length, IfSome};
ghost use Rattle.std.specs.Option.{option_map};
ghost use Rattle.td_cdr.specs.Format.{value_named};
ghost use Rattle.td_log.specs.Keywords.{begin_of, keyword_name, keywords};

use crate::words::cut_word;
use td_cdr::{Named, find_named};

/// What a line records.
#[derive(Clone, Copy, Debug, PartialEq, Eq)]
pub(crate) enum Keyword {
    Words,
    Change,
    Look,
    Ask,
    Deliver,
    Value,
    Answer,
    Lose,
    Reply,
}

impl Named for Keyword {
    ghost name_of = { keyword_name };

    fn name(self) -> &'static [u8] {
        match self {
            Keyword::Words => b"words",
            Keyword::Change => b"change",
            Keyword::Look => b"look",
            Keyword::Ask => b"ask",
            Keyword::Deliver => b"deliver",
            Keyword::Value => b"value",
            Keyword::Answer => b"answer",
            Keyword::Lose => b"lose",
            Keyword::Reply => b"reply",
        }
    }
}

fn keyword_named(word: &[u8]) -> Option<Keyword>
    ensures { result ≡ value_named keyword_name keywords word.now }
{
    find_named(
        &[
            Keyword::Words,
            Keyword::Change,
            Keyword::Look,
            Keyword::Ask,
            Keyword::Deliver,
            Keyword::Value,
            Keyword::Answer,
            Keyword::Lose,
            Keyword::Reply,
        ],
        word,
    )
}

/// What the first word of a line says, and what stands behind the space after it.
#[tactic(auto, unfolding(crate::specs::Keywords::begin_of))]
pub(crate) fn begin_of(line: &[u8]) -> Option<(Keyword, &[u8])>
    ensures begins { option_map (λ b. (b.0, b.1.now)) result ≡ begin_of line.now }
    ensures shorter { IfSome result (λ b. length b.1.now < length line.now) }
{
    let (word, text) = cut_word(line)?;
    let keyword = keyword_named(word)?;
    Some((keyword, text))
}
