//! The first words of lines.

ghost use Rattle.std.specs.Prelude.{◌≡◌, codes};
ghost use Rattle.std.specs.Option.{option_map};
ghost use Rattle.td_cdr.specs.Format.{value_named};
ghost use Rattle.td_lines.specs.Keywords.{begin_of, head_name, keyword_name, keywords, part_name};

use crate::words::cut_word;
use td_cdr::{Named, find_named};

/// What a line that begins an entry says.
#[derive(Clone, Copy, Debug, PartialEq, Eq)]
pub(crate) enum EntryHead {
    Address,
    Seed,
    Iiop,
    Trader,
    Stem,
    Set,
    Interface,
    Type,
    Offer,
    Proxy,
    Link,
}

/// What a line that belongs to the entry above it says.
#[derive(Clone, Copy, Debug, PartialEq, Eq)]
pub(crate) enum DetailKeyword {
    Prop,
    With,
    Dynamic,
}

/// What a line says.
#[derive(Clone, Copy, Debug, PartialEq, Eq)]
pub(crate) enum Keyword {
    Begins(EntryHead),
    Belongs(DetailKeyword),
}

fn head_name(head: EntryHead) -> &'static str
    ensures { result.now ≡ head_name head }
{
    match head {
        EntryHead::Address => "address",
        EntryHead::Seed => "seed",
        EntryHead::Iiop => "iiop",
        EntryHead::Trader => "trader",
        EntryHead::Stem => "stem",
        EntryHead::Set => "set",
        EntryHead::Interface => "interface",
        EntryHead::Type => "type",
        EntryHead::Offer => "offer",
        EntryHead::Proxy => "proxy",
        EntryHead::Link => "link",
    }
}

fn part_name(part: DetailKeyword) -> &'static str
    ensures { result.now ≡ part_name part }
{
    match part {
        DetailKeyword::Prop => "prop",
        DetailKeyword::With => "with",
        DetailKeyword::Dynamic => "dynamic",
    }
}

impl Named for Keyword {
    ghost name_of = { keyword_name };

    fn name(self) -> &'static [u8] {
        match self {
            Keyword::Begins(head) => head_name(head).as_bytes(),
            Keyword::Belongs(part) => part_name(part).as_bytes(),
        }
    }
}

fn keyword_named(word: &[u8]) -> Option<Keyword>
    ensures { result ≡ value_named keyword_name keywords word.now }
{
    find_named(
        &[
            Keyword::Begins(EntryHead::Address),
            Keyword::Begins(EntryHead::Seed),
            Keyword::Begins(EntryHead::Iiop),
            Keyword::Begins(EntryHead::Trader),
            Keyword::Begins(EntryHead::Stem),
            Keyword::Begins(EntryHead::Set),
            Keyword::Begins(EntryHead::Interface),
            Keyword::Begins(EntryHead::Type),
            Keyword::Begins(EntryHead::Offer),
            Keyword::Begins(EntryHead::Proxy),
            Keyword::Begins(EntryHead::Link),
            Keyword::Belongs(DetailKeyword::Prop),
            Keyword::Belongs(DetailKeyword::With),
            Keyword::Belongs(DetailKeyword::Dynamic),
        ],
        word,
    )
}

/// What the first word of a line says, and what stands right behind it.
#[tactic(auto, unfolding(crate::specs::Keywords::begin_of))]
pub(crate) fn begin_of(line: &[u8]) -> Option<(Keyword, &[u8])>
    ensures { option_map (λ b. (b.0, b.1.now)) result ≡ begin_of line.now }
{
    let (word, rest) = cut_word(line)?;
    let keyword = keyword_named(word)?;
    Some((keyword, rest))
}
