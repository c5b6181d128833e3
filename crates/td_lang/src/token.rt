//! The tokens of the three languages.

use crate::expr::Op;
use td_cdr::Text;

/// A word that begins a preference. An expression has none of them.
#[derive(Clone, Copy)]
pub enum Keyword {
    First,
    Random,
    Min,
    Max,
    With,
}

/// A token.
#[derive(Drop)]
pub enum Token {
    /// An operator between two operands; `-` before a number is one too.
    Operator(Op),
    /// The word `in`.
    Within,
    Not,
    Exist,
    Open,
    Close,
    /// A name, without the `\` that may stand before it.
    Name(Text),
    /// A number, without a sign.
    Number(u64),
    /// A text in quotes, without them and without the `\` before a quote or a `\`.
    Quoted(Text),
    /// `TRUE` or `FALSE`.
    Truth(bool),
    Keyword(Keyword),
}
