//! Why a line is refused.

ghost use Rattle.std.specs.Prelude.{◌≡◌};

use td_cdr::Memory;
use thiserror::Error;

/// Why an entry of the file is refused.
#[derive(Clone, Copy, Debug, PartialEq, Eq, Error)]
pub enum LineCause {
    /// An unknown first word, or a wrong number of words.
    #[error("words")]
    Words,
    /// A name that isn't one of those known, or that can't be one.
    #[error("name")]
    Name,
    /// A port that is none.
    #[error("number")]
    Number,
    /// A line out of its place, or none where the address must be.
    #[error("place")]
    Place,
    /// What may stand once stands twice.
    #[error("twice")]
    Twice,
    /// A value that isn't one of its type.
    #[error("value")]
    Value,
    /// A word that is no reference.
    #[error("reference")]
    Reference,
    /// The operation refuses it.
    #[error("rejected")]
    Rejected,
}

/// Why a line isn't taken.
#[derive(Clone, Copy, Debug, PartialEq, Eq)]
pub(crate) enum Misfit {
    /// It is refused.
    Is(LineCause),
    /// Out of memory.
    Memory,
}

impl From<Memory> for Misfit {
    ghost use Rattle.td_lines.specs.declared.cause.Misfit.TheVariants.{Memory as MemoryFault};

    ghost from_gives = { λ _ e. e ≡ MemoryFault };

    fn from(_e: Memory) -> Misfit {
        Misfit::Memory
    }
}
