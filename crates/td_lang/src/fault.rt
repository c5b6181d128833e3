//! Why a text is refused.

ghost use Rattle.std.specs.Prelude.{◌≡◌};
ghost use Rattle.td_lang.specs.declared.fault.LangFault.TheVariants.{Memory as memory};

use td_cdr::Memory;
use thiserror::Error;

/// Why a text is no constraint, preference or recipe. Places are counted in bytes from 0.
#[derive(Clone, Copy, Debug, Error, PartialEq, Eq)]
pub enum LangFault {
    /// The first byte of the first token that the grammar doesn't allow, or the length of a text that
    /// ends early.
    #[error("the text is not in the grammar at byte {0}")]
    Syntax(u32),
    /// The first byte of a number with a fraction or an exponent.
    #[error("a number with a fraction or an exponent stands at byte {0}")]
    Float(u32),
    /// The 65th open parenthesis.
    #[error("too many parentheses are open at byte {0}")]
    Depth(u32),
    /// There are more than 4,096 bytes.
    #[error("the text is too long")]
    TooLong,
    /// Out of memory.
    #[error("there is no memory left")]
    Memory,
}

impl From<Memory> for LangFault {
    ghost from_gives = { λ _ e. e ≡ memory };

    fn from(_memory: Memory) -> LangFault {
        LangFault::Memory
    }
}
