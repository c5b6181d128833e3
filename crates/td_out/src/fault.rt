//! How the outside fails.

ghost use Rattle.std.specs.Prelude.{◌≡◌};
ghost use Rattle.td_out.specs.declared.fault.TextFault.TheVariants.{Failed as of_failure, Memory as of_memory};

use thiserror::Error;

/// The outside failed. The object that answers this raised its count of faults.
#[derive(Clone, Copy, Debug, PartialEq, Eq, Error)]
#[error("the outside failed")]
pub struct Failed;

/// Why a text was not given.
#[derive(Clone, Copy, Debug, PartialEq, Eq, Error)]
pub enum TextFault {
    /// The outside failed, and the object raised its count of faults.
    #[error("the text can't be read")]
    Failed,
    /// The text has more than 64 MiB (67,108,864 bytes).
    #[error("the text is longer than 64 MiB")]
    TooLong,
    /// No memory was found for it.
    #[error("no memory was found for the text")]
    Memory,
}

impl From<td_cdr::Memory> for TextFault {
    ghost from_gives = { λ _ e. e ≡ of_memory };

    fn from(_e: td_cdr::Memory) -> TextFault {
        TextFault::Memory
    }
}

impl From<Failed> for TextFault {
    ghost from_gives = { λ _ e. e ≡ of_failure };

    fn from(_e: Failed) -> TextFault {
        TextFault::Failed
    }
}
