//! Why words can't be asked for.

ghost use Rattle.std.specs.Prelude.{◌≡◌};

use td_cdr::Memory;
use thiserror::Error;

/// Why words can't be asked for.
#[derive(Clone, Copy, Debug, PartialEq, Eq, Error)]
pub enum AskFault {
    /// A word isn't in its form.
    #[error("a word isn't in its form")]
    Form,
    /// Out of memory.
    #[error("there is no memory left")]
    Memory,
}

impl From<Memory> for AskFault {
    ghost use Rattle.td_cli_request.specs.declared.fault.AskFault.TheVariants.{Memory as MemoryFault};

    ghost from_gives = { λ _ e. e ≡ MemoryFault };

    fn from(_memory: Memory) -> AskFault {
        AskFault::Memory
    }
}
