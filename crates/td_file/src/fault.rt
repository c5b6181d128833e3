//! Why a file is refused.

ghost use Rattle.std.specs.Prelude.{◌≡◌};

use td_cdr::Memory;
use td_lines::LineCause;
use thiserror::Error;

/// Why a file isn't opened.
#[derive(Clone, Copy, Debug, PartialEq, Eq, Error)]
pub enum FileFault {
    /// An entry is refused: the number, counted from 1, of its first line, and why.
    #[error("line {0}: {1}")]
    Line(u32, LineCause),
    /// Out of memory.
    #[error("there is no memory left")]
    Memory,
}

impl From<Memory> for FileFault {
    ghost use Rattle.td_file.specs.declared.fault.FileFault.TheVariants.{Memory as MemoryFault};

    ghost from_gives = { λ _ e. e ≡ MemoryFault };

    fn from(_e: Memory) -> FileFault {
        FileFault::Memory
    }
}
