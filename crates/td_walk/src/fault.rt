//! How a call of a peer fails.

ghost use Rattle.std.specs.Prelude.{◌≡◌};
ghost use Rattle.td_walk.specs.declared.fault.PeerFault.TheVariants.{Memory as memory};

use td_cdr::Memory;
use thiserror::Error;

/// Why a call of a peer gave nothing.
#[derive(Clone, Copy, Debug, Error, PartialEq, Eq)]
pub enum PeerFault {
    /// The peer can't be reached, or its bytes ended before a reply was whole.
    #[error("the peer can't be reached")]
    Wire,
    /// What the peer sent isn't in the grammar.
    #[error("the peer's reply isn't in the grammar")]
    Grammar,
    /// The peer answered an exception.
    #[error("the peer answered an exception")]
    Exception,
    /// Out of memory.
    #[error("there is no memory left")]
    Memory,
}

impl From<Memory> for PeerFault {
    ghost from_gives = { λ _ e. e ≡ memory };

    fn from(_memory: Memory) -> PeerFault {
        PeerFault::Memory
    }
}
