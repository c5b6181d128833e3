//! Why a graph refuses a call.

ghost use Rattle.std.specs.Prelude.{◌≡◌};

use std::alloc::{AllocError, AllocFailed};
use thiserror::Error;

/// Why a call is refused. The graph is then as it was before the call.
#[derive(Clone, Copy, Debug, Error, PartialEq, Eq)]
pub enum GraphFault {
    /// No node was started at this place.
    #[error("no node was started at place {0}")]
    NoPlace(u32),

    /// The node at this place is filled already.
    #[error("the node at place {0} is filled already")]
    Twice(u32),

    /// The node at this place isn't filled, and each one before it is.
    #[error("the node at place {0} isn't filled")]
    Open(u32),

    /// The node at this place is the first of those aliases from which edges over aliases alone lead
    /// back to them.
    #[error("aliases alone lead from place {0} back to it")]
    Loop(u32),

    /// The graph has as many nodes as it takes.
    #[error("the graph has 4096 nodes")]
    Full,

    /// Out of memory.
    #[error("there is no memory left")]
    Memory,
}

impl From<AllocError> for GraphFault {
    ghost use Rattle.tc_graph.specs.declared.fault.GraphFault.{GraphFault};

    ghost from_gives = { λ _ e. e ≡ GraphFault.Memory };

    fn from(_e: AllocError) -> GraphFault {
        GraphFault::Memory
    }
}

impl<T: Drop> From<AllocFailed<T>> for GraphFault {
    ghost use Rattle.tc_graph.specs.declared.fault.GraphFault.{GraphFault};

    ghost from_gives = { λ _ e. e ≡ GraphFault.Memory };

    fn from(_e: AllocFailed<T>) -> GraphFault {
        GraphFault::Memory
    }
}
