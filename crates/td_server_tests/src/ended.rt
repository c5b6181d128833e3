//! Sessions that have ended.

ghost use Rattle.std.specs.Prelude.{◌≡◌, []};

use std::alloc::Global;
use td_accept::Limited;
use td_cdr::{List, Memory};

/// The sessions that were handed on: the number of each, its visitor, that this one was limited, where it was, and what
/// was kept.
#[derive(Drop)]
pub struct EndedSessions<V, E> {
    pub sessions: List<(u64, V, Option<Limited>, E)>,
}

impl<V, E> EndedSessions<V, E> {
    /// None yet. It keeps the allocator, with which it grows.
    pub fn new(alloc: Global) -> EndedSessions<V, E>
        ensures { result.sessions ≡ [] }
    {
        EndedSessions {
            sessions: List::new(alloc),
        }
    }
}
