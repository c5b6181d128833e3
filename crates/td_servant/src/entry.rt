//! What a session notes of each Request that it serves.

use td_value::Ior;
use td_walk::{PeerFault, Trace};

/// What is noted of a Request. Traders are counted from 0, a point is a number of changes that a trader had accepted.
#[derive(Drop)]
pub enum Entry {
    /// No trader was called.
    Plain,
    /// A trader was called, at this point of its history.
    Point {
        trader: usize,
        point: u64,
    },
    /// A peer was asked and gave this, and then a trader was called.
    Asked {
        trader: usize,
        point: u64,
        answer: Result<Ior, PeerFault>,
    },
    /// A query visited traders.
    Walk(Trace),
}
