//! What an object is asked for.

use td_ops::{Call, Query};
use td_value::Ior;

/// What an object is asked for.
#[derive(Drop)]
pub enum Asking {
    /// A trader for offers; its iterator is drained.
    Query { target: Ior, query: Query },
    /// An object for one reply.
    Call { target: Ior, call: Call },
}
