//! The history of a naming store.

use td_names::NameAct;

/// An accepted change with its reply.
#[derive(Drop)]
pub struct NameChange {
    /// The number of the context that was called.
    pub context: u32,
    pub act: NameAct,
    /// The number of the context that it made, whose reference is its reply. Any other reply is empty.
    pub made: Option<u32>,
}
