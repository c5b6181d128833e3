//! What is noted of a message.

use td_servant::Entry;

/// What is noted of a message in a session whose server shares a desk of iterators.
#[derive(Drop)]
pub enum SharedEntry {
    /// Of a Request that was served by the traders.
    Session(Entry),
    /// Of a message for an iterator: the place of its call in the desk's history, counted from 0.
    Desk(u64),
}
