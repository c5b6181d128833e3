//! The history of the desk.

use td_cdr::{Order, Text};
use td_iter::{DeskEntry, Item};

/// A call that was done on the desk.
#[derive(Drop)]
pub enum Event {
    /// A number was drawn.
    Draw,
    /// An iterator was put on the desk.
    Add(DeskEntry<Item>),
    /// It was asked how many are left of the iterator of this trader and number.
    Left {
        trader: Text,
        number: u64,
    },
    /// Its batch for n items was asked for, in a message of this byte order.
    Next {
        trader: Text,
        number: u64,
        n: u32,
        order: Order,
    },
    /// It was taken off the desk.
    Destroy {
        trader: Text,
        number: u64,
    },
}
