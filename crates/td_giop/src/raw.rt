//! A message as the framer lends it.

use td_cdr::Order;

/// A whole message, lent.
#[derive(Clone, Copy, Debug)]
pub struct Raw<'a> {
    /// The place of the message's first byte in the stream, in bytes from 0.
    pub start: u64,
    /// The message type, from 0 to 6.
    pub kind: u8,
    /// The order of the message's numbers.
    pub order: Order,
    /// The message, with its header of 12 bytes.
    pub bytes: &'a [u8],
    /// The minor version, 0 or 1.
    pub minor: u8,
}
