//! Why a stream is given up.

use thiserror::Error;

/// Why a message header is refused. The first that fits, in the order magic, version, flags, type, size, is answered.
#[derive(Clone, Copy, Debug, PartialEq, Eq, Error)]
pub enum FrameFault {
    /// The message doesn't begin with `GIOP`.
    #[error("a message doesn't begin with GIOP")]
    BadMagic,
    /// The version isn't 1.0 or 1.1.
    #[error("a message's version isn't 1.0 or 1.1")]
    BadVersion,
    /// The message type is above 6.
    #[error("a message's type isn't known")]
    BadType,
    /// More bytes follow the header than the limit allows.
    #[error("a message is larger than the limit")]
    TooLarge,
    /// The message is of version 1.1, and fragments of it follow.
    #[error("a message is fragmented")]
    Fragmented,
}
