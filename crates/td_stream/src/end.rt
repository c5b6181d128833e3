//! How a stream ends.

/// What was wrong with the message at which a stream was broken off.
#[derive(Clone, Copy, Debug, PartialEq, Eq)]
pub enum Cause {
    /// Its first four bytes aren't `GIOP`.
    BadMagic,
    /// Its version isn't 1.0 or 1.1.
    BadVersion,
    /// Its type is above 6.
    BadType,
    /// Its size is above 16 MiB.
    TooLarge,
    /// It is a Reply or a LocateReply, which only a server sends.
    NotForServer,
    /// Its head isn't in the grammar; the place of the fault in the message, in bytes from 0.
    Header(u32),
    /// It is of GIOP 1.1, and fragments of it follow.
    Fragmented,
}

/// How a stream ended. Places are bytes of the stream before the message's first byte.
#[derive(Clone, Copy, Debug, PartialEq, Eq)]
pub enum End {
    /// The input ended after a whole message, or CloseConnection or MessageError came.
    Closed,
    /// The message at this place can't be served.
    Broken(u64, Cause),
    /// The input ended inside the message at this place.
    Truncated(u64),
    /// The source failed.
    ReadFault,
    /// The sink failed.
    WriteFault,
    /// 2^40 bytes were taken, or 1,000,000 Requests served.
    Long,
    /// Out of memory for the bytes on their way, or a servant that found none to answer a message.
    Memory,
}
