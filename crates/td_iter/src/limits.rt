//! How long a message of a batch may be.

/// How many bytes a message has at most: a header of 12, and the 16 MiB that its size field may tell.
pub const LARGEST_MESSAGE: usize = 16777228;

/// How many bytes stand before the body of a reply: the header, and the reply's head without contexts
/// (CORBA, chapter on General Inter-ORB Protocol, "Reply Message").
pub const REPLY_START: usize = 24;
