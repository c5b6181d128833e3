//! What an audit finds.

use td_net::NetFault;

/// Why a line fails.
#[derive(Clone, Copy, Debug, PartialEq, Eq)]
pub enum Cause {
    /// The network refuses the event, for this fault, which is never `Memory`.
    Net(NetFault),
    /// The trader refuses the change.
    Refused,
    /// The recorded reply isn't the one that the server writes.
    Differs,
    /// The call is no query that was asked, or hasn't ended.
    NotEnded,
}

/// What a log comes to. Lines are counted from 1.
#[derive(Clone, Copy, Debug, PartialEq, Eq)]
pub enum Verdict {
    /// Each of so many lines is what the network does.
    Yes(u32),
    /// The line of this number is the first that isn't.
    No(u32, Cause),
    /// The line of this number isn't in the log's table, and those before it are what the network does.
    Line(u32),
    /// Out of memory.
    Memory,
}

/// Why a line stops an audit.
#[derive(Clone, Copy, Debug, PartialEq, Eq)]
pub(crate) enum AuditStop {
    At(Cause),
    Memory,
}

/// Why a line of a log ends an audit.
#[derive(Clone, Copy, Debug, PartialEq, Eq)]
pub(crate) enum Halt {
    At(Cause),
    /// It isn't in the table.
    Strange,
    Memory,
}
