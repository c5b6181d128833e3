//! Worked examples, as a function that does nothing: its contract is that they hold.

ghost use Rattle.td_dispatch.specs.Examples.{WorkedReplies};

/// Whole messages: the Replies for an empty result, for a truth value and for NO_MEMORY, what a Request gets that
/// expects none, and both LocateReplies. A truth value and a LocateReply are told in GIOP 1.1 too.
pub fn worked_replies()
    ensures replies { WorkedReplies }
{}
