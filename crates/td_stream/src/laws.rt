//! What holds of all streams, as a function that does nothing: its contract is the law.

ghost use Rattle.td_stream.specs.declared.end.End.{End};
ghost use Rattle.td_stream.specs.Outside.{Outside};
ghost use Rattle.td_stream.specs.Streams.{Streams};
ghost use Rattle.td_stream.specs.Completeness.{Completes};

use crate::servant::Servant;

/// Where the source is whole messages that a server can be sent, within a stream's limits, and neither it nor
/// the sink fails, all before the first that closes the stream are answered, in order, and it is closed, or it
/// ends when out of memory.
pub fn all_messages_are_answered<V: Servant>()
    ensures { (s u : V) (end : End) (before after : Outside)
        → Streams V.serves V.stays s u end before after
        → Completes V.serves V.stays s u end before after }
{}
