//! The message in front of the stream, and what becomes of it.

ghost use Rattle.std.specs.Prelude.{◌≡◌, ◌<◌, ◌^◌};
ghost use Rattle.td_stream.specs.Messages.{message_limit};
ghost use Rattle.td_stream.specs.Outbound.{outbound};
ghost use Rattle.td_stream.specs.Fronts.{FindsFront};

use crate::end::Cause;
use crate::head::{RequestedReply, judge};
use crate::outbox::Outbox;
use crate::servant::Servant;
use std::alloc::Global;
use td_giop::message_type::REQUEST;
use td_giop::{FrameFault, Framer};
use td_out::Sink;

/// What stood in front of the stream, and what became of it.
#[derive(Clone, Copy, Debug, PartialEq, Eq)]
pub(crate) enum Front {
    /// No whole message.
    Nothing,
    /// A bad header.
    Bad(FrameFault),
    /// A message that closes the stream.
    Closes,
    /// A message that can't be answered.
    Breaks(Cause),
    /// A message that was answered, and whether it is a Request. Its reply was put into the outbox.
    Answered { request: bool },
    /// A message for which the servant found no memory.
    Full,
}

/// Does what the message in front of the stream asks. The message stays there; its reply comes behind those before.
pub(crate) fn serve_front<'k, V: Servant, K: Sink>(
    alloc: Global,
    servant: &mut V,
    framer: &mut Framer,
    outbox: &mut Outbox<'k, K>,
) -> Front
    requires limited { framer.old.limit ≡ message_limit }
    requires room { V.budget servant.old < 2 ^ 63 }
    ensures same { V.same servant.old servant.new }
    ensures same_sink { outbox.new.sink.ghost_name ≡ outbox.old.sink.ghost_name }
    ensures finds { FindsFront V.serves V.stays result framer.old.rest servant.old servant.new
        (outbound (K.written outbox.old.sink.now)
        (K.faults outbox.old.sink.now) outbox.old.held.items outbox.old.failed)
        (outbound (K.written outbox.new.sink.now)
        (K.faults outbox.new.sink.now) outbox.new.held.items outbox.new.failed) }
    ensures framer { framer.new ≡ framer.old }
{
    match framer.next_message() {
        Err(fault) => Front::Bad(fault),
        Ok(None) => Front::Nothing,
        Ok(Some(message)) => match judge(&message) {
            RequestedReply::Close => Front::Closes,
            RequestedReply::Break(cause) => Front::Breaks(cause),
            RequestedReply::Answer(head) => match servant.answer(alloc, &message, &head, outbox) {
                Err(_) => Front::Full,
                Ok(()) => {
                    outbox.put(servant.reply());
                    Front::Answered {
                        request: message.kind == REQUEST,
                    }
                }
            },
        },
    }
}
