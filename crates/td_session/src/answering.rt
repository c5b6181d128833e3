//! A message whose head is in the grammar: what it is answered with.

ghost use Rattle.std.specs.Prelude.{◌≡◌, ◌<◌, ◌^◌, OnOk, OnErr, None};
ghost use Rattle.td_dispatch.specs.Backends.{scene_of};
ghost use Rattle.td_session.specs.Serving.{ServesMessage, Stays};
ghost use Rattle.td_session.specs.Stages.{stage_in, turn_of};
ghost use Rattle.td_stream.specs.Heads.{HasHead, IsMessage};
ghost use Rattle.td_stream.specs.declared.head.Head.TheVariants as spelled;
ghost use Rattle.td_session_runs.specs.Turns.{ServesLocate};

use crate::request::answer_request;
use crate::room::Room;
use std::alloc::Global;
use td_cdr::Memory;
use td_dispatch::{Backend, Replies};
use td_giop::Raw;
use td_iter::Desk;
use td_journal::Journal;
use td_stream::Head;

/// Answers a message. Its reply stands in the room then.
///
/// # Errors
///
/// `Memory` where there is no room to note a Request; nothing was done then.
pub(crate) fn answer_message<B: Backend, J: Journal>(
    alloc: Global,
    backend: &mut B,
    room: &mut Room<J>,
    message: &Raw<'_>,
    head: &Head<'_>,
) -> Result<(), Memory>
    requires whole { IsMessage message.now }
    requires head { HasHead message.now head.now }
    requires numbers { room.old.desk.1 < 2 ^ 63 }
    ensures same { B.same backend.old backend.new }
    ensures ok { OnOk result
        (ServesMessage B.others B.later (stage_in (B.seen backend.old) room.old)
        message.now.bytes.now room.new.replies (stage_in (B.seen backend.new) room.new)) }
    ensures err { OnErr result
        (Stays (stage_in (B.seen backend.old) room.old) (stage_in (B.seen backend.new) room.new)) }
{
    match head {
        Head::Request(request) => answer_request(alloc, backend, room, message, request),
        Head::Locate(id, key) => {
            answer_locate(
                backend,
                &mut room.desk,
                &mut room.replies,
                message,
                *id,
                key,
            );
            Ok(())
        }
        Head::Cancel(_id) => {
            room.replies.clear();
            Ok(())
        }
    }
}

/// Answers a LocateRequest: whether its key is that of a live object.
fn answer_locate<B: Backend>(
    backend: &B,
    desk: &mut Desk,
    replies: &mut Replies,
    message: &Raw<'_>,
    id: u32,
    key: &[u8],
)
    requires whole { IsMessage message.now }
    requires head { HasHead message.now (spelled.Locate id key) }
    ensures located { ServesLocate (scene_of (B.seen backend.now) desk.old)
        (turn_of message.now.bytes.now None replies.new (scene_of (B.seen backend.now) desk.old)) }
    ensures desk { desk.new ≡ desk.old }
{
    let live = backend.find_object(desk, key).is_some();
    replies.locate(message.order, message.minor, id, live);
}
