//! A Request: it is served, and what came of it is noted.

ghost use Rattle.std.specs.Prelude.{◌<◌, ◌^◌, length, OnOk, OnErr};
ghost use Rattle.td_cdr.specs.Lawful.{AreOctets};
ghost use Rattle.td_session.specs.Serving.{ServesMessage, Stays};
ghost use Rattle.td_session.specs.Stages.{stage_in};
ghost use Rattle.td_stream.specs.Heads.{HasHead, IsMessage};
ghost use Rattle.td_stream.specs.declared.head.Head.TheVariants as spelled;

use crate::room::Room;
use std::alloc::Global;
use td_cdr::{Memory, Reader};
use td_dispatch::{Backend, Replies, ReplyTo, serve_request};
use td_giop::{Raw, RequestHead};
use td_journal::Journal;

/// Serves a Request, and notes what came of it, in room that is taken before. Its reply stands in the room then.
///
/// # Errors
///
/// `Memory` where there is no room to note it; nothing was done then.
pub(crate) fn answer_request<B: Backend, J: Journal>(
    alloc: Global,
    backend: &mut B,
    room: &mut Room<J>,
    message: &Raw<'_>,
    head: &RequestHead<'_>,
) -> Result<(), Memory>
    requires whole { IsMessage message.now }
    requires head { HasHead message.now (spelled.Request head.now) }
    requires numbers { room.old.desk.1 < 2 ^ 63 }
    ensures same { B.same backend.old backend.new }
    ensures ok { OnOk result
        (ServesMessage B.others B.later (stage_in (B.seen backend.old) room.old)
        message.now.bytes.now room.new.replies (stage_in (B.seen backend.new) room.new)) }
    ensures err { OnErr result
        (Stays (stage_in (B.seen backend.old) room.old) (stage_in (B.seen backend.new) room.new)) }
{
    room.journal.take_room()?;
    let to = ReplyTo {
        order: message.order,
        minor: message.minor,
        id: head.id,
        answered: head.answered,
    };
    let entry = serve_request(
        alloc,
        backend,
        &room.home,
        &mut room.desk,
        &mut room.replies,
        to,
        head,
    );
    room.journal.note(entry);
    message_bounds(&head.body, &room.replies);
    Ok(())
}

/// What the types of a message's parts say: a body's bytes are octets, and a reply has fewer than 2^32 of them.
fn message_bounds(body: &Reader<'_>, replies: &Replies)
    ensures octets { AreOctets body.now.rest }
    ensures short { length replies.now < 2 ^ 32 }
{
    let _body = body.copied();
    let _reply = replies.bytes();
}
