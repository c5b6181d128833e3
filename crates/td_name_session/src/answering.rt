//! A message whose head is in the grammar: what it is answered with.

ghost use Rattle.std.specs.Prelude.{◌≤◌, ◌<◌, ◌^◌, OnOk, OnErr};
ghost use Rattle.td_giop.specs.declared.header.TheConstants.{NEWEST_MINOR};
ghost use Rattle.td_name_session.specs.ReplyBytes.{reply_to};
ghost use Rattle.td_name_session.specs.Stages.{NotesHead, NotesLocate, ServesMessage, Stays, stage_in};
ghost use Rattle.td_stream.specs.Heads.{HasHead, IsMessage, asked_of};

use crate::judging::is_live;
use crate::reply_to::ReplyTo;
use crate::room::NameRoom;
use crate::serving::serve_request;
use std::alloc::Global;
use td_cdr::{Memory, Order};
use td_giop::{Raw, RequestHead};
use td_naming::Names;
use td_stream::Head;

/// Answers a message. Its reply stands in the room then.
///
/// # Errors
///
/// `Memory` where there is no room to note it; nothing was done then.
pub(crate) fn answer_message<N: Names>(
    alloc: Global,
    names: &mut N,
    room: &mut NameRoom,
    message: &Raw<'_>,
    head: &Head<'_>,
) -> Result<(), Memory>
    requires whole { IsMessage message.now }
    requires head { HasHead message.now head.now }
    requires numbers { room.old.desk.1 < 2 ^ 63 }
    ensures same { N.same names.old names.new }
    ensures ok { OnOk result
        (ServesMessage N.others (stage_in (N.view names.old) room.old)
        message.now.bytes.now room.new.replies (stage_in (N.view names.new) room.new)) }
    ensures err { OnErr result (Stays (stage_in (N.view names.old) room.old)
        (stage_in (N.view names.new) room.new)) }
{
    match head {
        Head::Request(request) => {
            answer_request(alloc, names, room, message.order, message.minor, request)
        }
        Head::Locate(id, key) => {
            answer_locate(names, room, message.order, message.minor, *id, key)
        }
        Head::Cancel(_id) => {
            room.replies.clear();
            Ok(())
        }
    }
}

/// Serves a Request, and notes its point, in room that is taken before.
///
/// # Errors
///
/// `Memory` where there is no room to note it; nothing was done then.
fn answer_request<N: Names>(
    alloc: Global,
    names: &mut N,
    room: &mut NameRoom,
    order: Order,
    minor: u8,
    head: &RequestHead<'_>,
) -> Result<(), Memory>
    requires version { minor ≤ NEWEST_MINOR }
    requires numbers { room.old.desk.1 < 2 ^ 63 }
    ensures same { N.same names.old names.new }
    ensures ok { OnOk result (NotesHead N.others (reply_to order minor (asked_of head.now))
        head.now.key.now head.now.operation.now head.now.body (stage_in (N.view names.old) room.old)
        room.new.replies (stage_in (N.view names.new) room.new)) }
    ensures err { OnErr result (Stays (stage_in (N.view names.old) room.old)
        (stage_in (N.view names.new) room.new)) }
{
    room.journal.reserve(1)?;
    let to = ReplyTo {
        order,
        minor,
        id: head.id,
        answered: head.answered,
    };
    let point = serve_request(
        alloc,
        names,
        &mut room.iterators,
        &mut room.replies,
        to,
        head,
    );
    room.journal.push_reserved(point);
    Ok(())
}

/// Answers a LocateRequest: whether its key is that of a live object.
///
/// # Errors
///
/// `Memory` where there is no room to note it; nothing was done then.
fn answer_locate<N: Names>(
    names: &mut N,
    room: &mut NameRoom,
    order: Order,
    minor: u8,
    id: u32,
    key: &[u8],
) -> Result<(), Memory>
    requires version { minor ≤ NEWEST_MINOR }
    ensures same { N.same names.old names.new }
    ensures ok { OnOk result (NotesLocate N.others order minor id key.now
        (stage_in (N.view names.old) room.old) room.new.replies
        (stage_in (N.view names.new) room.new)) }
    ensures err { OnErr result (Stays (stage_in (N.view names.old) room.old)
        (stage_in (N.view names.new) room.new)) }
{
    room.journal.reserve(1)?;
    let live = is_live(names, &mut room.iterators, key);
    room.replies.locate(order, minor, id, live);
    room.journal.push_reserved(names.point());
    Ok(())
}
