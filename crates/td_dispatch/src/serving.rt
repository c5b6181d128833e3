//! One Request, from its head to its reply and the journal's entry.

ghost use Rattle.std.specs.Prelude.{◌<◌, ◌^◌};
ghost use Rattle.td_objects.specs.References.{IsAddress};
ghost use Rattle.td_ops.specs.declared.outcome.Outcome.{Outcome as Told};
ghost use Rattle.td_servant.specs.Classes.{request_class};
ghost use Rattle.td_servant.specs.Judging.{judge_request};
ghost use Rattle.td_dispatch.specs.Backends.{scene_of};
ghost use Rattle.td_dispatch.specs.ReplyBytes.{IsWritable};
ghost use Rattle.td_dispatch.specs.Requests.{NotesNoCall, RepliesTo, minor_code};

use crate::backend::Backend;
use crate::finishing::finish_reply;
use crate::refusing::{refuse_memory, tell_refusal};
use crate::replies::Replies;
use crate::reply_to::ReplyTo;
use std::alloc::Global;
use td_giop::RequestHead;
use td_iter::Desk;
use td_ops::Outcome;
use td_servant::{Entry, Judged, class_of};
use td_walk::Address;

/// Serves a Request: reads what it asks for, has its call answered, leaves the reply, which has no bytes where none is
/// expected, and answers what the journal notes. When memory runs out the reply is NO_MEMORY, and no change was made
/// then.
pub fn serve_request<B: Backend>(
    alloc: Global,
    backend: &mut B,
    home: &Address,
    desk: &mut Desk,
    replies: &mut Replies,
    to: ReplyTo,
    head: &RequestHead<'_>,
) -> Entry
    requires version { IsWritable to }
    requires home { IsAddress home.now }
    requires numbers { desk.old.1 < 2 ^ 63 }
    ensures same { B.same backend.old backend.new }
    ensures served { (o : Told) × RepliesTo B.others B.later home.now to
        (judge_request (B.seen backend.old).world desk.old head.now.key.now head.now.operation.now
        head.now.body) (scene_of (B.seen backend.old) desk.old) o result replies.new
        (scene_of (B.seen backend.new) desk.new) }
    ensures no_call { NotesNoCall (request_class (B.seen backend.old).world desk.old
        head.now.key.now head.now.operation.now)
        (judge_request (B.seen backend.old).world desk.old head.now.key.now head.now.operation.now
        head.now.body) result }
{
    match backend.judge(alloc, desk, head.key, head.operation, &head.body) {
        Err(class) => refuse_memory::<B>(alloc, replies, to, class),
        Ok(Judged::Refused(outcome)) => {
            code_bound(&outcome);
            tell_refusal(alloc, replies, to, outcome);
            Entry::Plain
        }
        Ok(Judged::Call { object, call }) => match replies.begin(alloc, to) {
            Err(_) => {
                let class = class_of(&call);
                drop(call);
                refuse_memory::<B>(alloc, replies, to, class)
            }
            Ok(mut w) => {
                let answer = backend.answer_call(alloc, home, desk, &mut w, object, call);
                finish_reply(alloc, backend, object.trader, replies, to, w, answer)
            }
        },
    }
}

/// What the type of an outcome's minor code says: it is a ulong.
fn code_bound(outcome: &Outcome)
    ensures { minor_code outcome.now < 2 ^ 32 }
{
    match outcome {
        Outcome::System { minor, .. } => {
            let _minor = *minor;
        }
        Outcome::Done(_) | Outcome::User(_) => {}
    }
}
