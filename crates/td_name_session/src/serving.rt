//! One Request, from its head to its reply and its point.

ghost use Rattle.std.specs.Prelude.{◌≡◌, ◌<◌, ◌^◌};
ghost use Rattle.td_name_session.specs.Invoking.{Handles, InvokesInto};
ghost use Rattle.td_name_session.specs.ReplyBytes.{IsWritable};
ghost use Rattle.td_name_session.specs.Scenes.{scene};
ghost use Rattle.td_name_session.specs.Turns.{ServesHead, point_of};
ghost use Rattle.td_name_session.specs.declared.judging.Judged.TheVariants as asked;

use crate::answer::{Answer, no_memory, plain, refusal_outcome};
use crate::calls::invoke;
use crate::finishing::finish_reply;
use crate::iterators::Iterators;
use crate::judging::{Judged, judge};
use crate::keys::NameKey;
use crate::replies::Replies;
use crate::reply_to::ReplyTo;
use std::alloc::Global;
use td_cdr::Writer;
use td_giop::{RequestHead, start_reply};
use td_name_ops::NameCall;
use td_naming::Names;

/// The reply status of a result.
const NO_EXCEPTION: u32 = 0;

/// Serves a Request, leaves its reply, which has no bytes where none is expected, and answers its point: of an accepted
/// change how many were accepted before it, and of any other how many are seen. When memory runs out the reply is
/// NO_MEMORY, and no change was made then.
pub(crate) fn serve_request<N: Names>(
    alloc: Global,
    names: &mut N,
    iterators: &mut Iterators,
    replies: &mut Replies,
    to: ReplyTo,
    head: &RequestHead<'_>,
) -> u64
    requires version { IsWritable to }
    requires numbers { iterators.old.1 < 2 ^ 63 }
    ensures same { N.same names.old names.new }
    ensures serves { ServesHead N.others to head.now.key.now head.now.operation.now head.now.body
        (scene (N.view names.old) iterators.old) replies.new result
        (scene (N.view names.new) iterators.new) }
{
    let answer = handle(alloc, names, iterators, &mut replies.long, to, head);
    replies.is_long = finish_reply(
        alloc,
        &mut replies.short,
        &mut replies.long,
        to,
        answer.body,
    );
    point_of(names.point(), answer.accepted)
}

/// The point of an act: how many changes were accepted before it.
fn point_of(seen: u64, accepted: bool) -> u64
    ensures { result ≡ point_of seen accepted }
{
    if accepted {
        seen.saturating_sub(1)
    } else {
        seen
    }
}

/// Judges a Request and performs what it asks, with a writer that is begun for the Reply with a result.
fn handle<N: Names>(
    alloc: Global,
    names: &mut N,
    iterators: &mut Iterators,
    w: &mut Writer,
    to: ReplyTo,
    head: &RequestHead<'_>,
) -> Answer
    requires version { IsWritable to }
    requires numbers { iterators.old.1 < 2 ^ 63 }
    ensures same { N.same names.old names.new }
    ensures handles { Handles N.others to head.now.key.now head.now.operation.now head.now.body
        (scene (N.view names.old) iterators.old) result w.new
        (scene (N.view names.new) iterators.new) }
{
    match judge(
        alloc,
        names,
        iterators,
        head.key,
        head.operation,
        &head.body,
    ) {
        Ok(judged) => serve_judged(alloc, names, iterators, w, to, judged),
        Err(_) => no_memory(),
    }
}

/// Performs a call, or refuses what is none.
fn serve_judged<N: Names>(
    alloc: Global,
    names: &mut N,
    iterators: &mut Iterators,
    w: &mut Writer,
    to: ReplyTo,
    judged: Judged,
) -> Answer
    requires version { IsWritable to }
    requires numbers { iterators.old.1 < 2 ^ 63 }
    ensures same { N.same names.old names.new }
    ensures performed { InvokesInto N.others to judged (scene (N.view names.old) iterators.old)
        result w.new (scene (N.view names.new) iterators.new) }
{
    match judged {
        Judged::Call { key, call } => begin(alloc, names, iterators, w, to, key, call),
        Judged::Refused { kind, minor } => plain(refusal_outcome(kind, minor)),
    }
}

/// Performs a call, with a writer that is begun for the Reply with a result. When memory runs out for that, nothing
/// is called.
fn begin<N: Names>(
    alloc: Global,
    names: &mut N,
    iterators: &mut Iterators,
    w: &mut Writer,
    to: ReplyTo,
    key: NameKey,
    call: NameCall,
) -> Answer
    requires version { IsWritable to }
    requires numbers { iterators.old.1 < 2 ^ 63 }
    ensures same { N.same names.old names.new }
    ensures performed { InvokesInto N.others to (asked.Call key call)
        (scene (N.view names.old) iterators.old) result w.new
        (scene (N.view names.new) iterators.new) }
{
    w.restart(to.order);
    match start_reply(w, to.minor, to.id, NO_EXCEPTION) {
        Ok(()) => invoke(alloc, names, iterators, w, key, call),
        Err(_) => {
            drop(call);
            no_memory()
        }
    }
}
