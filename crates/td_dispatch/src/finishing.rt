//! From an answer to its reply, and what is noted in the end.

ghost use Rattle.std.specs.Prelude.{◌≡◌, ◌<◌, length};
ghost use Rattle.td_cdr.specs.Writing.{Draft};
ghost use Rattle.td_lookup.specs.Scenes.{Scene};
ghost use Rattle.td_lookup.specs.Answering.{no_memory_entry};
ghost use Rattle.td_lookup.specs.NoMemory.{no_memory_outcome};
ghost use Rattle.td_ops.specs.declared.call.Call.{Call as Asked};
ghost use Rattle.td_ops.specs.declared.outcome.Outcome.{Outcome as Told};
ghost use Rattle.td_servant.specs.Answers.{IfLong};
ghost use Rattle.td_servant.specs.declared.judging.Judged.TheVariants as spelled;
ghost use Rattle.td_servant.specs.declared.objects.Object.{Object};
ghost use Rattle.td_dispatch.specs.ReplyBytes.{BeginsReply, IsWritable, reply_for};
ghost use Rattle.td_dispatch.specs.Requests.{RepliesTo};
ghost use Rattle.td_dispatch.specs.Serving.{HasHead, Invokes};
ghost use Rattle.td_walk.specs.declared.trace.Address.{Address};

use crate::backend::Backend;
use crate::replies::Replies;
use crate::reply_to::ReplyTo;
use std::alloc::Global;
use td_cdr::Writer;
use td_lookup::no_memory_outcome;
use td_servant::{Answer, Entry, ReplyBody};

/// Leaves the reply for an answer, and tells what is noted. The writer that was begun for the Reply is taken back: it
/// may hold the body already. When memory runs out for a long outcome, the reply is NO_MEMORY, and what is noted is
/// what stands for the entry then.
pub(crate) fn finish_reply<B: Backend>(
    alloc: Global,
    backend: &B,
    trader: usize,
    replies: &mut Replies,
    to: ReplyTo,
    w: Writer,
    answer: Answer,
) -> Entry
    requires version { IsWritable to }
    requires head { HasHead answer.body w }
    requires within { IfLong answer.body (trader < length (B.seen backend.now).world) }
    ensures { (home : Address) (x : Object) (c : Asked) (draft : Draft) (s t : Scene)
        → BeginsReply to draft → t.world ≡ (B.seen backend.now).world
        → Invokes B.others B.later home (spelled.Call x c) trader draft s answer.body answer.entry
        w t → (o : Told) × RepliesTo B.others B.later home to (spelled.Call x c) s o result
        replies.new
        t }
{
    let Answer { body, entry } = answer;
    match body {
        ReplyBody::Written => {
            replies.finish(to, w);
            entry
        }
        ReplyBody::Outcome(outcome) => {
            replies.give_up(w);
            let content = replies.tell(alloc, to, &outcome);
            drop(outcome);
            match content {
                Ok(()) => entry,
                Err(_) => finish_without_memory(alloc, backend, trader, replies, to, entry),
            }
        }
    }
}

/// Leaves NO_MEMORY in place of an answer with this entry, and tells what is noted then.
fn finish_without_memory<B: Backend>(
    alloc: Global,
    backend: &B,
    trader: usize,
    replies: &mut Replies,
    to: ReplyTo,
    entry: Entry,
) -> Entry
    requires version { IsWritable to }
    requires within { trader < length (B.seen backend.now).world }
    ensures entry { result ≡ no_memory_entry (B.seen backend.now).world trader entry }
    ensures reply { replies.new ≡ reply_for to (no_memory_outcome result) }
{
    let entry = backend.entry_at_no_memory(trader, entry);
    let outcome = no_memory_outcome(&entry);
    replies.answer(alloc, to, &outcome);
    drop(outcome);
    entry
}
