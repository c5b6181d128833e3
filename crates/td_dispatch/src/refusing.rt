//! Requests that perform no call: refused ones, and those for whose reading or beginning memory ran out.

ghost use Rattle.std.specs.Prelude.{◌≡◌, ◌⊎◌};
ghost use Rattle.td_lookup.specs.Scenes.{Scene};
ghost use Rattle.td_lookup.specs.NoMemory.{unbegun_entry};
ghost use Rattle.td_servant.specs.Answers.{no_memory};
ghost use Rattle.td_servant.specs.Classes.{IsOfClass};
ghost use Rattle.td_servant.specs.declared.judging.Judged.{Judged};
ghost use Rattle.td_dispatch.specs.ReplyBytes.{IsWritable, reply_for};
ghost use Rattle.td_dispatch.specs.Requests.{RepliesTo};
ghost use Rattle.td_walk.specs.declared.trace.Address.{Address};

use crate::backend::Backend;
use crate::replies::Replies;
use crate::reply_to::ReplyTo;
use std::alloc::Global;
use td_cdr::List;
use td_ops::Outcome;
use td_servant::{Entry, RequestClass};
use td_walk::Trace;

/// Serves a Request of a class for which memory ran out before its call: the reply is NO_MEMORY, which has no bytes
/// where none is expected. Answers what the journal notes: an empty trace of a query, and nothing of any other call.
pub(crate) fn refuse_memory<B: Backend>(
    alloc: Global,
    replies: &mut Replies,
    to: ReplyTo,
    class: RequestClass,
) -> Entry
    requires version { IsWritable to }
    ensures served { (home : Address) (j : Judged) (s : Scene) → IsOfClass class j
        → RepliesTo B.others B.later home to j s no_memory result replies.new s }
    ensures entry { result ≡ unbegun_entry class }
{
    tell_no_memory(alloc, replies, to);
    unbegun_entry(alloc, class)
}

/// What is noted of a Request of a class for which nothing was done.
fn unbegun_entry(alloc: Global, class: RequestClass) -> Entry
    ensures { result ≡ unbegun_entry class }
{
    match class {
        RequestClass::Query => Entry::Walk(Trace {
            items: List::new(alloc),
        }),
        RequestClass::Other => Entry::Plain,
    }
}

/// Leaves the Reply of a Request that spells no call, or NO_MEMORY; no bytes where no reply is expected.
pub(crate) fn tell_refusal(alloc: Global, replies: &mut Replies, to: ReplyTo, outcome: Outcome)
    requires version { IsWritable to }
    ensures { (replies.new ≡ reply_for to outcome) ⊎ (replies.new ≡ reply_for to no_memory) }
{
    let content = replies.tell(alloc, to, &outcome);
    drop(outcome);
    match content {
        Ok(()) => {}
        Err(_) => tell_no_memory(alloc, replies, to),
    }
}

/// Leaves NO_MEMORY, for which there is always room; no bytes where no reply is expected.
fn tell_no_memory(alloc: Global, replies: &mut Replies, to: ReplyTo)
    requires version { IsWritable to }
    ensures { replies.new ≡ reply_for to no_memory }
{
    let outcome = Outcome::no_memory();
    replies.answer(alloc, to, &outcome);
    drop(outcome);
}
