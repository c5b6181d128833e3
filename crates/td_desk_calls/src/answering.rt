//! Requests for iterators.

ghost use Rattle.std.specs.Prelude.{◌≡◌, ◌<◌, length};
ghost use Rattle.std.specs.Option.{ForSome};
ghost use Rattle.td_cell.specs.Passes.{Belongs, SameCell, SameNumbers, knowledge};
ghost use Rattle.td_desk.specs.Sharing.{StaysInOrder};
ghost use Rattle.td_desk_calls.specs.Calls.{asked_by};
ghost use Rattle.td_desk_calls.specs.Serving.{AnswersFault, ServesIterator};
ghost use Rattle.td_desk_calls.specs.declared.judging.IteratorRequest.TheVariants as asked;
ghost use Rattle.td_ops.specs.Calls.{call_read};
ghost use Rattle.td_dispatch.specs.ReplyBytes.{BeginsReply, IsWritable, reply_for};
ghost use Rattle.td_servant.specs.Answers.{no_memory};
ghost use Rattle.td_value.specs.declared.key.Kind.TheVariants as kind;

use crate::desk_call::{DeskCall, IteratorCall, last_place};
use crate::inquiring::{gone, inquiry_outcome};
use crate::judging::{Inquiry, IteratorRequest, judge};
use std::alloc::Global;
use std::sync::Wait;
use td_cdr::{Text, Writer};
use td_desk::{Begun, DeskFault, DeskPass, SharedDesk};
use td_dispatch::{Replies, ReplyTo};
use td_giop::RequestHead;
use td_ops::{Outcome, Reply};

/// Answers a Request for an iterator: reads what it asks, makes one call of the desk, and leaves the reply. Where no
/// iterator of that trader and number is there the reply is OBJECT_NOT_EXIST, whatever the Request asks; when memory
/// runs out it is NO_MEMORY.
pub fn answer_request<R: Wait>(
    rt: &R,
    alloc: Global,
    desk: &SharedDesk,
    pass: &mut DeskPass,
    replies: &mut Replies,
    call: &IteratorCall<'_>,
    head: &RequestHead<'_>,
) -> DeskCall
    requires own { Belongs pass.old desk.now.cell }
    requires version { IsWritable call.now.to }
    ensures own { SameCell pass.new pass.old }
    ensures same { SameNumbers (knowledge pass.old) (knowledge pass.new) }
    ensures order { StaysInOrder (knowledge pass.old) (knowledge pass.new) }
    ensures serves { ServesIterator call.now.to call.now.trader.now call.now.number
        (knowledge pass.old) (asked_by
        (call_read (kind.Iterator call.now.number) head.now.operation.now head.now.body))
        replies.new result (knowledge pass.new) }
{
    match judge(alloc, call.number, head.operation, &head.body) {
        Ok(asked) => answer_asked(rt, alloc, desk, pass, replies, call, asked),
        Err(_) => refuse(alloc, replies, call.to),
    }
}

/// NO_MEMORY, and the desk isn't called.
fn refuse(alloc: Global, replies: &mut Replies, to: ReplyTo) -> DeskCall
    requires { IsWritable to }
    ensures call { result ≡ DeskCall.Memory }
    ensures reply { replies.new ≡ reply_for to no_memory }
{
    let outcome = Outcome::no_memory();
    replies.answer(alloc, to, &outcome);
    drop(outcome);
    DeskCall::Memory
}

/// The answer to what a Request asks.
fn answer_asked<R: Wait>(
    rt: &R,
    alloc: Global,
    desk: &SharedDesk,
    pass: &mut DeskPass,
    replies: &mut Replies,
    call: &IteratorCall<'_>,
    asked: IteratorRequest,
) -> DeskCall
    requires own { Belongs pass.old desk.now.cell }
    requires version { IsWritable call.now.to }
    ensures own { SameCell pass.new pass.old }
    ensures same { SameNumbers (knowledge pass.old) (knowledge pass.new) }
    ensures order { StaysInOrder (knowledge pass.old) (knowledge pass.new) }
    ensures serves { ServesIterator call.now.to call.now.trader.now call.now.number
        (knowledge pass.old) asked replies.new result (knowledge pass.new) }
{
    match Text::from_slice(alloc, call.trader) {
        Err(_) => {
            drop(asked);
            refuse(alloc, replies, call.to)
        }
        Ok(trader) => match asked {
            IteratorRequest::NextN(n) => give_next(rt, alloc, desk, pass, replies, call, trader, n),
            IteratorRequest::Destroy => take_off(rt, alloc, desk, pass, replies, call, trader),
            IteratorRequest::Inquire(inquiry) => {
                inquire(rt, alloc, desk, pass, replies, call, trader, inquiry)
            }
        },
    }
}

/// What leaves the iterator as it is.
fn inquire<R: Wait>(
    rt: &R,
    alloc: Global,
    desk: &SharedDesk,
    pass: &mut DeskPass,
    replies: &mut Replies,
    call: &IteratorCall<'_>,
    trader: Text,
    inquiry: Inquiry,
) -> DeskCall
    requires own { Belongs pass.old desk.now.cell }
    requires version { IsWritable call.now.to }
    requires trader { trader ≡ call.now.trader.now }
    ensures own { SameCell pass.new pass.old }
    ensures same { SameNumbers (knowledge pass.old) (knowledge pass.new) }
    ensures order { StaysInOrder (knowledge pass.old) (knowledge pass.new) }
    ensures serves { ServesIterator call.now.to call.now.trader.now call.now.number
        (knowledge pass.old) (asked.Inquire inquiry) replies.new result (knowledge pass.new) }
{
    match desk.max_left(rt, pass, trader, call.number) {
        Ok(found) => {
            let outcome = inquiry_outcome(&inquiry, found.0, found.1);
            replies.answer(alloc, call.to, &outcome);
            drop(outcome);
            drop(inquiry);
            DeskCall::At(last_place(pass))
        }
        Err(fault) => {
            drop(inquiry);
            answer_fault(alloc, pass, replies, call.to, fault)
        }
    }
}

/// `destroy`.
fn take_off<R: Wait>(
    rt: &R,
    alloc: Global,
    desk: &SharedDesk,
    pass: &mut DeskPass,
    replies: &mut Replies,
    call: &IteratorCall<'_>,
    trader: Text,
) -> DeskCall
    requires own { Belongs pass.old desk.now.cell }
    requires version { IsWritable call.now.to }
    requires trader { trader ≡ call.now.trader.now }
    ensures own { SameCell pass.new pass.old }
    ensures same { SameNumbers (knowledge pass.old) (knowledge pass.new) }
    ensures order { StaysInOrder (knowledge pass.old) (knowledge pass.new) }
    ensures serves { ServesIterator call.now.to call.now.trader.now call.now.number
        (knowledge pass.old) asked.Destroy replies.new result (knowledge pass.new) }
{
    match desk.destroy(rt, pass, trader, call.number) {
        Ok(taken) => {
            drop(taken);
            let outcome = Outcome::Done(Reply::Nothing);
            replies.answer(alloc, call.to, &outcome);
            drop(outcome);
            DeskCall::At(last_place(pass))
        }
        Err(fault) => answer_fault(alloc, pass, replies, call.to, fault),
    }
}

/// `next_n`.
fn give_next<R: Wait>(
    rt: &R,
    alloc: Global,
    desk: &SharedDesk,
    pass: &mut DeskPass,
    replies: &mut Replies,
    call: &IteratorCall<'_>,
    trader: Text,
    n: u32,
) -> DeskCall
    requires own { Belongs pass.old desk.now.cell }
    requires version { IsWritable call.now.to }
    requires trader { trader ≡ call.now.trader.now }
    ensures own { SameCell pass.new pass.old }
    ensures same { SameNumbers (knowledge pass.old) (knowledge pass.new) }
    ensures order { StaysInOrder (knowledge pass.old) (knowledge pass.new) }
    ensures serves { ServesIterator call.now.to call.now.trader.now call.now.number
        (knowledge pass.old) (asked.NextN n) replies.new result (knowledge pass.new) }
{
    match replies.begin(alloc, call.to) {
        Err(_) => {
            drop(trader);
            refuse(alloc, replies, call.to)
        }
        Ok(writer) => {
            let begun = begun(call.to, writer);
            give_begun(rt, alloc, desk, pass, replies, call, trader, n, begun)
        }
    }
}

/// The writer that holds what stands before the body of this reply.
#[tactic(auto, using(crate::proofs::Calling::begins_with))]
fn begun(_to: ReplyTo, writer: Writer) -> Begun
    requires { BeginsReply _to writer }
    ensures { BeginsReply _to result.writer }
{
    Begun { writer }
}

/// The same, with the writer that holds what stands before the body.
fn give_begun<R: Wait>(
    rt: &R,
    alloc: Global,
    desk: &SharedDesk,
    pass: &mut DeskPass,
    replies: &mut Replies,
    call: &IteratorCall<'_>,
    trader: Text,
    n: u32,
    begun: Begun,
) -> DeskCall
    requires own { Belongs pass.old desk.now.cell }
    requires version { IsWritable call.now.to }
    requires trader { trader ≡ call.now.trader.now }
    requires begun { BeginsReply call.now.to begun.writer }
    ensures own { SameCell pass.new pass.old }
    ensures same { SameNumbers (knowledge pass.old) (knowledge pass.new) }
    ensures order { StaysInOrder (knowledge pass.old) (knowledge pass.new) }
    ensures serves { ServesIterator call.now.to call.now.trader.now call.now.number
        (knowledge pass.old) (asked.NextN n) replies.new result (knowledge pass.new) }
{
    let (back, given) = desk.next_n(rt, pass, trader, call.number, n, begun);
    match given {
        Ok(_more) => {
            replies.finish(call.to, back);
            DeskCall::At(last_place(pass))
        }
        Err(fault) => {
            replies.give_up(back);
            answer_fault(alloc, pass, replies, call.to, fault)
        }
    }
}

/// The answer where the desk did nothing for a call.
fn answer_fault(
    alloc: Global,
    pass: &DeskPass,
    replies: &mut Replies,
    to: ReplyTo,
    fault: DeskFault,
) -> DeskCall
    requires version { IsWritable to }
    requires absent { (fault ≡ DeskFault.Absent)
        → ForSome (knowledge pass.now).seen (λ h. 0 < length h) }
    ensures { AnswersFault to (knowledge pass.now) fault replies.new result }
{
    match fault {
        DeskFault::Absent => {
            let outcome = gone();
            replies.answer(alloc, to, &outcome);
            drop(outcome);
            DeskCall::At(last_place(pass))
        }
        DeskFault::Full => {
            replies.clear();
            DeskCall::Full
        }
        DeskFault::Memory => refuse(alloc, replies, to),
    }
}
