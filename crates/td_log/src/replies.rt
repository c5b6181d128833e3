//! Replies of a log (CORBA, chapter on General Inter-ORB Protocol, "Reply Header" and "Reply Body").

ghost use Rattle.std.specs.Prelude.{◌≡◌, ◌<◌, ◌^◌, length, IfOk};
ghost use Rattle.td_giop.specs.Heads.{IsReadable};
ghost use Rattle.td_giop.specs.declared.message_type.TheConstants.{REPLY};
ghost use Rattle.td_log.specs.Messages.{parse_answer, if_alone, iterator_in, iterator_of, most, recorded_answer};
ghost use Rattle.td_log.specs.Messages.{reply_in};
ghost use Rattle.td_log.specs.Messages.{reply_of};
ghost use Rattle.td_ops.specs.Answers.{outcome_read};
ghost use Rattle.td_ops.specs.Called.{operation_in};

use crate::message::Recorded;
use crate::requests::framer_over;
use std::alloc::Global;
use td_cdr::{Memory, Octets, Reader};
use td_giop::message_type::REPLY;
use td_giop::{Framer, Raw, read_reply};
use td_ior::nil;
use td_ops::{Answered, Call, OpsFault, Reply, read_outcome};
use td_value::Ior;

/// A recorded Reply to a call.
///
/// # Errors
///
/// `Memory` only when out of memory.
#[tactic(auto, unfolding(crate::specs::Messages::reply_of))]
pub(crate) fn reply_of(
    alloc: Global,
    call: &Call,
    message: &[u8],
) -> Result<Option<Recorded>, Memory>
    requires { length message.now < 2 ^ 32 }
    ensures { IfOk result (λ r. r ≡ reply_of (operation_in call.now) message.now) }
{
    let mut framer = framer_over(alloc, message)?;
    front_reply(alloc, call, message.len(), &mut framer)
}

/// The same of the message in front of a framer that was fed so many bytes.
fn front_reply(
    alloc: Global,
    call: &Call,
    count: usize,
    framer: &mut Framer,
) -> Result<Option<Recorded>, Memory>
    requires limit { framer.old.limit ≡ most }
    requires count { count ≡ length framer.old.rest }
    requires short { count < 2 ^ 32 }
    ensures { IfOk result (λ r. r ≡ reply_of (operation_in call.now) framer.old.rest) }
{
    match framer.next_message() {
        Ok(Some(message)) => reply_alone(alloc, call, count, &message),
        Ok(None) => Ok(None),
        Err(_) => Ok(None),
    }
}

/// The same of a message that stands in front of so many bytes.
fn reply_alone(
    alloc: Global,
    call: &Call,
    count: usize,
    message: &Raw,
) -> Result<Option<Recorded>, Memory>
    requires { IsReadable message.now.bytes.now }
    ensures { IfOk result (λ r. r ≡ if_alone REPLY count message.now.kind message.now.bytes.now
        (reply_in (operation_in call.now) message.now.order message.now.bytes.now)) }
{
    if count == message.bytes.len() && message.kind == REPLY {
        reply_in(alloc, call, message)
    } else {
        Ok(None)
    }
}

/// The same of a message that is a Reply.
#[tactic(auto, unfolding(crate::specs::Messages::reply_in))]
fn reply_in(alloc: Global, call: &Call, message: &Raw) -> Result<Option<Recorded>, Memory>
    requires { IsReadable message.now.bytes.now }
    ensures { IfOk result (λ r. r
        ≡ reply_in (operation_in call.now) message.now.order message.now.bytes.now) }
{
    match read_reply(message) {
        Ok(head) => answer_at(alloc, call, message.bytes, head.status, &head.body),
        Err(_) => Ok(None),
    }
}

/// The same, by the status of the Reply and its body.
fn answer_at(
    alloc: Global,
    call: &Call,
    message: &[u8],
    status: u32,
    body: &Reader,
) -> Result<Option<Recorded>, Memory>
    ensures { IfOk result (λ r. r
        ≡ parse_answer message.now (outcome_read call.now status body.now)) }
{
    let mut reader = body.copied();
    match read_outcome(alloc, call, status, &mut reader) {
        Ok(answer) => recorded_answer(alloc, message, answer),
        Err(OpsFault::Memory) => Err(Memory),
        Err(OpsFault::BadOperation) => Ok(None),
        Err(OpsFault::Marshal(_)) => Ok(None),
        Err(OpsFault::NoImplement) => Ok(None),
    }
}

/// A Reply that tells this.
fn recorded_answer(
    alloc: Global,
    message: &[u8],
    answer: Answered,
) -> Result<Option<Recorded>, Memory>
    ensures { IfOk result (λ r. r ≡ Some (recorded_answer message.now answer)) }
{
    let iterator = iterator_of(alloc, answer);
    let bytes = Octets::from_slice(alloc, message)?;
    Ok(Some(Recorded { bytes, iterator }))
}

/// The reference of the iterator that an answer has.
fn iterator_of(alloc: Global, answer: Answered) -> Ior
    ensures { result ≡ iterator_of answer }
{
    match answer {
        Answered::Done(reply) => iterator_in(alloc, reply),
        Answered::User(_) => nil(alloc),
        Answered::System { .. } => nil(alloc),
    }
}

/// The reference of the iterator that a result has.
fn iterator_in(alloc: Global, reply: Reply) -> Ior
    ensures { result ≡ iterator_in reply }
{
    match reply {
        Reply::Found { iterator, .. } => iterator,
        Reply::Ids { iterator, .. } => iterator,
        _ => nil(alloc),
    }
}
