//! The message in front of what came, as the reply to a request.

ghost use Rattle.std.specs.Prelude.{◌≡◌, IfOk, MatchOption};
ghost use Rattle.td_giop.specs.Heads.{IsReadable};
ghost use Rattle.td_call.specs.Replies.{body_of, reply_head, reply_body, message_read, reply_limit};
ghost use Rattle.td_call.specs.Readings.{AdmitsAnswered, AdmitsValue, outcome_in_reply, evaluation_in_reply};
ghost use Rattle.td_call.specs.Fetching.{IsReadOrFault, ReadsFront};

use crate::reading::{evaluation_in_reply, outcome_in_reply};
use std::alloc::Global;
use td_cdr::{Boxed, Reader};
use td_giop::message_type::REPLY;
use td_giop::{Framer, Raw, ReplyHead, read_reply};
use td_ops::{Answered, Call};
use td_value::{Any, TypeCode};
use td_walk::PeerFault;

/// The status and the body of a reply to the request of this id.
#[tactic(auto, unfolding(crate::specs::Replies::reply_body))]
fn reply_body<'a>(message: &Raw<'a>, id: u32) -> Option<(u32, Reader<'a>)>
    requires { IsReadable message.now.bytes.now }
    ensures { MatchOption result
        (reply_body id message.now.kind message.now.order message.now.bytes.now ≡ None)
        (λ b. reply_body id message.now.kind message.now.order message.now.bytes.now
        ≡ Some (b.0, b.1)) }
{
    if message.kind != REPLY {
        return None;
    }
    match read_reply(message) {
        Err(_) => None,
        Ok(head) => body_of(&head, id),
    }
}

/// Those behind a head, where it is of a reply to the request of this id.
fn body_of<'a>(head: &ReplyHead<'a>, id: u32) -> Option<(u32, Reader<'a>)>
    ensures { MatchOption result
        (body_of id (Ok (reply_head head.now.id head.now.status, head.now.body)) ≡ None)
        (λ b. body_of id (Ok (reply_head head.now.id head.now.status, head.now.body))
        ≡ Some (b.0, b.1)) }
{
    if head.id == id {
        Some((head.status, head.body.copied()))
    } else {
        None
    }
}

/// What a message tells as the reply to a call.
#[tactic(auto, using(crate::proofs::Bodies::no_body, crate::proofs::Bodies::body_in_reply))]
fn read_outcome_in(
    alloc: Global,
    message: &Raw<'_>,
    id: u32,
    call: &Call,
) -> Result<Answered, PeerFault>
    requires { IsReadable message.now.bytes.now }
    ensures reads { IsReadOrFault (message_read (outcome_in_reply call.now)
        id message.now.kind message.now.order message.now.bytes.now) result }
    ensures admitted { IfOk result (λ a. AdmitsAnswered call.now a) }
{
    match reply_body(message, id) {
        None => Err(PeerFault::Grammar),
        Some((status, body)) => {
            let mut body = body;
            outcome_in_reply(alloc, call, status, &mut body)
        }
    }
}

/// What a message tells as the reply to evalDP.
#[tactic(auto, using(crate::proofs::Bodies::no_body, crate::proofs::Bodies::body_in_reply))]
fn read_evaluation_in(
    alloc: Global,
    message: &Raw<'_>,
    id: u32,
    returned: &TypeCode,
) -> Result<Option<Boxed<Any>>, PeerFault>
    requires { IsReadable message.now.bytes.now }
    ensures reads { IsReadOrFault (message_read (evaluation_in_reply returned.now)
        id message.now.kind message.now.order message.now.bytes.now) result }
    ensures admitted { IfOk result (λ o. AdmitsValue o) }
{
    match reply_body(message, id) {
        None => Err(PeerFault::Grammar),
        Some((status, body)) => {
            let mut body = body;
            evaluation_in_reply(alloc, returned, status, &mut body)
        }
    }
}

/// What the message in front tells as the reply to a call. It stays there.
///
/// # Errors
///
/// `Wire` where no message is whole, `Grammar` where it is another message, and `Memory`.
pub(crate) fn front_outcome(
    alloc: Global,
    framer: &mut Framer,
    id: u32,
    call: &Call,
) -> Result<Answered, PeerFault>
    requires { framer.old.limit ≡ reply_limit }
    ensures framer { framer.new ≡ framer.old }
    ensures reads { ReadsFront (outcome_in_reply call.now) id framer.old.rest result }
    ensures admitted { IfOk result (λ a. AdmitsAnswered call.now a) }
{
    match framer.next_message() {
        Err(_) => Err(PeerFault::Grammar),
        Ok(None) => Err(PeerFault::Wire),
        Ok(Some(message)) => read_outcome_in(alloc, &message, id, call),
    }
}

/// What the message in front tells as the reply to evalDP. It stays there.
///
/// # Errors
///
/// As `front_outcome`.
pub(crate) fn front_evaluation(
    alloc: Global,
    framer: &mut Framer,
    id: u32,
    returned: &TypeCode,
) -> Result<Option<Boxed<Any>>, PeerFault>
    requires { framer.old.limit ≡ reply_limit }
    ensures framer { framer.new ≡ framer.old }
    ensures reads { ReadsFront (evaluation_in_reply returned.now) id framer.old.rest result }
    ensures admitted { IfOk result (λ o. AdmitsValue o) }
{
    match framer.next_message() {
        Err(_) => Err(PeerFault::Grammar),
        Ok(None) => Err(PeerFault::Wire),
        Ok(Some(message)) => read_evaluation_in(alloc, &message, id, returned),
    }
}
