//! Requests of a log (CORBA, chapter on General Inter-ORB Protocol, "Request Header" and "Request Body").

ghost use Rattle.std.specs.Prelude.{◌≡◌, ◌<◌, ◌^◌, [], length, IfOk};
ghost use Rattle.td_giop.specs.Heads.{IsReadable};
ghost use Rattle.td_giop.specs.declared.message_type.TheConstants.{REQUEST};
ghost use Rattle.td_log.specs.Messages.{parse_call, if_alone, most, request_behind, request_in, request_of};
ghost use Rattle.td_log.specs.Messages.{version_of};
ghost use Rattle.td_ops.specs.Calls.{call_read};

use crate::message::{ReplyForm, Version};
use std::alloc::Global;
use td_cdr::{Boxed, Memory, Reader};
use td_giop::message_type::REQUEST;
use td_giop::{Framer, Raw, RequestHead, read_request};
use td_ior::{Kind, key_parts};
use td_ops::{Call, OpsFault, read_call};

/// The most bytes that a size field can tell.
pub(crate) const MOST: u32 = 4294967295;

/// A framer that this message alone was fed to.
///
/// # Errors
///
/// `Memory` only when out of memory.
pub(crate) fn framer_over(alloc: Global, message: &[u8]) -> Result<Framer, Memory>
    requires { length message.now < 2 ^ 32 }
    ensures { IfOk result (λ f. f ≡ record { start = 0; rest = message.now; limit = most }) }
{
    let mut framer = Framer::new(alloc, MOST)?;
    framer.feed(message)?;
    Ok(framer)
}

/// The call that a Request for an object of the trader of this name spells, and the form of its reply.
///
/// # Errors
///
/// `Memory` only when out of memory.
#[tactic(auto, unfolding(crate::specs::Messages::request_of))]
pub(crate) fn request_of(
    alloc: Global,
    name: &[u8],
    message: &[u8],
) -> Result<Option<(ReplyForm, Boxed<Call>)>, Memory>
    requires { length message.now < 2 ^ 32 }
    ensures { IfOk result (λ r. r ≡ request_of name.now message.now) }
{
    let mut framer = framer_over(alloc, message)?;
    front_request(alloc, name, message.len(), &mut framer)
}

/// The same of the message in front of a framer that was fed so many bytes.
fn front_request(
    alloc: Global,
    name: &[u8],
    count: usize,
    framer: &mut Framer,
) -> Result<Option<(ReplyForm, Boxed<Call>)>, Memory>
    requires limit { framer.old.limit ≡ most }
    requires count { count ≡ length framer.old.rest }
    requires short { count < 2 ^ 32 }
    ensures { IfOk result (λ r. r ≡ request_of name.now framer.old.rest) }
{
    match framer.next_message() {
        Ok(Some(message)) => request_alone(alloc, name, count, &message),
        Ok(None) => Ok(None),
        Err(_) => Ok(None),
    }
}

/// The same of a message that stands in front of so many bytes.
fn request_alone(
    alloc: Global,
    name: &[u8],
    count: usize,
    message: &Raw,
) -> Result<Option<(ReplyForm, Boxed<Call>)>, Memory>
    requires { IsReadable message.now.bytes.now }
    ensures { IfOk result (λ r. r ≡ if_alone REQUEST count message.now.kind message.now.bytes.now
        (request_in name.now message.now.order message.now.minor message.now.bytes.now)) }
{
    if count == message.bytes.len() && message.kind == REQUEST {
        request_in(alloc, name, message)
    } else {
        Ok(None)
    }
}

/// The call that a message spells which is a Request, and the form of its reply.
#[tactic(auto, unfolding(crate::specs::Messages::request_in))]
fn request_in(
    alloc: Global,
    name: &[u8],
    message: &Raw,
) -> Result<Option<(ReplyForm, Boxed<Call>)>, Memory>
    requires { IsReadable message.now.bytes.now }
    ensures { IfOk result (λ r. r
        ≡ request_in name.now message.now.order message.now.minor message.now.bytes.now) }
{
    match read_request(message) {
        Ok(head) => request_behind(alloc, name, message, &head),
        Err(_) => Ok(None),
    }
}

/// The call behind the head of a Request, and the form of its reply.
fn request_behind(
    alloc: Global,
    name: &[u8],
    message: &Raw,
    head: &RequestHead,
) -> Result<Option<(ReplyForm, Boxed<Call>)>, Memory>
    ensures { IfOk result (λ r. r ≡ request_behind name.now message.now.order message.now.minor
        (record {
          id = head.now.id;
          answered = head.now.answered;
          key = head.now.key.now;
          operation = head.now.operation.now;
        }) head.now.body) }
{
    let Some((trader, kind)) = key_parts(head.key) else {
        return Ok(None);
    };
    if trader != name {
        return Ok(None);
    }
    match call_at(alloc, &kind, head.operation, &head.body)? {
        Some(call) => Ok(Some((form_of(message, head.id), call))),
        None => Ok(None),
    }
}

/// The form of the reply to a Request of this id.
fn form_of(message: &Raw, id: u32) -> ReplyForm
    ensures { result ≡ record {
      order = message.now.order;
      version = version_of message.now.minor;
      id = id;
    } }
{
    ReplyForm {
        order: message.order,
        version: version_of(message.minor),
        id,
    }
}

fn version_of(minor: u8) -> Version
    ensures { result ≡ version_of minor }
{
    if minor == 0 {
        Version::V1_0
    } else {
        Version::V1_1
    }
}

/// The call of an object of this kind.
fn call_at(
    alloc: Global,
    kind: &Kind,
    operation: &[u8],
    body: &Reader,
) -> Result<Option<Boxed<Call>>, Memory>
    ensures { IfOk result (λ c. c ≡ parse_call (call_read kind.now operation.now body.now)) }
{
    let mut reader = body.copied();
    match read_call(alloc, kind, operation, &mut reader) {
        Ok(call) => boxed(alloc, call),
        Err(OpsFault::Memory) => Err(Memory),
        Err(OpsFault::BadOperation) => Ok(None),
        Err(OpsFault::Marshal(_)) => Ok(None),
        Err(OpsFault::NoImplement) => Ok(None),
    }
}

/// A call, in a block of its own.
fn boxed(alloc: Global, call: Call) -> Result<Option<Boxed<Call>>, Memory>
    ensures { IfOk result (λ c. c ≡ Some call) }
{
    let call = Boxed::new(alloc, call)?;
    Ok(Some(call))
}
