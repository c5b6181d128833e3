//! What a message asks of a server by its head alone.

ghost use Rattle.std.specs.Prelude.{◌≡◌};
ghost use Rattle.td_stream.specs.Heads.{ClassifiesMessage, IsCancelRequest, IsLocateRequest, IsMessage, IsRequest};
ghost use Rattle.td_stream.specs.Steps.{broken_head};

use crate::end::Cause;
use td_cdr::CdrFault;
use td_giop::message_type::{CANCEL_REQUEST, LOCATE_REPLY, LOCATE_REQUEST, REPLY, REQUEST};
use td_giop::{Raw, RequestHead, read_cancel, read_locate, read_request};

/// The head of a message that is answered.
#[derive(Drop)]
pub enum Head<'m> {
    /// Of a Request.
    Request(RequestHead<'m>),
    /// Of a LocateRequest: the request id, and the object key.
    Locate(u32, &'m [u8]),
    /// Of a CancelRequest: the id of the Request whose reply is no longer waited for.
    Cancel(u32),
}

/// What a message asks.
#[derive(Drop)]
pub(crate) enum RequestedReply<'m> {
    /// To be answered. The answer may have no bytes.
    Answer(Head<'m>),
    /// That the stream be closed.
    Close,
    /// Nothing that a server can do.
    Break(Cause),
}

/// What a message asks, by its type and its head.
#[tactic(auto, unfolding(crate::specs::Steps::step_of))]
pub(crate) fn judge<'m>(message: &Raw<'m>) -> RequestedReply<'m>
    requires whole { IsMessage message.now }
    ensures { ClassifiesMessage message.now result }
{
    match message.kind {
        REQUEST => judge_request(message),
        CANCEL_REQUEST => judge_cancel(message),
        LOCATE_REQUEST => judge_locate(message),
        REPLY | LOCATE_REPLY => RequestedReply::Break(Cause::NotForServer),
        _ => RequestedReply::Close,
    }
}

/// What a Request asks.
#[tactic(auto, unfolding(crate::specs::Steps::step_of))]
fn judge_request<'m>(message: &Raw<'m>) -> RequestedReply<'m>
    requires whole { IsMessage message.now }
    requires kind { IsRequest message.now }
    ensures { ClassifiesMessage message.now result }
{
    match read_request(message) {
        Err(fault) => RequestedReply::Break(broken_head(fault)),
        Ok(head) => RequestedReply::Answer(Head::Request(head)),
    }
}

/// What a LocateRequest asks.
#[tactic(auto, unfolding(crate::specs::Steps::step_of))]
fn judge_locate<'m>(message: &Raw<'m>) -> RequestedReply<'m>
    requires whole { IsMessage message.now }
    requires kind { IsLocateRequest message.now }
    ensures { ClassifiesMessage message.now result }
{
    match read_locate(message) {
        Err(fault) => RequestedReply::Break(broken_head(fault)),
        Ok((id, key)) => RequestedReply::Answer(Head::Locate(id, key)),
    }
}

/// What a CancelRequest asks.
#[tactic(auto, unfolding(crate::specs::Steps::step_of))]
fn judge_cancel<'m>(message: &Raw<'m>) -> RequestedReply<'m>
    requires whole { IsMessage message.now }
    requires kind { IsCancelRequest message.now }
    ensures { ClassifiesMessage message.now result }
{
    match read_cancel(message) {
        Err(fault) => RequestedReply::Break(broken_head(fault)),
        Ok(id) => RequestedReply::Answer(Head::Cancel(id)),
    }
}

/// Where a head that isn't in the grammar breaks it.
fn broken_head(fault: CdrFault) -> Cause
    ensures { result ≡ broken_head fault }
{
    match fault {
        CdrFault::Short(place)
        | CdrFault::BadBoolean(place)
        | CdrFault::BadString(place)
        | CdrFault::TooLong(place) => Cause::Header(place),
        CdrFault::Memory => Cause::Header(0),
    }
}
