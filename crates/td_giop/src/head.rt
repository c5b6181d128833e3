//! Reading message heads: what stands in front of a message's body (chapter "General Inter-ORB
//! Protocol", "GIOP Messages").

ghost use Rattle.std.specs.Prelude.{◌≡◌, ◌≤◌, ◌<◌, ◌^◌, length, drop, MatchResult};
ghost use Rattle.td_cdr.specs.Format.{Shows, array_format};
ghost use Rattle.td_giop.specs.Heads.{behind_header, skip_value, context, contexts, reserved_field, Request};
ghost use Rattle.td_giop.specs.Heads.{request_at, Reply};
ghost use Rattle.td_giop.specs.Heads.{reply_at, locate_at, locate_reply_at, cancel_at, IsReadable};

use crate::header::HEADER_SIZE;
use crate::raw::Raw;
use td_cdr::{CdrFault, Reader};

/// The head of a Request.
#[derive(Drop)]
pub struct RequestHead<'a> {
    /// The number by which the client knows the request.
    pub id: u32,
    /// Whether the client expects a reply.
    pub answered: bool,
    /// The object key.
    pub key: &'a [u8],
    /// The operation's name, without its NUL.
    pub operation: &'a [u8],
    /// At the parameters.
    pub body: Reader<'a>,
}

/// The head of a Reply.
#[derive(Drop)]
pub struct ReplyHead<'a> {
    /// The number of the request that is answered.
    pub id: u32,
    /// The reply status.
    pub status: u32,
    /// At what the status says: a result, an exception, or a reference.
    pub body: Reader<'a>,
}

/// The head of a Request: contexts, which are passed over, request id, whether a reply is expected, in version 1.1
/// three reserved octets, which are passed over, object key, operation, and the principal, which is passed over too.
///
/// # Errors
///
/// The first fault, with its place in the message; never `Memory`.
#[tactic(auto, unfolding(crate::specs::Heads::request_at))]
pub fn read_request<'a>(m: &Raw<'a>) -> Result<RequestHead<'a>, CdrFault>
    requires { IsReadable m.now.bytes.now }
    ensures { MatchResult result
        (λ h. request_at m.now.minor (behind_header m.now.order m.now.bytes.now)
        ≡ Ok (
          record {
            id = h.id;
            answered = h.answered;
            key = h.key.now;
            operation = h.operation.now;
          },
          h.body,
        ))
        (λ e. request_at m.now.minor (behind_header m.now.order m.now.bytes.now) ≡ Err e) }
{
    let mut body = behind_header(m);
    pass_contexts(&mut body)?;
    let id = body.u32()?;
    let answered = body.boolean()?;
    pass_reserved(&mut body, m.minor)?;
    let key = body.octets()?;
    let operation = body.string()?;
    let _principal = body.octets()?;
    Ok(RequestHead {
        id,
        answered,
        key,
        operation,
        body,
    })
}

/// The head of a Reply: contexts, which are passed over, request id and reply status.
///
/// # Errors
///
/// The first fault, with its place in the message; never `Memory`.
#[tactic(auto, unfolding(crate::specs::Heads::reply_at))]
pub fn read_reply<'a>(m: &Raw<'a>) -> Result<ReplyHead<'a>, CdrFault>
    requires { IsReadable m.now.bytes.now }
    ensures { MatchResult result
        (λ h. reply_at (behind_header m.now.order m.now.bytes.now)
        ≡ Ok (record { id = h.id; status = h.status }, h.body))
        (λ e. reply_at (behind_header m.now.order m.now.bytes.now) ≡ Err e) }
{
    let mut body = behind_header(m);
    pass_contexts(&mut body)?;
    let id = body.u32()?;
    let status = body.u32()?;
    Ok(ReplyHead { id, status, body })
}

/// The request id and the object key of a LocateRequest. What follows them is ignored.
///
/// # Errors
///
/// The first fault, with its place in the message; never `Memory`.
#[tactic(auto, unfolding(crate::specs::Heads::locate_at))]
pub fn read_locate<'a>(m: &Raw<'a>) -> Result<(u32, &'a [u8]), CdrFault>
    requires { IsReadable m.now.bytes.now }
    ensures { MatchResult result
        (λ v. locate_at (behind_header m.now.order m.now.bytes.now) ≡ Ok (v.0, v.1.now))
        (λ e. locate_at (behind_header m.now.order m.now.bytes.now) ≡ Err e) }
{
    let mut body = behind_header(m);
    let id = body.u32()?;
    let key = body.octets()?;
    Ok((id, key))
}

/// The request id and the locate status of a LocateReply. What follows them is ignored.
///
/// # Errors
///
/// The first fault, with its place in the message; never `Memory`.
#[tactic(auto, unfolding(crate::specs::Heads::locate_reply_at))]
pub fn read_locate_reply(m: &Raw) -> Result<(u32, u32), CdrFault>
    requires { IsReadable m.now.bytes.now }
    ensures { result ≡ locate_reply_at (behind_header m.now.order m.now.bytes.now) }
{
    let mut body = behind_header(m);
    let id = body.u32()?;
    let status = body.u32()?;
    Ok((id, status))
}

/// The request id of a CancelRequest. What follows it is ignored.
///
/// # Errors
///
/// The first fault, with its place in the message; never `Memory`.
#[tactic(auto, unfolding(crate::specs::Heads::cancel_at))]
pub fn read_cancel(m: &Raw) -> Result<u32, CdrFault>
    requires { IsReadable m.now.bytes.now }
    ensures { result ≡ cancel_at (behind_header m.now.order m.now.bytes.now) }
{
    behind_header(m).u32()
}

/// A reader behind the message's header. Alignment counts from the message's first byte.
fn behind_header<'a>(m: &Raw<'a>) -> Reader<'a>
    requires { IsReadable m.now.bytes.now }
    ensures { result ≡ behind_header m.now.order m.now.bytes.now }
{
    Reader::new(m.bytes, HEADER_SIZE as u32, m.order)
}

/// Passes over the reserved octets of a Request of this minor version.
fn pass_reserved(r: &mut Reader, minor: u8) -> Result<(), CdrFault>
    ensures { Shows (λ u. u) r.new result ((reserved_field minor).format.reads r.old) }
{
    if minor == 0 {
        return Ok(());
    }
    let _first = r.octet()?;
    let _second = r.octet()?;
    let _third = r.octet()?;
    Ok(())
}

/// Passes over the contexts of a head.
fn pass_contexts(r: &mut Reader) -> Result<(), CdrFault>
    ensures { Shows (λ u. u) r.new result (contexts.format.reads r.old) }
{
    let count = r.u32()?;
    pass_row(r, count)
}

/// Passes over so many contexts.
fn pass_row(r: &mut Reader, count: u32) -> Result<(), CdrFault>
    ensures { Shows (λ u. u) r.new result
        (skip_value ((array_format context.format count).reads r.old)) }
{
    for turn in 0..count {
        let _id = r.u32()?;
        let _octets = r.octets()?;
    }
    Ok(())
}
