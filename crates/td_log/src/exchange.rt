//! Calls of a trader's objects, each with its reply.

ghost use Rattle.std.specs.Prelude.{◌≡◌, ◌<◌, ◌^◌, length, IfOk};
ghost use Rattle.td_log.specs.Lines.{ask_by, ask_of, ask_with, change_in, exchange_of, exchange_with, look_in};
ghost use Rattle.td_log.specs.Lines.{replied_with};
ghost use Rattle.td_log.specs.Lines.{reply_line, reply_with, trader_named};
ghost use Rattle.td_log.specs.Messages.{parse_reply, parse_request};
ghost use Rattle.td_ops.specs.Called.{operation_in};
ghost use Rattle.td_ops.specs.declared.operation.Operation.TheVariants as operation;

use crate::line::Line;
use crate::message::{Recorded, ReplyForm};
use crate::replies::reply_of;
use crate::requests::request_of;
use crate::values::octets_of;
use crate::words::{three_words, two_words};
use std::alloc::Global;
use td_cdr::{Boxed, List, Memory, Shared, Text};
use td_ior::number_of;
use td_ops::{Call, Desired, Query};

/// A call of an object of a trader, with its reply.
#[derive(Drop)]
pub(crate) struct LoggedCall {
    pub trader: usize,
    pub form: ReplyForm,
    pub call: Boxed<Call>,
    pub reply: Recorded,
}

/// The number of the trader of a name.
fn trader_named(names: &[Text], name: &[u8]) -> Option<usize>
    ensures { result ≡ trader_named names.now name.now }
{
    names.iter().position(|other| other.as_slice() == name)
}

/// The Request that hexadecimal digits spell.
fn parse_request(
    alloc: Global,
    name: &[u8],
    digits: &[u8],
) -> Result<Option<(ReplyForm, Boxed<Call>)>, Memory>
    requires { length digits.now < 2 ^ 32 }
    ensures { IfOk result (λ r. r ≡ parse_request name.now digits.now) }
{
    match octets_of(alloc, digits)? {
        Some(message) => request_of(alloc, name, message.as_slice()),
        None => Ok(None),
    }
}

/// The Reply to a call that hexadecimal digits spell.
fn parse_reply(alloc: Global, call: &Call, digits: &[u8]) -> Result<Option<Recorded>, Memory>
    requires { length digits.now < 2 ^ 32 }
    ensures { IfOk result (λ r. r ≡ parse_reply (operation_in call.now) digits.now) }
{
    match octets_of(alloc, digits)? {
        Some(message) => reply_of(alloc, call, message.as_slice()),
        None => Ok(None),
    }
}

/// A Request to the trader of this number and name, and its reply, in hexadecimal digits.
fn exchange_with(
    alloc: Global,
    trader: usize,
    name: &[u8],
    request: &[u8],
    reply: &[u8],
) -> Result<Option<LoggedCall>, Memory>
    requires request { length request.now < 2 ^ 32 }
    requires reply { length reply.now < 2 ^ 32 }
    ensures { IfOk result (λ e. e ≡ exchange_with trader name.now request.now reply.now) }
{
    match parse_request(alloc, name, request)? {
        Some((form, call)) => replied_with(alloc, trader, form, call, reply),
        None => Ok(None),
    }
}

/// A call, and its reply in hexadecimal digits.
fn replied_with(
    alloc: Global,
    trader: usize,
    form: ReplyForm,
    call: Boxed<Call>,
    reply: &[u8],
) -> Result<Option<LoggedCall>, Memory>
    requires { length reply.now < 2 ^ 32 }
    ensures { IfOk result (λ e. e ≡ replied_with trader reply.now (form, call)) }
{
    match parse_reply(alloc, call.get(), reply)? {
        Some(reply) => Ok(Some(LoggedCall {
            trader,
            form,
            call,
            reply,
        })),
        None => Ok(None),
    }
}

/// A call of an object of one of these traders, with its reply: `TRADER REQUEST REPLY`.
///
/// # Errors
///
/// `Memory` only when out of memory.
#[tactic(auto, unfolding(crate::specs::Lines::exchange_of))]
pub(crate) fn exchange_of(
    alloc: Global,
    names: &[Text],
    text: &[u8],
) -> Result<Option<LoggedCall>, Memory>
    requires { length text.now < 2 ^ 32 }
    ensures { IfOk result (λ e. e ≡ exchange_of names.now text.now) }
{
    let Some((name, request, reply)) = three_words(text) else {
        return Ok(None);
    };
    match trader_named(names, name) {
        Some(trader) => exchange_with(alloc, trader, name, request, reply),
        None => Ok(None),
    }
}

/// The line of a change, or of a link that is added.
///
/// # Errors
///
/// `Memory` only when out of memory.
pub(crate) fn change_in(alloc: Global, exchange: LoggedCall) -> Result<Option<Line>, Memory>
    ensures { IfOk result (λ l. l ≡ change_in exchange) }
{
    let LoggedCall {
        trader,
        form,
        call,
        reply,
    } = exchange;
    match call.into_inner() {
        Call::Change(change) => Ok(Some(Line::Change {
            trader,
            form,
            change: Boxed::new(alloc, change)?,
            reply,
        })),
        Call::AddLink(link) => Ok(Some(Line::AddLink {
            trader,
            form,
            link: Boxed::new(alloc, link)?,
            reply,
        })),
        Call::Look(_) => Ok(None),
        Call::Query(_) => Ok(None),
        Call::Resolve(_) => Ok(None),
        Call::Iter(_) => Ok(None),
        Call::IsA(_) => Ok(None),
        Call::NonExistent => Ok(None),
    }
}

/// The line of a look.
///
/// # Errors
///
/// `Memory` only when out of memory.
pub(crate) fn look_in(alloc: Global, exchange: LoggedCall) -> Result<Option<Line>, Memory>
    ensures { IfOk result (λ l. l ≡ look_in exchange) }
{
    let LoggedCall {
        trader,
        form,
        call,
        reply,
    } = exchange;
    match call.into_inner() {
        Call::Look(look) => Ok(Some(Line::Look {
            trader,
            form,
            look: Boxed::new(alloc, look)?,
            reply,
        })),
        Call::Change(_) => Ok(None),
        Call::AddLink(_) => Ok(None),
        Call::Query(_) => Ok(None),
        Call::Resolve(_) => Ok(None),
        Call::Iter(_) => Ok(None),
        Call::IsA(_) => Ok(None),
        Call::NonExistent => Ok(None),
    }
}

/// The line of a query.
fn ask_by(trader: usize, form: ReplyForm, call: Call) -> Option<Line>
    ensures { result ≡ ask_by trader form call }
{
    match call {
        Call::Query(query) => Some(Line::Ask {
            trader,
            form,
            query,
        }),
        Call::Change(_) => None,
        Call::AddLink(_) => None,
        Call::Look(_) => None,
        Call::Resolve(_) => None,
        Call::Iter(_) => None,
        Call::IsA(_) => None,
        Call::NonExistent => None,
    }
}

/// The query that a Request to the trader of this number and name asks, in hexadecimal digits.
fn ask_with(
    alloc: Global,
    trader: usize,
    name: &[u8],
    request: &[u8],
) -> Result<Option<Line>, Memory>
    requires { length request.now < 2 ^ 32 }
    ensures { IfOk result (λ l. l ≡ ask_with trader name.now request.now) }
{
    match parse_request(alloc, name, request)? {
        Some((form, call)) => Ok(ask_by(trader, form, call.into_inner())),
        None => Ok(None),
    }
}

/// A query that is asked of one of these traders: `TRADER REQUEST`.
///
/// # Errors
///
/// `Memory` only when out of memory.
#[tactic(auto, unfolding(crate::specs::Lines::ask_of))]
pub(crate) fn ask_of(alloc: Global, names: &[Text], text: &[u8]) -> Result<Option<Line>, Memory>
    requires { length text.now < 2 ^ 32 }
    ensures { IfOk result (λ l. l ≡ ask_of names.now text.now) }
{
    let Some((name, request)) = two_words(text) else {
        return Ok(None);
    };
    match trader_named(names, name) {
        Some(trader) => ask_with(alloc, trader, name, request),
        None => Ok(None),
    }
}

/// A query, as whose reply a Reply is read.
fn any_query(alloc: Global) -> Result<Call, Memory>
    ensures { IfOk result (λ call. operation_in call ≡ operation.Query) }
{
    let query = Query {
        service_type: Text::new(alloc),
        constraint: Text::new(alloc),
        preference: Text::new(alloc),
        policies: List::new(alloc),
        desired: Desired::None,
        how_many: 0,
    };
    Ok(Call::Query(Shared::new(alloc, query)?))
}

/// The reply to the query of a call, in hexadecimal digits.
fn reply_with(alloc: Global, call: usize, reply: &[u8]) -> Result<Option<Line>, Memory>
    requires { length reply.now < 2 ^ 32 }
    ensures { IfOk result (λ l. l ≡ reply_with call reply.now) }
{
    let query = any_query(alloc)?;
    match parse_reply(alloc, &query, reply)? {
        Some(reply) => Ok(Some(Line::Reply { call, reply })),
        None => Ok(None),
    }
}

/// The reply to the query of a call: `CALL REPLY`.
///
/// # Errors
///
/// `Memory` only when out of memory.
#[tactic(auto, unfolding(crate::specs::Lines::reply_line))]
pub(crate) fn reply_line(alloc: Global, text: &[u8]) -> Result<Option<Line>, Memory>
    requires { length text.now < 2 ^ 32 }
    ensures { IfOk result (λ l. l ≡ reply_line text.now) }
{
    let Some((number, reply)) = two_words(text) else {
        return Ok(None);
    };
    match number_of(number) {
        Some(call) => reply_with(alloc, call as usize, reply),
        None => Ok(None),
    }
}
