//! The log of a network in which each trader is asked in order.

ghost use Rattle.std.specs.Prelude.{◌≡◌, ◌++◌, ◌∷◌, [], length, OnOk, IfOk, Some};
ghost use Rattle.hex.specs.Hex.{encode_lower};
ghost use Rattle.td_audit.specs.Events.{IsWithinLimits};
ghost use Rattle.td_audit.specs.Following.{AsksOne, FollowsTo, ResumesCall, PutsReply, query_request};
ghost use Rattle.td_audit.specs.Making.{AcceptsEvent, IsOutcomeOfVisit, IsLog, ask_line, form, innermost_call};
ghost use Rattle.td_audit.specs.Making.{request_to};
ghost use Rattle.td_audit.specs.Replies.{spelled_reply};
ghost use Rattle.td_cdr.specs.Lawful.{AreOctets};
ghost use Rattle.td_cdr.specs.Names.{IsTraderName};
ghost use Rattle.td_iter.specs.Heads.{AreLimits};
ghost use Rattle.td_lookup.specs.Answering.{HasLimits};
ghost use Rattle.td_net.specs.Worlds.{visit_at};
ghost use Rattle.td_objects.specs.References.{IsAddress};
ghost use Rattle.td_ops.specs.declared.outcome.Outcome.{Outcome};
ghost use Rattle.td_walk.specs.declared.trace.Visit.{Visit as Reached};
ghost use Rattle.td_walk.specs.declared.trace.Visit.TheVariants as visit;

use crate::events::happen;
use crate::group::group_of;
use crate::replies::{begin_reply, write_reply};
use std::alloc::Global;
use td_cdr::{List, Memory, Octets, Order, Shared, Text, Twin, Writer, is_trader_name};
use td_drill::drill_query;
use td_forms::{put, put_counted};
use td_giop::{seal, start_request};
use td_ior::{Kind, ObjectKey, write_key};
use td_iter::put_found;
use td_log::{ReplyForm, Version};
use td_lookup::choose_each;
use td_net::{CallState, Event, Net};
use td_objects::offer_iterator;
use td_ops::{Call, write_call};
use td_trader::Solo;
use td_value::SpecifiedProps;
use td_walk::{Address, SubAnswer, Visit};

/// The id of each Request, and the number of a session's first iterator.
const FIRST: u32 = 1;

/// How many offers a reply has at most.
const HOW_MANY: u32 = 100;

/// The form of each reply: its Request is of GIOP 1.0, and in big order.
fn form() -> ReplyForm
    ensures { result ≡ form }
{
    ReplyForm {
        order: Order::Big,
        version: Version::V1_0,
        id: FIRST,
    }
}

/// The Request that asks the Lookup of the trader of this name.
fn request_to(alloc: Global, name: &Text) -> Result<Writer, Memory>
    ensures { IfOk result (λ w. w.bytes ≡ request_to name.now) }
{
    let trader = name.copy(alloc)?;
    let named = ObjectKey {
        trader,
        kind: Kind::Lookup,
    };
    let key = write_key(alloc, &named)?;
    query_request(alloc, key.as_slice())
}

/// The Request that asks the object of this key.
fn query_request(alloc: Global, key: &[u8]) -> Result<Writer, Memory>
    ensures { IfOk result (λ w. w.bytes ≡ query_request key.now) }
{
    let call = Call::Query(Shared::new(alloc, drill_query(alloc)?)?);
    let mut writer = Writer::new(alloc, Order::Big);
    start_request(&mut writer, 0, FIRST, true, key, b"query")?;
    write_call(alloc, &mut writer, &call)?;
    seal(&mut writer);
    Ok(writer)
}

/// Appends hexadecimal digits of these octets, and a line feed.
fn put_octets(alloc: Global, text: &mut Vec<u8>, octets: &[u8]) -> Result<(), Memory>
    ensures content { OnOk result (text.new.items ≡ text.old.items ++ encode_lower octets.now ++ 10
        ∷ []) }
    ensures octets { OnOk result (AreOctets octets.now) }
{
    let digits = hex::encode(alloc, octets)?;
    put(text, digits.as_bytes())?;
    put(text, b"\n")
}

/// Appends the line by which a trader is asked.
fn put_ask(alloc: Global, text: &mut Vec<u8>, name: &Text) -> Result<(), Memory>
    ensures content { OnOk result (text.new.items ≡ text.old.items ++ ask_line name.now ++ 10
        ∷ []) }
    ensures octets { OnOk result (AreOctets (request_to name.now)) }
{
    let request = request_to(alloc, name)?;
    put(text, b"ask ")?;
    put(text, name.as_slice())?;
    put(text, b" ")?;
    put_octets(alloc, text, request.bytes())
}

/// The call that a call waits for, and so on.
fn innermost_call(net: &Net, call: usize) -> usize
    ensures { result ≡ innermost_call (length net.now.calls) net.now.calls call }
{
    let mut call = call;
    for _ in 0..net.calls() {
        match net.state(call) {
            Some(CallState::Waiting(sub)) => call = sub,
            _ => return call,
        }
    }
    call
}

/// Has the innermost call of an Ask go on, and tells it in a line.
///
/// # Errors
///
/// `Memory` only when out of memory.
fn go_on(alloc: Global, net: &mut Net, call: usize, text: &mut Vec<u8>) -> Result<(), Memory>
    requires { IsWithinLimits net.old }
    ensures goes { OnOk result (ResumesCall net.old call text.old.items text.new.items net.new) }
    ensures sound { OnOk result (IsWithinLimits net.new) }
{
    match net.state(call) {
        Some(CallState::Sent) => {
            put_counted(text, b"deliver ", call as u64)?;
            put(text, b"\n")?;
            take(net, Event::Deliver { call })
        }
        Some(CallState::Evaluating) => {
            put_counted(text, b"value ", call as u64)?;
            put(text, b" -\n")?;
            take(net, Event::Value { call, value: None })
        }
        Some(CallState::Ended) => {
            put_counted(text, b"answer ", call as u64)?;
            put(text, b"\n")?;
            take(net, Event::Answer { call })
        }
        _ => Err(Memory),
    }
}

/// Hands the network an event that it accepts.
fn take(net: &mut Net, event: Event) -> Result<(), Memory>
    requires { IsWithinLimits net.old }
    ensures accepts { OnOk result (AcceptsEvent net.old event net.new) }
    ensures sound { OnOk result (IsWithinLimits net.new) }
{
    match happen(net, event) {
        Ok(()) => Ok(()),
        Err(_) => Err(Memory),
    }
}

/// Has the calls of an Ask go on until its own has ended, the innermost first.
fn follow(alloc: Global, net: &mut Net, root: usize, text: &mut Vec<u8>) -> Result<(), Memory>
    requires { IsWithinLimits net.old }
    ensures follows { OnOk result (FollowsTo root net.old text.old.items text.new.items net.new) }
    ensures sound { OnOk result (IsWithinLimits net.new) }
{
    for _ in 0..u64::MAX {
        match net.answer(root) {
            Some(_) => return Ok(()),
            None => go_on(alloc, net, innermost_call(net, root), text)?,
        }
    }
    Err(Memory)
}

/// The reply to a query that came to this, as a session of its own gives it.
fn reply_to(alloc: Global, home: &Address, name: &Text, visit: &Visit) -> Result<Writer, Memory>
    requires home { IsAddress home.now }
    requires name { IsTraderName name.now }
    requires limits { HasLimits visit.now }
    ensures { IfOk result (λ w. (o : Outcome) × IsOutcomeOfVisit home.now name.now visit.now o
        × (w.bytes ≡ spelled_reply form o)) }
{
    match visit {
        Visit::Answered { answer, max_list } => { reply_with(alloc, home, name, answer, *max_list) }
        Visit::Refused(outcome) => write_reply(alloc, form(), outcome.get()),
    }
}

/// The reply that has the first batch of an answer's offers.
fn reply_with(
    alloc: Global,
    home: &Address,
    name: &Text,
    answer: &SubAnswer,
    max_list: u32,
) -> Result<Writer, Memory>
    requires home { IsAddress home.now }
    requires name { IsTraderName name.now }
    requires limits { AreLimits answer.now.limits }
    ensures { IfOk result (λ w. (o : Outcome)
        × IsOutcomeOfVisit home.now name.now (visit.Answered answer.now max_list) o
        × (w.bytes ≡ spelled_reply form o)) }
{
    let offers = answer.offers.copy(alloc)?;
    let offers = choose_each(alloc, &SpecifiedProps::None, offers)?;
    let iterator = offer_iterator(alloc, home, name, FIRST as u64)?;
    let mut writer = begin_reply(alloc, form(), 0)?;
    let n = HOW_MANY.min(max_list);
    let _count = put_found(
        alloc,
        &mut writer,
        offers.as_slice(),
        n,
        &iterator,
        &answer.limits,
    )?;
    seal(&mut writer);
    Ok(writer)
}

/// Appends the line of the reply to a query, once its call has ended.
fn put_reply(
    alloc: Global,
    home: &Address,
    net: &Net,
    name: &Text,
    call: usize,
    text: &mut Vec<u8>,
) -> Result<(), Memory>
    requires home { IsAddress home.now }
    requires name { IsTraderName name.now }
    requires sound { IsWithinLimits net.now }
    ensures { (v : Reached) → visit_at net.now.calls call ≡ Some v
        → OnOk result (PutsReply home.now name.now call v text.old.items text.new.items) }
{
    let Some(visit) = net.answer(call) else {
        return Err(Memory);
    };
    let reply = reply_to(alloc, home, name, visit)?;
    put_counted(text, b"reply ", call as u64)?;
    put(text, b" ")?;
    put_octets(alloc, text, reply.bytes())
}

/// Asks a trader, and tells it line by line up to the reply.
fn ask_trader(
    alloc: Global,
    home: &Address,
    net: &mut Net,
    trader: usize,
    name: &Text,
    text: &mut Vec<u8>,
) -> Result<(), Memory>
    requires home { IsAddress home.now }
    requires name { IsTraderName name.now }
    requires sound { IsWithinLimits net.old }
    ensures asks { OnOk result
        (AsksOne home.now trader name.now net.old text.old.items text.new.items net.new) }
    ensures sound { OnOk result (IsWithinLimits net.new) }
{
    put_ask(alloc, text, name)?;
    let call = net.calls();
    let query = Shared::new(alloc, drill_query(alloc)?)?;
    take(net, Event::Ask { trader, query })?;
    follow(alloc, net, call, text)?;
    put_reply(alloc, home, net, name, call, text)
}

/// A log of a network of these traders, in which each of them that a key can name is asked in order by the query of a
/// drill. Each call that was sent comes to its trader at once, a visit that waits for a value gets none, and each call
/// that has ended is answered at once, so that the innermost call always goes on; the reply to a query follows once its
/// call has ended. Each reply is that of a session of its own.
///
/// Each Request has the id 1, is of GIOP 1.0 and in big order.
///
/// # Errors
///
/// `Memory` only when out of memory.
pub fn make_log(alloc: Global, solo: Solo, home: Address) -> Result<Octets, Memory>
    requires { IsAddress home }
    ensures { IfOk result (λ log. IsLog solo.traders.items home log) }
{
    let group = group_of(alloc, &home, solo.traders.as_slice())?;
    let mut net = Net::new(alloc, List::from_vec(solo.traders), home, List::new(alloc));
    let mut text = Vec::new(alloc);
    for (trader, name) in group.names.as_slice().iter().enumerate() {
        if is_trader_name(name.as_slice()) {
            ask_trader(alloc, &group.home, &mut net, trader, name, &mut text)?;
        }
    }
    Ok(Octets::from_vec(text))
}
