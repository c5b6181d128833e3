//! Events from words.

use crate::queries::{query, text};
use std::alloc::Global;
use td_cdr::{Boxed, List, Memory, share_owned_three};
use td_ior::make_ior;
use td_net::{CallState, Event, Net};
use td_ops::Change;
use td_value::{Any, TypeCode, Value};

/// The place of a trader by its letter, 9 for any other.
pub(crate) fn place_of(letter: u8) -> usize {
    match letter {
        b'A' => 0,
        b'B' => 1,
        b'C' => 2,
        b'D' => 3,
        _ => 9,
    }
}

/// An export of a Printer whose object has a key, or of a type that isn't there where there is no key.
fn exported(alloc: Global, key: &str) -> Result<Change, Memory> {
    let service_type = text(alloc, if key.is_empty() { "Scanner" } else { "Printer" })?;
    let object = make_ior(alloc, b"IDL:P:1.0", b"h", 9, key.as_bytes(), 0)?;
    let (reference, (service_type, properties)) = share_owned_three(
        alloc,
        (object, (service_type, List::new(alloc))),
    )?;
    Ok(Change::Export {
        reference,
        service_type,
        properties,
    })
}

/// A value: a number, or `x` for a truth value.
fn value(alloc: Global, word: &str) -> Result<Boxed<Any>, Memory> {
    let any = match word.parse::<u32>() {
        Ok(n) => Any {
            code: TypeCode::ULong,
            value: Value::ULong(n),
        },
        Err(_) => Any {
            code: TypeCode::Boolean,
            value: Value::Boolean(true),
        },
    };
    Boxed::new(alloc, any)
}

fn value_event(alloc: Global, call: usize, word: &str) -> Result<Event, Memory> {
    match word {
        "" => Ok(Event::Value { call, value: None }),
        _ => Ok(Event::Value {
            call,
            value: Some(value(alloc, word)?),
        }),
    }
}

fn change_event(alloc: Global, trader: usize, key: &str) -> Result<Event, Memory> {
    let change = Boxed::new(alloc, exported(alloc, key)?)?;
    Ok(Event::Change { trader, change })
}

/// An Ask of a trader, with the parts of its query.
pub(crate) fn ask_of(alloc: Global, trader: usize, parts: &str) -> Result<Event, Memory> {
    Ok(Event::Ask {
        trader,
        query: query(alloc, parts)?,
    })
}

/// The innermost of the calls that one waits for.
fn innermost(net: &Net, root: usize) -> usize {
    let mut call = root;
    for _ in 0..net.calls() {
        if let Some(CallState::Waiting(sub)) = net.state(call) {
            call = sub;
        }
    }
    call
}

/// The next step of the Ask that opened a call.
fn step(net: &Net, root: usize) -> Event {
    let call = innermost(net, root);
    match net.state(call) {
        Some(CallState::Sent) => Event::Deliver { call },
        _ => Event::Answer { call },
    }
}

/// The event of a word: `aA/i71` an Ask of A with the parts of its query, `cAp` an export at A, `d1` a Deliver,
/// `v1=7` a Value, `r1` an Answer, `l1` a Lose, and `s0` the next step of the Ask that opened call 0.
pub(crate) fn event_of(alloc: Global, net: &Net, word: &str) -> Result<Event, Memory> {
    let (kind, operand) = word.split_at_checked(1).unwrap_or(("", ""));
    let (number, rest) = operand.split_once('=').unwrap_or((operand, ""));
    let call = number.parse::<usize>().unwrap_or(0);
    let trader = place_of(operand.as_bytes().first().copied().unwrap_or(0));
    let (_letter, parts) = operand.split_at_checked(1).unwrap_or(("", ""));
    match kind {
        "a" => ask_of(alloc, trader, parts),
        "c" => change_event(alloc, trader, parts),
        "d" => Ok(Event::Deliver { call }),
        "v" => value_event(alloc, call, rest),
        "r" => Ok(Event::Answer { call }),
        "l" => Ok(Event::Lose { call }),
        _ => Ok(step(net, call)),
    }
}
