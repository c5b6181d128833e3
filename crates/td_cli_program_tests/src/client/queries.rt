//! The calls that the crates of the client make of another object, and what they come to.

use std::alloc::Global;
use td_call::{call_over, evaluate_over};
use td_cdr::{List, Memory, Text};
use td_client::{Caller, Gathered};
use td_ior::{make_ior, read_text};
use td_ops::{Answered, Call, Desired, Query, Reply};
use td_value::{Any, Ior, TypeCode, Value};
use td_walk::{PeerFault, Peers, SubAnswer};
use td_wire::MemWire;

/// What is asked, and by which function.
#[derive(Clone, Copy)]
pub enum Asked {
    /// `_non_existent`, by `call_over`.
    Call,
    /// The same of the nil reference.
    CallOfNil,
    /// The same of the reference with this text.
    CallOf(&'static [u8]),
    /// The same by a caller.
    CallerCall,
    /// evalDP of Cost, by `evaluate_over`.
    Evaluate,
    /// The same of the reference with this text.
    EvaluateOf(&'static [u8]),
    /// The same by a caller as the peers of a visit.
    VisitEvaluate,
    /// A query for ten printers, by a caller.
    Ask,
    /// The same of the reference with this text.
    AskOf(&'static [u8]),
    /// The same by a caller as the peers of a visit.
    VisitAsk,
    /// The register of a Lookup.
    Register,
    /// What the names x and y lead to.
    Resolve,
}

/// What an answer tells.
#[derive(Clone, Copy, PartialEq, Eq)]
pub enum Reported {
    Truth(bool),
    Long(i32),
    /// The reference of a register.
    Register,
    /// How many offers there are, the last of their ids, and how many limits.
    Offers {
        count: usize,
        last: u8,
        limits: usize,
    },
    Exception,
    System {
        minor: u32,
        completion: u32,
    },
    Other,
}

/// The object that is asked.
fn target_of(alloc: Global, asked: Asked) -> Result<Ior, Memory> {
    match asked {
        Asked::CallOfNil => Ok(Ior {
            id: Text::new(alloc),
            profiles: List::new(alloc),
        }),
        Asked::CallOf(text) | Asked::EvaluateOf(text) | Asked::AskOf(text) => {
            match read_text(alloc, text) {
                Ok(target) => Ok(target),
                Err(_) => Err(Memory),
            }
        }
        Asked::Evaluate | Asked::VisitEvaluate => make_ior(alloc, b"IDL:E:1.0", b"h", 9, b"E", 0),
        Asked::Resolve => make_ior(alloc, b"IDL:R:1.0", b"h", 9, b"A/R", 0),
        _ => make_ior(alloc, b"IDL:L:1.0", b"h", 9, b"A/L", 0),
    }
}

/// What the call comes to over this wire.
pub fn came(alloc: Global, wire: &mut MemWire, asked: Asked) -> Result<Reported, PeerFault> {
    let target = target_of(alloc, asked)?;
    let content = content_of(alloc, wire, asked, &target);
    drop(target);
    content
}

fn content_of(
    alloc: Global,
    wire: &mut MemWire,
    asked: Asked,
    target: &Ior,
) -> Result<Reported, PeerFault> {
    match asked {
        Asked::Call | Asked::CallOfNil | Asked::CallOf(_) => call(alloc, wire, target),
        Asked::CallerCall => caller_call(alloc, wire, target),
        Asked::Evaluate | Asked::EvaluateOf(_) => evaluate(alloc, wire, target),
        Asked::VisitEvaluate => visit_evaluate(alloc, wire, target),
        Asked::Ask | Asked::AskOf(_) => ask(alloc, wire, target),
        Asked::VisitAsk => visit_ask(alloc, wire, target),
        Asked::Register => register(alloc, wire, target),
        Asked::Resolve => resolve(alloc, wire, target),
    }
}

fn content_answered(answer: &Result<Answered, PeerFault>) -> Result<Reported, PeerFault> {
    match answer {
        Ok(Answered::Done(Reply::Truth(truth))) => Ok(Reported::Truth(*truth)),
        Ok(Answered::Done(_)) => Ok(Reported::Other),
        Ok(Answered::User(_)) => Ok(Reported::Exception),
        Ok(
            Answered::System {
                minor,
                completion,
                ..
            },
        ) => Ok(Reported::System {
            minor: *minor,
            completion: *completion,
        }),
        Err(fault) => Err(*fault),
    }
}

fn call(alloc: Global, wire: &mut MemWire, target: &Ior) -> Result<Reported, PeerFault> {
    let asked = Call::NonExistent;
    let answer = call_over(alloc, wire, target, &asked);
    drop(asked);
    let content = content_answered(&answer);
    drop(answer);
    content
}

fn caller_call(alloc: Global, wire: &mut MemWire, target: &Ior) -> Result<Reported, PeerFault> {
    let mut caller = Caller::new(wire);
    let asked = Call::NonExistent;
    let answer = caller.call(alloc, target, &asked);
    drop(asked);
    let content = content_answered(&answer);
    drop(answer);
    content
}

fn content_any(any: &Any) -> Reported {
    match &any.value {
        Value::Long(number) => Reported::Long(*number),
        _ => Reported::Other,
    }
}

/// A long of 5, which goes along with an evaluation for a long.
fn extra() -> Any {
    Any {
        code: TypeCode::Long,
        value: Value::Long(5),
    }
}

fn evaluate(alloc: Global, wire: &mut MemWire, evaluator: &Ior) -> Result<Reported, PeerFault> {
    let name = Text::from_slice(alloc, b"Cost")?;
    let extra = extra();
    let answer = evaluate_over(alloc, wire, evaluator, &name, &TypeCode::Long, &extra);
    drop(extra);
    let content = match &answer {
        Ok(Some(value)) => Ok(content_any(value.get())),
        Ok(None) => Ok(Reported::Exception),
        Err(fault) => Err(*fault),
    };
    drop(answer);
    content
}

fn visit_evaluate(
    alloc: Global,
    wire: &mut MemWire,
    evaluator: &Ior,
) -> Result<Reported, PeerFault> {
    let name = Text::from_slice(alloc, b"Cost")?;
    let extra = extra();
    let mut caller = Caller::new(wire);
    let answer = caller.eval_dp(alloc, evaluator, &name, &TypeCode::Long, &extra);
    drop(extra);
    let content = match &answer {
        Ok(value) => Ok(content_any(value.get())),
        Err(fault) => Err(*fault),
    };
    drop(answer);
    content
}

/// A query for ten printers.
fn printers(alloc: Global) -> Result<Query, Memory> {
    Ok(Query {
        service_type: Text::from_slice(alloc, b"Printer")?,
        constraint: Text::new(alloc),
        preference: Text::new(alloc),
        policies: List::new(alloc),
        desired: Desired::None,
        how_many: 10,
    })
}

fn content_offers(answer: &SubAnswer) -> Reported {
    let last = match answer.offers.as_slice().last() {
        Some(offer) => offer.reference.id.as_slice().first(),
        None => None,
    };
    Reported::Offers {
        count: answer.offers.len(),
        last: match last {
            Some(id) => *id,
            None => 0,
        },
        limits: answer.limits.len(),
    }
}

fn ask(alloc: Global, wire: &mut MemWire, target: &Ior) -> Result<Reported, PeerFault> {
    let query = printers(alloc)?;
    let mut caller = Caller::new(wire);
    let answer = caller.ask(alloc, target, &query);
    drop(query);
    let content = match &answer {
        Ok(Gathered::Offers(answer)) => Ok(content_offers(answer)),
        Ok(Gathered::Refused(_)) => Ok(Reported::Exception),
        Err(fault) => Err(*fault),
    };
    drop(answer);
    content
}

fn visit_ask(alloc: Global, wire: &mut MemWire, target: &Ior) -> Result<Reported, PeerFault> {
    let query = printers(alloc)?;
    let mut caller = Caller::new(wire);
    let answer = caller.query(alloc, target, &query);
    drop(query);
    let content = match &answer {
        Ok(answer) => Ok(content_offers(answer)),
        Err(fault) => Err(*fault),
    };
    drop(answer);
    content
}

fn content_reference(answer: &Result<Ior, PeerFault>) -> Result<Reported, PeerFault> {
    match answer {
        Ok(reference) => {
            if reference.id.as_slice() == b"IDL:R:1.0".as_slice() {
                Ok(Reported::Register)
            } else {
                Ok(Reported::Other)
            }
        }
        Err(fault) => Err(*fault),
    }
}

fn register(alloc: Global, wire: &mut MemWire, lookup: &Ior) -> Result<Reported, PeerFault> {
    let mut caller = Caller::new(wire);
    let answer = caller.register_of(alloc, lookup);
    let content = content_reference(&answer);
    drop(answer);
    content
}

fn resolve(alloc: Global, wire: &mut MemWire, register: &Ior) -> Result<Reported, PeerFault> {
    let names = names(alloc)?;
    let mut caller = Caller::new(wire);
    let answer = caller.resolve(alloc, register, &names);
    drop(names);
    let content = content_reference(&answer);
    drop(answer);
    content
}

/// The names x and y.
fn names(alloc: Global) -> Result<List<Text>, Memory> {
    let mut names = List::new(alloc);
    names.push(Text::from_slice(alloc, b"x")?)?;
    names.push(Text::from_slice(alloc, b"y")?)?;
    Ok(names)
}
