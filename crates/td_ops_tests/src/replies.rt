//! Replies that another program worked out from the rules of CORBA's chapters.

use crate::exceptions::exception;
use crate::lines::{body_in, bytes_of, call_in, cut, is_fault, number_of};
use crate::vectors::{REPLY_FAULTS, RESULTS, SYSTEM_EXCEPTIONS, USER_EXCEPTIONS};
use std::alloc::Global;
use std::process::Abort;
use std::test::Fail;
use td_cdr::{Boxed, List, Memory, Order, Reader, Text, Writer};
use td_ops::{
    Answered, Call, OpsFault, Outcome, Reply, SystemKind, read_outcome, status_of, user_id,
    write_outcome,
};

/// What a reply with this body tells, and the place behind it.
fn answer_in(
    alloc: Global,
    call: &Call,
    status: u32,
    bytes: &[u8],
    order: Order,
) -> Result<(Boxed<Answered>, u32), Fail> {
    if bytes.len() >= 10000 {
        return Err("too long".into());
    }
    let mut reader = Reader::new(bytes, 0, order);
    let answer = Boxed::new(alloc, read_outcome(alloc, call, status, &mut reader)?)?;
    Ok((answer, reader.place()))
}

/// Whether the outcome has the status and is written as the body.
fn is_written(
    alloc: Global,
    outcome: &Boxed<Outcome>,
    status: u32,
    body: &[u8],
    order: Order,
) -> Result<bool, Memory> {
    let mut writer = Writer::new(alloc, order);
    write_outcome(alloc, &mut writer, outcome.get())?;
    Ok(writer.bytes() == body && status_of(outcome.get()) == status)
}

/// Whether the answer is a result that is written as the body.
fn is_result(alloc: Global, answer: Answered, body: &[u8], order: Order) -> Result<bool, Memory> {
    match answer {
        Answered::Done(reply) => {
            let outcome = Boxed::new(alloc, Outcome::Done(reply))?;
            is_written(alloc, &outcome, 0, body, order)
        }
        _ => Ok(false),
    }
}

/// The call of an object in big order.
fn requested(alloc: Global, kind: &str, name: &str, digits: &str) -> Result<Boxed<Call>, Fail> {
    let request = bytes_of(alloc, "", digits, "")?;
    let (call, _place) = call_in(alloc, kind, name, &request, Order::Big)?;
    Ok(call)
}

/// An object, an operation, its request, and both bodies of its reply: whether the result is read with bytes behind its
/// last value, and written again.
fn is_result_read(alloc: Global, line: &str, order: Order) -> Result<bool, Fail> {
    let (kind, rest) = cut(line);
    let (name, rest) = cut(rest);
    let (request, bodies) = cut(rest);
    let call = requested(alloc, kind, name, request)?;
    let bytes = bytes_of(alloc, "", body_in(bodies, order), "ff00ff")?;
    let (answer, place) = answer_in(alloc, call.get(), 0, &bytes, order)?;
    let body = bytes.strip_suffix(b"\xff\x00\xff").unwrap_or(b"");
    Ok(place as usize == body.len() && is_result(alloc, answer.into_inner(), body, order)?)
}

#[test]
fn results(rt: HostRuntime) -> Result<(), Fail> {
    let alloc = rt.alloc();
    for line in RESULTS.lines() {
        assert!(rt; is_result_read(alloc, line, Order::Big)?, "at {line}");
        assert!(rt; is_result_read(alloc, line, Order::Little)?, "at {line}");
    }
    Ok(())
}

/// Whether a client is told this: the id of a user exception, or the numbers of a system exception, which all bytes
/// spell.
fn is_content(answer: &Answered, whole: bool, outcome: &Outcome) -> bool {
    match (answer, outcome) {
        (Answered::User(id), Outcome::User(exception)) => id.as_slice() == user_id(exception),
        (
            Answered::System {
                minor: content,
                completion: done,
                ..
            },
            Outcome::System {
                minor,
                completion,
                ..
            },
        ) => whole && content == minor && done == completion,
        _ => false,
    }
}

/// Whether the exception is written as the body, and a client is told it.
fn is_raised(
    alloc: Global,
    outcome: &Boxed<Outcome>,
    status: u32,
    digits: &str,
    order: Order,
) -> Result<bool, Fail> {
    let body = bytes_of(alloc, "", digits, "")?;
    let call = Boxed::new(alloc, Call::NonExistent)?;
    let (answer, place) = answer_in(alloc, call.get(), status, &body, order)?;
    let whole = place as usize == body.len();
    Ok(
        is_content(answer.get(), whole, outcome.get())
            && is_written(alloc, outcome, status, &body, order)?,
    )
}

/// An exception and both bodies.
fn raises_user(alloc: Global, line: &str) -> Result<bool, Fail> {
    let (name, rest) = cut(line);
    let (big, little) = cut(rest);
    let outcome = exception(alloc, name)?;
    Ok(
        is_raised(alloc, &outcome, 1, big, Order::Big)?
            && is_raised(alloc, &outcome, 1, little, Order::Little)?,
    )
}

#[test]
fn user_exceptions(rt: HostRuntime) -> Result<(), Fail> {
    let alloc = rt.alloc();
    for line in USER_EXCEPTIONS.lines() {
        assert!(rt; raises_user(alloc, line)?, "at {line}");
    }
    Ok(())
}

/// The system exception that a word names.
fn system_kind(word: &str) -> SystemKind {
    match word {
        "Marshal" => SystemKind::Marshal,
        "NoImplement" => SystemKind::NoImplement,
        "BadOperation" => SystemKind::BadOperation,
        "ObjectNotExist" => SystemKind::ObjectNotExist,
        "ImpLimit" => SystemKind::ImpLimit,
        _ => SystemKind::NoMemory,
    }
}

/// A system exception, its minor code and completion, and both bodies.
fn raises_system(alloc: Global, line: &str) -> Result<bool, Fail> {
    let (word, rest) = cut(line);
    let (minor, rest) = cut(rest);
    let (completion, rest) = cut(rest);
    let (big, little) = cut(rest);
    let outcome = Boxed::new(
        alloc,
        Outcome::System {
            kind: system_kind(word),
            minor: number_of(minor),
            completion: number_of(completion),
        },
    )?;
    Ok(
        is_raised(alloc, &outcome, 2, big, Order::Big)?
            && is_raised(alloc, &outcome, 2, little, Order::Little)?,
    )
}

#[test]
fn system_exceptions(rt: HostRuntime) -> Result<(), Fail> {
    let alloc = rt.alloc();
    for line in SYSTEM_EXCEPTIONS.lines() {
        assert!(rt; raises_system(alloc, line)?, "at {line}");
    }
    Ok(())
}

/// Why a reply tells nothing from byte 8 on, and the place where the reader is then.
fn fault_in(alloc: Global, call: &Call, status: u32, bytes: &[u8]) -> (Option<OpsFault>, u32) {
    if bytes.len() < 8 || bytes.len() >= 10000 {
        return (None, 0);
    }
    let mut reader = Reader::new(bytes, 8, Order::Big);
    let found = read_outcome(alloc, call, status, &mut reader).err();
    (found, reader.place())
}

/// A reply's status, a fault, its place and the body of the reply to a call: whether it is refused with this fault, and
/// the reader stays.
fn is_reply_refused(alloc: Global, call: &Call, line: &str) -> Result<bool, Fail> {
    let (status, rest) = cut(line);
    let (fault, rest) = cut(rest);
    let (place, digits) = cut(rest);
    let bytes = bytes_of(alloc, "0000000000000000", digits, "")?;
    let found = fault_in(alloc, call, number_of(status), &bytes);
    Ok(is_fault(found, fault, number_of(place)))
}

/// An object, an operation, its request, and the reply with its fault.
fn refuses_line(alloc: Global, line: &str) -> Result<bool, Fail> {
    let (kind, rest) = cut(line);
    let (name, rest) = cut(rest);
    let (request, reply) = cut(rest);
    let call = requested(alloc, kind, name, request)?;
    is_reply_refused(alloc, call.get(), reply)
}

#[test]
fn reply_faults(rt: HostRuntime) -> Result<(), Fail> {
    let alloc = rt.alloc();
    for line in REPLY_FAULTS.lines() {
        assert!(rt; refuses_line(alloc, line)?, "at {line}");
    }
    Ok(())
}

/// Ids of an iterator, which a server writes and a client's `next_n` reads as offers.
#[test]
fn batch_of_ids(rt: HostRuntime) -> Result<(), Fail> {
    let alloc = rt.alloc();
    assert!(rt; writes_ids(alloc)?);
    Ok(())
}

fn writes_ids(alloc: Global) -> Result<bool, Memory> {
    let mut ids = List::new(alloc);
    ids.push(Text::from_slice(alloc, b"12")?)?;
    let outcome = Boxed::new(alloc, Outcome::Done(Reply::IdBatch { more: true, ids }))?;
    let body = b"\x01\x00\x00\x00\x00\x00\x00\x01\x00\x00\x00\x0312\x00";
    is_written(alloc, &outcome, 0, body, Order::Big)
}
