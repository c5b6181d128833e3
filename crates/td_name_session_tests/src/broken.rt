//! Input that a session ends at: one byte of a Request is another one, it is cut off, or a message closes the session.

use crate::lines::{ends, session_of};
use crate::vectors::FIRST;
use std::alloc::Global;
use std::process::Abort;
use std::test::Fail;
use td_name_session::{Cause, End};

/// A place in the second Request, the byte that stands there, and the cause at which the session is broken off.
const CAUSES: [(usize, u8, Cause); 7] = [
    (0, 88, Cause::BadMagic),
    (5, 2, Cause::BadVersion),
    (7, 7, Cause::BadType),
    (7, 1, Cause::NotForServer),
    (7, 4, Cause::NotForServer),
    (8, 2, Cause::TooLarge),
    (20, 2, Cause::Header(20)),
];

/// MessageError, which is sent where a session is broken off.
const MESSAGE_ERROR: &[u8] = b"GIOP\x01\x00\x00\x06\x00\x00\x00\x00";

/// Whether the first of two Requests is answered and the session is broken off at the second, which has this byte.
fn breaks(alloc: Global, row: &(usize, u8, Cause)) -> Result<bool, Fail> {
    let (place, byte, cause) = row;
    let mut content = session_of(alloc, FIRST)?;
    let first = content.sent.len();
    let mut second = session_of(alloc, FIRST)?;
    if let Some(at) = second.sent.get_mut(*place) {
        *at = *byte;
    }
    content.sent.extend_from_slice(second.sent.as_slice())?;
    content.given.extend_from_slice(MESSAGE_ERROR)?;
    Ok(ends(alloc, &content, 100_000, End::Broken(first as u64, *cause))?)
}

#[test]
fn a_session_is_broken_off(rt: HostRuntime) -> Result<(), Fail> {
    let alloc = rt.alloc();
    for row in &CAUSES {
        assert!(rt; breaks(alloc, row)?, "{row:?}");
    }
    Ok(())
}

/// Whether a session that is cut off after so many bytes of the second Request ends there.
fn is_cut(alloc: Global, size: usize) -> Result<bool, Fail> {
    let mut content = session_of(alloc, FIRST)?;
    let first = content.sent.len();
    let second = session_of(alloc, FIRST)?;
    let front = second.sent.get(..size).unwrap_or(second.sent.as_slice());
    content.sent.extend_from_slice(front)?;
    Ok(ends(alloc, &content, 100_000, End::Truncated(first as u64))?)
}

#[test]
fn a_session_is_cut_off(rt: HostRuntime) -> Result<(), Fail> {
    let alloc = rt.alloc();
    for size in 1..65 {
        assert!(rt; is_cut(alloc, size)?, "{size} bytes");
    }
    Ok(())
}

/// Whether a message of this type, which has a header alone, closes a session behind its first Request.
fn closes(alloc: Global, kind: u8) -> Result<bool, Fail> {
    let mut content = session_of(alloc, FIRST)?;
    let second = session_of(alloc, FIRST)?;
    content.sent.extend_from_slice(b"GIOP\x01\x00\x00")?;
    content.sent.extend_from_slice(&[kind, 0, 0, 0, 0])?;
    content.sent.extend_from_slice(second.sent.as_slice())?;
    Ok(ends(alloc, &content, 100_000, End::Closed)?)
}

#[test]
fn a_message_closes_a_session(rt: HostRuntime) -> Result<(), Fail> {
    let alloc = rt.alloc();
    assert!(rt; closes(alloc, 5)? && closes(alloc, 6)?);
    Ok(())
}
