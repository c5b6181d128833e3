//! Calls from bytes.

use crate::lines::{body_in, bytes_of, cut, kind_of};
use crate::telling::put_call;
use crate::vectors::{CALLS, FAULTS};
use std::alloc::Global;
use std::process::Abort;
use std::test::Fail;
use td_cdr::{Memory, Order, Reader};
use td_name_ops::{NameKind, read_name_call};
use td_ops::OpsFault;

/// What a body tells, and how many of its bytes were read.
fn content(
    alloc: Global,
    kind: NameKind,
    name: &str,
    bytes: &[u8],
    order: Order,
) -> Result<(Vec<u8>, u32), Memory> {
    let mut said = Vec::new(alloc);
    if bytes.len() >= 10000 {
        return Ok((said, 0));
    }
    let mut reader = Reader::new(bytes, 0, order);
    let call = read_name_call(alloc, kind, name.as_bytes(), &mut reader);
    put_call(alloc, &mut said, &call)?;
    drop(call);
    Ok((said, reader.place()))
}

/// Whether the call of a line is read so, with bytes behind its last parameter.
fn is_spelled(alloc: Global, line: &str, order: Order) -> Result<bool, Fail> {
    let (front, expected) = line.split_once(" = ").unwrap_or((line, ""));
    let (kind, rest) = cut(front);
    let (name, bodies) = cut(rest);
    let bytes = bytes_of(alloc, body_in(bodies, order), "ff00ff")?;
    let (said, place) = content(alloc, kind_of(kind), name, &bytes, order)?;
    Ok(said.as_slice() == expected.as_bytes() && place as usize + 3 == bytes.len())
}

#[test]
fn calls(rt: HostRuntime) -> Result<(), Fail> {
    let alloc = rt.alloc();
    for line in CALLS.lines() {
        assert!(rt; is_spelled(alloc, line, Order::Big)?, "at {line}");
        assert!(rt; is_spelled(alloc, line, Order::Little)?, "at {line}");
    }
    Ok(())
}

/// Whether the body of a line is refused so, and the reader stays.
fn is_refused(alloc: Global, line: &str) -> Result<bool, Fail> {
    let (front, expected) = line.split_once(" = ").unwrap_or((line, ""));
    let (kind, rest) = cut(front);
    let (name, digits) = cut(rest);
    let bytes = bytes_of(alloc, digits, "")?;
    let (said, place) = content(alloc, kind_of(kind), name, &bytes, Order::Big)?;
    Ok(said.as_slice() == expected.as_bytes() && place == 0)
}

#[test]
fn faults(rt: HostRuntime) -> Result<(), Fail> {
    let alloc = rt.alloc();
    for line in FAULTS.lines() {
        assert!(rt; is_refused(alloc, line)?, "at {line}");
    }
    Ok(())
}
