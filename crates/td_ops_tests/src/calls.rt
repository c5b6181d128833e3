//! Calls that another program worked out from the rules of CORBA's chapters.

use crate::lines::{body_in, bytes_of, call_in, cut, is_fault, kind_of, number_of};
use crate::vectors::{CALLS, FAULTS, SHORT_CALLS};
use std::alloc::Global;
use std::process::Abort;
use std::test::Fail;
use td_cdr::{Boxed, Memory, Order, Reader, Writer};
use td_ops::{Call, OpsFault, operation_of, read_call, write_call};
use td_value::Kind;

/// Whether the call has this name, and is written as the body.
fn is_call(
    alloc: Global,
    call: &Boxed<Call>,
    name: &str,
    body: &[u8],
    order: Order,
) -> Result<bool, Memory> {
    let mut writer = Writer::new(alloc, order);
    write_call(alloc, &mut writer, call.get())?;
    Ok(operation_of(call.get()) == name && writer.bytes() == body)
}

/// An object, an operation and both bodies: whether the call is read with bytes behind its last parameter, and written
/// again.
fn is_spelled(alloc: Global, line: &str, order: Order) -> Result<bool, Fail> {
    let (kind, rest) = cut(line);
    let (name, bodies) = cut(rest);
    let bytes = bytes_of(alloc, "", body_in(bodies, order), "ff00ff")?;
    let (call, place) = call_in(alloc, kind, name, &bytes, order)?;
    let body = bytes.strip_suffix(b"\xff\x00\xff").unwrap_or(b"");
    Ok(place as usize == body.len() && is_call(alloc, &call, name, body, order)?)
}

#[test]
fn calls(rt: HostRuntime) -> Result<(), Fail> {
    let alloc = rt.alloc();
    for lines in [CALLS, SHORT_CALLS] {
        for line in lines.lines() {
            assert!(rt; is_spelled(alloc, line, Order::Big)?, "at {line}");
            assert!(rt; is_spelled(alloc, line, Order::Little)?, "at {line}");
        }
    }
    Ok(())
}

fn has_second_name(alloc: Global, kind: &str) -> Result<bool, Fail> {
    let (call, _place) = call_in(alloc, kind, "_not_existent", b"", Order::Big)?;
    Ok(operation_of(call.get()) == "_non_existent")
}

/// Every object answers the second name of `_non_existent`.
#[test]
fn second_name(rt: HostRuntime) -> Result<(), Fail> {
    let alloc = rt.alloc();
    for kind in [
        "Lookup", "Register", "Link", "Proxy", "Admin", "Types", "Iterator",
    ] {
        assert!(rt; has_second_name(alloc, kind)?, "at {kind}");
    }
    Ok(())
}

/// Why there is no call from byte 8 on, and the place where the reader is then.
fn fault_in(alloc: Global, kind: Kind, name: &str, bytes: &[u8]) -> (Option<OpsFault>, u32) {
    if bytes.len() < 8 || bytes.len() >= 10000 {
        return (None, 0);
    }
    let mut reader = Reader::new(bytes, 8, Order::Big);
    let found = read_call(alloc, &kind, name.as_bytes(), &mut reader).err();
    (found, reader.place())
}

/// An object, an operation, a fault, its place and the body: whether it is refused with this fault, and the reader
/// stays.
fn is_refused(alloc: Global, line: &str) -> Result<bool, Fail> {
    let (kind, rest) = cut(line);
    let (name, rest) = cut(rest);
    let (fault, rest) = cut(rest);
    let (place, digits) = cut(rest);
    let bytes = bytes_of(alloc, "0000000000000000", digits, "")?;
    let found = fault_in(alloc, kind_of(kind), name, &bytes);
    Ok(is_fault(found, fault, number_of(place)))
}

#[test]
fn faults(rt: HostRuntime) -> Result<(), Fail> {
    let alloc = rt.alloc();
    for line in FAULTS.lines() {
        assert!(rt; is_refused(alloc, line)?, "at {line}");
    }
    Ok(())
}
