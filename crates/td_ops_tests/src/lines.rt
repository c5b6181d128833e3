//! Lines of vectors.

use std::alloc::Global;
use std::test::Fail;
use td_cdr::{Boxed, Order, Reader};
use td_ops::{Call, OpsFault, read_call};
use td_value::Kind;

/// The object that a word names.
pub fn kind_of(word: &str) -> Kind {
    match word {
        "Lookup" => Kind::Lookup,
        "Register" => Kind::Register,
        "Link" => Kind::Link,
        "Proxy" => Kind::Proxy,
        "Admin" => Kind::Admin,
        "Types" => Kind::Types,
        _ => Kind::Iterator(1),
    }
}

/// The bytes of hexadecimal digits, where a dash is none, between those of others.
pub fn bytes_of(alloc: Global, front: &str, digits: &str, back: &str) -> Result<Vec<u8>, Fail> {
    let digits = if digits == "-" { "" } else { digits };
    let all = format!(in alloc; "{front}{digits}{back}")?;
    Ok(hex::decode(alloc, all.as_bytes())?)
}

/// The first word of a line, and what stands behind it.
pub fn cut(line: &str) -> (&str, &str) {
    line.split_once(' ').unwrap_or((line, ""))
}

/// The digits of a body: the big order's come first.
pub fn body_in(bodies: &str, order: Order) -> &str {
    let (big, little) = cut(bodies);
    if order == Order::Big { big } else { little }
}

/// The number of decimal digits.
pub fn number_of(digits: &str) -> u32 {
    digits.parse::<u32>().unwrap_or(0)
}

/// The call of an object in front of the bytes, and the place behind it.
pub fn call_in(
    alloc: Global,
    kind: &str,
    name: &str,
    bytes: &[u8],
    order: Order,
) -> Result<(Boxed<Call>, u32), Fail> {
    if bytes.len() >= 10000 {
        return Err("too long".into());
    }
    let mut reader = Reader::new(bytes, 0, order);
    let call = read_call(alloc, &kind_of(kind), name.as_bytes(), &mut reader)?;
    Ok((Boxed::new(alloc, call)?, reader.place()))
}

/// Whether this fault, which a word names, was found at a place, and the reader is at byte 8.
pub fn is_fault(found: (Option<OpsFault>, u32), word: &str, place: u32) -> bool {
    let fault = match word {
        "BadOperation" => OpsFault::BadOperation,
        "NoImplement" => OpsFault::NoImplement,
        _ => OpsFault::Marshal(place),
    };
    found == (Some(fault), 8)
}
