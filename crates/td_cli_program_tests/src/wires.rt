//! A wire in memory that is made of its bytes, what was written over it, and whether a connection stands.

use std::alloc::Global;
use td_cdr::{List, Memory, Octets};
use td_wire::{MemWire, Wire};

fn joined(alloc: Global, parts: &[&[u8]]) -> Result<Octets, Memory> {
    let mut bytes = Vec::new(alloc);
    for part in parts {
        bytes.extend_from_slice(part)?;
    }
    Ok(Octets::from_vec(bytes))
}

/// A wire whose first connection gives these parts, one after the other; these calls fail.
pub fn wire_of(alloc: Global, parts: &[&[u8]], failing: &[u64]) -> Result<MemWire, Memory> {
    let mut answers = List::new(alloc);
    answers.push(joined(alloc, parts)?)?;
    let failing = List::from_slice(alloc, failing)?;
    Ok(MemWire::new(alloc, answers, failing))
}

/// A wire whose first two connections give these parts, one after the other; these calls fail.
pub fn wire_of_both(
    alloc: Global,
    first: &[&[u8]],
    second: &[&[u8]],
    failing: &[u64],
) -> Result<MemWire, Memory> {
    let mut answers = List::new(alloc);
    answers.push(joined(alloc, first)?)?;
    answers.push(joined(alloc, second)?)?;
    let failing = List::from_slice(alloc, failing)?;
    Ok(MemWire::new(alloc, answers, failing))
}

/// Whether bytes are these parts, one after the other.
pub fn is_joined(bytes: &[u8], parts: &[&[u8]]) -> bool {
    let mut rest = bytes;
    for part in parts {
        let Some(behind) = rest.strip_prefix(*part) else {
            return false;
        };
        rest = behind;
    }
    rest.is_empty()
}

/// Whether these parts were written over the first connection, one after the other, and there was no second one; of
/// no parts, whether there was no connection at all.
pub fn has_written(wire: &MemWire, parts: &[&[u8]]) -> bool {
    match wire.written(0) {
        Some(written) => {
            !parts.is_empty() && is_joined(written, parts) && wire.written(1).is_none()
        }
        None => parts.is_empty(),
    }
}

/// Whether these parts were written over the first connection and those over the second, and there was no third one.
pub fn has_written_both(wire: &MemWire, first: &[&[u8]], second: &[&[u8]]) -> bool {
    match (wire.written(0), wire.written(1)) {
        (Some(one), Some(two)) => {
            is_joined(one, first) && is_joined(two, second) && wire.written(2).is_none()
        }
        _ => false,
    }
}

/// Whether no connection stands. A write tells it; the first may be one that was set to fail.
pub fn is_disconnected(wire: &mut MemWire) -> bool {
    wire.write(b"?").is_err() && wire.write(b"?").is_err()
}
