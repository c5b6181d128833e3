//! Values that are read of the bytes of a line, and written as they stand there.

use std::alloc::Global;
use td_cdr::{
    Boxed, CdrFault, Order, Reader, Spelled, Twin, ValueFault, Writer, read_whole, write_whole,
};

/// The order that a word names.
fn order_of(word: &str) -> Order {
    if word == "big" {
        Order::Big
    } else {
        Order::Little
    }
}

/// The fault that a word names, at a place.
fn fault_of(word: &str, place: u32) -> ValueFault {
    match word {
        "BadValue" => ValueFault::BadValue(place),
        "Unsupported" => ValueFault::Unsupported(place),
        "BadKind" => ValueFault::BadKind(place),
        "Indirection" => ValueFault::Indirection(place),
        "BadBoolean" => ValueFault::Cdr(CdrFault::BadBoolean(place)),
        "Short" => ValueFault::Cdr(CdrFault::Short(place)),
        _ => ValueFault::Depth(place),
    }
}

/// Whether the value is written as these bytes.
fn is_written<T: Spelled>(
    alloc: Global,
    value: &T,
    bytes: &[u8],
    order: Order,
) -> Result<bool, ValueFault> {
    let mut writer = Writer::new(alloc, order);
    write_whole(alloc, &mut writer, value)?;
    Ok(writer.bytes() == bytes)
}

/// The value that fills the bytes; of a test they are fewer than 1,000.
pub fn whole<T: Spelled + Drop>(
    alloc: Global,
    bytes: &[u8],
    order: Order,
) -> Result<Option<Boxed<T>>, ValueFault> {
    if bytes.len() >= 1000 {
        return Ok(None);
    }
    let mut reader = Reader::new(bytes, 0, order);
    let value = Boxed::new(alloc, read_whole::<T>(alloc, &mut reader)?)?;
    if reader.place() as usize != bytes.len() {
        return Ok(None);
    }
    Ok(Some(value))
}

/// Whether a value that fills the bytes is read, and written as these bytes.
pub fn is_spelled<T: Spelled + Drop>(
    alloc: Global,
    bytes: &[u8],
    order: Order,
) -> Result<bool, ValueFault> {
    match whole::<T>(alloc, bytes, order)? {
        Some(value) => is_written(alloc, value.get(), bytes, order),
        None => Ok(false),
    }
}

/// Whether a value that fills the bytes is read, and its copy written as these bytes.
pub fn is_copied<T: Spelled + Twin + Drop>(
    alloc: Global,
    bytes: &[u8],
    order: Order,
) -> Result<bool, ValueFault> {
    match whole::<T>(alloc, bytes, order)? {
        Some(value) => {
            let twin = value.copy(alloc)?;
            is_written(alloc, twin.get(), bytes, order)
        }
        None => Ok(false),
    }
}

/// The bytes of a line, and the order before them.
pub fn line_of(alloc: Global, line: &str) -> Option<(Order, Vec<u8>)> {
    let (order, digits) = line.split_once(' ')?;
    match hex::decode(alloc, digits.as_bytes()) {
        Ok(bytes) => Some((order_of(order), bytes)),
        Err(_) => None,
    }
}

fn is_line_spelled<T: Spelled + Drop>(alloc: Global, line: &str) -> bool {
    match line_of(alloc, line) {
        Some((order, bytes)) => is_spelled::<T>(alloc, bytes.as_slice(), order) == Ok(true),
        None => false,
    }
}

fn is_line_copied<T: Spelled + Twin + Drop>(alloc: Global, line: &str) -> bool {
    match line_of(alloc, line) {
        Some((order, bytes)) => is_copied::<T>(alloc, bytes.as_slice(), order) == Ok(true),
        None => false,
    }
}

pub fn are_spelled<T: Spelled + Drop>(alloc: Global, lines: &str) -> bool {
    for line in lines.lines() {
        if !is_line_spelled::<T>(alloc, line) {
            return false;
        }
    }
    true
}

pub fn are_copied<T: Spelled + Twin + Drop>(alloc: Global, lines: &str) -> bool {
    for line in lines.lines() {
        if !is_line_copied::<T>(alloc, line) {
            return false;
        }
    }
    true
}

/// Whether the bytes are refused by this fault, and the reader is then unchanged.
pub fn is_refused<T: Spelled + Drop>(alloc: Global, bytes: &[u8], want: ValueFault) -> bool {
    if bytes.len() >= 1000 {
        return false;
    }
    let mut reader = Reader::new(bytes, 0, Order::Big);
    let found = read_whole::<T>(alloc, &mut reader).err();
    found == Some(want) && reader.place() == 0
}

/// The fault, its place and the bytes.
fn is_line_refused<T: Spelled + Drop>(alloc: Global, line: &str) -> bool {
    let (fault, rest) = line.split_once(' ').unwrap_or((line, ""));
    let (place, digits) = rest.split_once(' ').unwrap_or((rest, ""));
    match (place.parse::<u32>(), hex::decode(alloc, digits.as_bytes())) {
        (Ok(place), Ok(bytes)) => {
            is_refused::<T>(alloc, bytes.as_slice(), fault_of(fault, place))
        }
        _ => false,
    }
}

pub fn are_refused<T: Spelled + Drop>(alloc: Global, lines: &str) -> bool {
    for line in lines.lines() {
        if !is_line_refused::<T>(alloc, line) {
            return false;
        }
    }
    true
}
