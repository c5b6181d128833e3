//! The message header: 12 octets in front of each message (chapter "General Inter-ORB Protocol",
//! "GIOP Message Header").

ghost use Rattle.std.specs.Prelude.{◌≡◌, ◌≤◌, length, slice_index, IsTrue, ◌↔◌};
ghost use Rattle.td_cdr.specs.Reading.{number};
ghost use Rattle.td_giop.specs.Header.{has_magic, has_version, is_fragmented, order_of_flag, size_in_header, header_at};

use crate::fault::FrameFault;
use crate::message_type::MESSAGE_ERROR;
use byteorder::{BigEndian, ByteOrder, LittleEndian};
use circular_buffer::HeapCircularBuffer;
use td_cdr::Order;

/// How many octets a header has.
pub const HEADER_SIZE: usize = 12;

/// The octets that a message begins with.
pub const MAGIC: [u8; 4] = *b"GIOP";

/// The major version.
pub const MAJOR: u8 = 1;

/// The newest minor version that is read and written: messages are of GIOP 1.0 and 1.1.
pub const NEWEST_MINOR: u8 = 1;

/// Where the major version stands in a header.
pub const MAJOR_PLACE: usize = 4;

/// Where the minor version stands in a header.
pub const MINOR_PLACE: usize = 5;

/// Where the octet stands whose lowest bit tells the order; in version 1.1 the next bit tells fragments.
pub const ORDER_PLACE: usize = 6;

/// Where the message type stands in a header.
pub const TYPE_PLACE: usize = 7;

/// Where the size field stands in a header.
pub const SIZE_PLACE: usize = 8;

/// What a good header tells.
#[derive(Clone, Copy, Debug, PartialEq, Eq)]
pub struct Header {
    /// The message type.
    pub kind: u8,
    /// The order of the message's numbers.
    pub order: Order,
    /// How many bytes follow the header.
    pub size: u32,
    /// The minor version.
    pub minor: u8,
}

/// The header in front, once its octets are there.
///
/// # Errors
///
/// The first `FrameFault` that fits, in the order magic, version, flags, type, size.
#[tactic(auto, unfolding(crate::specs::Header::header_at))]
pub fn judge(ring: &HeapCircularBuffer<u8>, limit: u32) -> Result<Option<Header>, FrameFault>
    ensures { result ≡ header_at limit ring.now.items }
{
    if ring.len() < HEADER_SIZE {
        return Ok(None);
    }
    if !has_magic(ring) {
        return Err(FrameFault::BadMagic);
    }
    if !has_version(ring) {
        return Err(FrameFault::BadVersion);
    }
    if is_fragmented(ring) {
        return Err(FrameFault::Fragmented);
    }
    let kind = octet(ring, TYPE_PLACE);
    if kind > MESSAGE_ERROR {
        return Err(FrameFault::BadType);
    }
    let order = order_of(octet(ring, ORDER_PLACE));
    let size = size_of(ring, order);
    if size > limit {
        return Err(FrameFault::TooLarge);
    }
    let minor = octet(ring, MINOR_PLACE);
    Ok(Some(Header {
        kind,
        order,
        size,
        minor,
    }))
}

fn has_magic(ring: &HeapCircularBuffer<u8>) -> bool
    ensures { result ≡ has_magic ring.now.items }
{
    octet(ring, 0) == MAGIC[0]
        && octet(ring, 1) == MAGIC[1]
        && octet(ring, 2) == MAGIC[2]
        && octet(ring, 3) == MAGIC[3]
}

fn has_version(ring: &HeapCircularBuffer<u8>) -> bool
    ensures { result ≡ has_version ring.now.items }
{
    octet(ring, MAJOR_PLACE) == MAJOR && octet(ring, MINOR_PLACE) <= NEWEST_MINOR
}

/// Whether fragments of the message follow. Version 1.0 has none.
fn is_fragmented(ring: &HeapCircularBuffer<u8>) -> bool
    ensures { result ≡ is_fragmented ring.now.items }
{
    octet(ring, MINOR_PLACE) > 0 && octet(ring, ORDER_PLACE) % 4 >= 2
}

/// The size field, which is a number in the message's order.
fn size_of(ring: &HeapCircularBuffer<u8>, order: Order) -> u32
    ensures { result ≡ size_in_header order ring.now.items }
{
    let cell = [
        octet(ring, SIZE_PLACE),
        octet(ring, SIZE_PLACE + 1),
        octet(ring, SIZE_PLACE + 2),
        octet(ring, SIZE_PLACE + 3),
    ];
    match order {
        Order::Big => BigEndian::read_u32(&cell),
        Order::Little => LittleEndian::read_u32(&cell),
    }
}

/// The order that the lowest bit of the header's order octet tells.
pub fn order_of(octet: u8) -> Order
    ensures { result ≡ order_of_flag octet }
{
    if octet % 2 == 0 {
        Order::Big
    } else {
        Order::Little
    }
}

/// An octet of the ring, or 0 past its end.
fn octet(ring: &HeapCircularBuffer<u8>, index: usize) -> u8
    ensures { result ≡ slice_index ring.now.items index }
{
    ring.get(index).copied().unwrap_or(0)
}
