//! Writing at the end of a message, by the rules of CORBA's common data representation.

ghost use Rattle.std.specs.Prelude.{◌≡◌, ◌+◌, ◌^◌, ◌<◌, ◌≤◌, ◌++◌, [], ◌∷◌, length, OnOk, OnErr, IfOk};
ghost use Rattle.td_cdr.specs.Writing.{Draft, Adds, written_number, written_octets, BeginsWithOrder};
ghost use Rattle.td_cdr.specs.Gap.{gap, bytes_of, flag};
ghost use Rattle.std.specs.Prelude.{replicate, take, drop};

use crate::memory::Memory;
use crate::order::Order;
use byteorder::{BigEndian, ByteOrder, LittleEndian};
use std::alloc::Global;
use std::marker::Model;

/// The bytes of a message, or of the inside of an encapsulation, in one order. Each call appends the
/// spelling of a value, with padding of zeros; alignment counts from the first byte. A call that is
/// refused leaves the writer unchanged, and is refused only for want of room: a call that fits the room
/// that `reserve` made is not. A writer has fewer than 2^32 bytes. Signed numbers and booleans are
/// written by their unsigned form. Contracts see a writer as `Draft`: its bytes, its order, and how
/// many bytes it has room for.
#[derive(Drop)]
pub struct Writer {
    bytes: Vec<u8>,
    order: Order,
}

impl Model for Writer {
    ghost use Rattle.std.specs.Prelude.{◌<◌, ◌^◌, vec_len, vec_capacity, min, ◌-◌};
    ghost use Rattle.td_cdr.specs.Writing.{Draft};

    ghost Value = { Draft };

    ghost view = { λ w. record {
      bytes = w.bytes.items;
      order = w.order;
      room = min (vec_capacity w.bytes) (2 ^ 32 - 1);
    } };

    ghost invariant = { λ w. vec_len w.bytes < 2 ^ 32 };
}

impl Writer {
    /// A writer of no bytes, which takes no memory.
    pub fn new(alloc: Global, order: Order) -> Writer
        ensures bytes { result.bytes ≡ [] }
        ensures order { result.order ≡ order }
    {
        Writer {
            bytes: Vec::new(alloc),
            order,
        }
    }

    /// Makes room for this many bytes more.
    ///
    /// # Errors
    ///
    /// `Memory` when out of memory, or where the writer would come to 2^32 bytes; it is then unchanged.
    pub fn reserve(&mut self, bytes: usize) -> Result<(), Memory>
        ensures ok { OnOk result ((self.new.bytes ≡ self.old.bytes)
            × (self.new.order ≡ self.old.order)
            × (length self.old.bytes + bytes ≤ self.new.room) × (self.old.room ≤ self.new.room)) }
        ensures err { OnErr result ((self.new ≡ self.old)
            × (self.old.room < length self.old.bytes + bytes)) }
    {
        if bytes > (u32::MAX as usize) - self.bytes.len() {
            return Err(Memory);
        }
        self.bytes.reserve(bytes)?;
        Ok(())
    }

    /// How many bytes there are up to the next multiple of this size.
    #[inline(always)]
    fn gap(&self, size: usize) -> usize
        requires { 0 < size }
        ensures value { result ≡ gap size (length self.now.bytes) }
        ensures below { result < size }
    {
        (size - self.bytes.len() % size) % size
    }

    /// Puts so many zeros. There is room for them.
    fn put_zeros(&mut self, count: usize)
        requires few { count ≤ 8 }
        requires room { length self.old.bytes + count ≤ self.old.room }
        ensures { self.new ≡ record self.old { bytes = self.old.bytes ++ replicate count 0 } }
    {
        for _ in 0..count {
            self.bytes.push_reserved(0);
        }
    }

    /// Puts bytes. There is room for them.
    #[inline(always)]
    fn put(&mut self, v: &[u8])
        requires { length self.old.bytes + length v.now ≤ self.old.room }
        ensures bytes { self.new.bytes ≡ self.old.bytes ++ v.now }
        ensures order { self.new.order ≡ self.old.order }
        ensures room { self.old.room ≤ self.new.room }
    {
        let _ = self.bytes.extend_from_slice(v);
    }

    /// Puts an unsigned long, behind so many zeros. There is room for them.
    #[inline(always)]
    fn put_u32(&mut self, pad: usize, v: u32)
        requires padding { pad ≤ 8 }
        requires room { length self.old.bytes + (pad + 4) ≤ self.old.room }
        ensures bytes { self.new.bytes
            ≡ self.old.bytes ++ replicate pad 0 ++ bytes_of self.old.order 4 v }
        ensures order { self.new.order ≡ self.old.order }
        ensures room { self.old.room ≤ self.new.room }
    {
        let mut cell = [0u8; 4];
        match self.order {
            Order::Big => BigEndian::write_u32(&mut cell, v),
            Order::Little => LittleEndian::write_u32(&mut cell, v),
        }
        self.put_zeros(pad);
        self.put_four(cell);
    }

    /// Puts four bytes one by one, since `put` looks for room once more. There is room for them.
    #[inline(always)]
    fn put_four(&mut self, cell: [u8; 4])
        requires { length self.old.bytes + 4 ≤ self.old.room }
        ensures { self.new ≡ record self.old { bytes = self.old.bytes ++ cell } }
    {
        let [first, second, third, fourth] = cell;
        self.bytes.push_reserved(first);
        self.bytes.push_reserved(second);
        self.bytes.push_reserved(third);
        self.bytes.push_reserved(fourth);
    }

    /// One byte, which needs no padding.
    fn put_octet(&mut self, v: u8) -> Result<(), Memory>
        ensures { Adds (v ∷ []) self.old self.new result }
    {
        self.reserve(1)?;
        self.bytes.push_reserved(v);
        Ok(())
    }

    /// One byte.
    ///
    /// # Errors
    ///
    /// `Memory` for want of room; the writer is then unchanged.
    pub fn octet(&mut self, v: u8) -> Result<(), Memory>
        ensures { Adds (written_number 1 self.old.order (length self.old.bytes) v)
            self.old self.new result }
    {
        self.put_octet(v)
    }

    /// An unsigned short, behind its padding of zeros.
    ///
    /// # Errors
    ///
    /// `Memory` for want of room; the writer is then unchanged.
    pub fn u16(&mut self, v: u16) -> Result<(), Memory>
        ensures { Adds (written_number 2 self.old.order (length self.old.bytes) v)
            self.old self.new result }
    {
        let mut cell = [0u8; 2];
        match self.order {
            Order::Big => BigEndian::write_u16(&mut cell, v),
            Order::Little => LittleEndian::write_u16(&mut cell, v),
        }
        let pad = self.gap(2);
        self.reserve(pad + 2)?;
        self.put_zeros(pad);
        self.put(&cell);
        Ok(())
    }

    /// An unsigned long long, behind its padding of zeros.
    ///
    /// # Errors
    ///
    /// `Memory` for want of room; the writer is then unchanged.
    pub fn u64(&mut self, v: u64) -> Result<(), Memory>
        ensures { Adds (written_number 8 self.old.order (length self.old.bytes) v)
            self.old self.new result }
    {
        let mut cell = [0u8; 8];
        match self.order {
            Order::Big => BigEndian::write_u64(&mut cell, v),
            Order::Little => LittleEndian::write_u64(&mut cell, v),
        }
        let pad = self.gap(8);
        self.reserve(pad + 8)?;
        self.put_zeros(pad);
        self.put(&cell);
        Ok(())
    }

    /// An unsigned long, behind its padding of zeros.
    ///
    /// # Errors
    ///
    /// `Memory` for want of room; the writer is then unchanged.
    pub fn u32(&mut self, v: u32) -> Result<(), Memory>
        ensures { Adds (written_number 4 self.old.order (length self.old.bytes) v)
            self.old self.new result }
    {
        let pad = self.gap(4);
        self.reserve(pad + 4)?;
        self.put_u32(pad, v);
        Ok(())
    }

    /// A sequence of octets, behind their number.
    ///
    /// # Errors
    ///
    /// `Memory` for want of room; the writer is then unchanged.
    pub fn octets(&mut self, v: &[u8]) -> Result<(), Memory>
        ensures { Adds (written_octets self.old.order (length self.old.bytes) v.now)
            self.old self.new result }
    {
        let size = v.len();
        if size > (u32::MAX as usize) - self.bytes.len() {
            return Err(Memory);
        }
        let pad = self.gap(4);
        self.reserve(pad + 4 + size)?;
        self.put_u32(pad, size as u32);
        self.put(v);
        Ok(())
    }

    /// Bytes as they are, with no padding and no length before them.
    ///
    /// # Errors
    ///
    /// `Memory` for want of room; the writer is then unchanged.
    pub fn append(&mut self, v: &[u8]) -> Result<(), Memory>
        ensures { Adds v.now self.old self.new result }
    {
        self.reserve(v.len())?;
        self.put(v);
        Ok(())
    }

    /// Puts a number's four bytes, in the writer's order, in the place of the four bytes from `place` on.
    /// Takes no memory.
    pub fn set_u32(&mut self, place: u32, v: u32)
        requires { place + 4 ≤ length self.old.bytes }
        ensures { self.new ≡ record self.old {
          bytes = take place self.old.bytes ++ bytes_of self.old.order 4 v
              ++ drop (place + 4) self.old.bytes;
        } }
    {
        let place = place as usize;
        let cell = &mut self.bytes[place..place + 4];
        match self.order {
            Order::Big => BigEndian::write_u32(cell, v),
            Order::Little => LittleEndian::write_u32(cell, v),
        }
    }

    /// The bytes that were written.
    pub fn bytes(&self) -> &[u8]
        ensures { result.now ≡ self.now.bytes }
    {
        &self.bytes
    }

    /// How many bytes it holds. They fit its room, which is below 2^32.
    pub fn len(&self) -> usize
        ensures len { result ≡ length self.now.bytes }
        ensures within { (length self.now.bytes ≤ self.now.room) × (self.now.room < 2 ^ 32) }
    {
        self.bytes.len()
    }

    /// Keeps the first `len` bytes alone, and the room. Takes no memory.
    pub fn cut(&mut self, len: usize)
        requires { len ≤ length self.old.bytes }
        ensures { self.new ≡ record self.old { bytes = take len self.old.bytes } }
    {
        self.bytes.truncate(len);
    }

    /// Takes all bytes away, and keeps the room. Takes no memory.
    pub fn clear(&mut self)
        ensures { self.new ≡ record self.old { bytes = [] } }
    {
        self.bytes.clear();
    }

    /// Empties it for a message in this order. Takes no memory, and keeps the room.
    pub fn restart(&mut self, order: Order)
        ensures { self.new ≡ record { bytes = []; order = order; room = self.old.room } }
    {
        self.bytes.clear();
        self.order = order;
    }

    /// The order that `new`, `inside` or `restart` was handed.
    pub fn order(&self) -> Order
        ensures { result ≡ self.now.order }
    {
        self.order
    }

    /// An encapsulation of what `inner` holds: its bytes behind their number. They begin with the octet
    /// that tells their order, as those of a writer that `inside` made do.
    ///
    /// # Errors
    ///
    /// `Memory` for want of room; the writer is then unchanged.
    pub fn encapsulate(&mut self, inner: &Writer) -> Result<(), Memory>
        requires { BeginsWithOrder inner.now }
        ensures { Adds (written_octets self.old.order (length self.old.bytes) inner.now.bytes)
            self.old self.new result }
    {
        self.octets(inner.bytes())
    }

    /// A writer for the inside of an encapsulation in this order, which begins with the octet that tells it.
    ///
    /// # Errors
    ///
    /// `Memory` only when out of memory.
    pub fn inside(alloc: Global, order: Order) -> Result<Writer, Memory>
        ensures { IfOk result (λ w. (w.bytes ≡ flag order ∷ []) × (w.order ≡ order)) }
    {
        let mut writer = Writer::new(alloc, order);
        writer.put_octet(flag_of(order))?;
        Ok(writer)
    }

    /// A string: the text's bytes and a closing NUL, behind their number. The text has no NUL, else what is
    /// written is no string.
    ///
    /// # Errors
    ///
    /// `Memory` for want of room; the writer is then unchanged.
    pub fn string(&mut self, v: &[u8]) -> Result<(), Memory>
        ensures { Adds (written_octets self.old.order (length self.old.bytes) (v.now ++ 0 ∷ []))
            self.old self.new result }
    {
        let size = v.len();
        if size >= (u32::MAX as usize) - self.bytes.len() {
            return Err(Memory);
        }
        let pad = self.gap(4);
        self.reserve(pad + 4 + size + 1)?;
        self.put_u32(pad, size as u32 + 1);
        self.put(v);
        self.bytes.push_reserved(b'\0');
        Ok(())
    }
}

/// The octet that tells the order: 0 for big-endian, 1 for little-endian.
pub fn flag_of(order: Order) -> u8
    ensures { result ≡ flag order }
{
    match order {
        Order::Big => 0,
        Order::Little => 1,
    }
}
