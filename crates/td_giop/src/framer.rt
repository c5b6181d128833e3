//! Messages out of the pieces of a stream.

ghost use Rattle.std.specs.Prelude.{◌≡◌, ◌+◌, ◌<◌, ◌≤◌, ◌^◌, [], ◌++◌, length, take, drop, MatchResult, MatchOption};
ghost use Rattle.std.specs.Prelude.{MatchBool, OnOk, OnErr, IfOk, IfSome, SomeIff, vec_capacity};
ghost use Rattle.std.specs.Borrow.{sem};
ghost use Rattle.td_giop.specs.Stream.{first_at, without_first, IsInside, IsFrontOfStream};

use crate::fault::FrameFault;
use crate::header::{HEADER_SIZE, MINOR_PLACE, ORDER_PLACE, TYPE_PLACE, judge, order_of};
use crate::raw::Raw;
use circular_buffer::HeapCircularBuffer;
use std::alloc::Global;
use std::marker::Model;
use td_cdr::Memory;

/// What has come of a stream and was not taken away: fed in pieces, lent message by message.
///
/// Each byte is moved at most twice, into the ring and with its message into the block that is lent,
/// beside what the doubling of their room moves.
#[derive(Drop)]
pub struct Framer {
    /// The place of the first byte that was not taken away.
    start: u64,
    /// The most bytes that may follow a header.
    limit: u32,
    /// The whole message in front, or nothing.
    message: Vec<u8>,
    /// What came after it.
    ring: HeapCircularBuffer<u8>,
}

impl Model for Framer {
    ghost use Rattle.std.specs.Prelude.{◌++◌, ◌+◌, ◌<◌, ◌^◌, length};
    ghost use Rattle.td_giop.specs.Stream.{Stream, IsFrontOfStream};

    ghost Value = { Stream };

    ghost view = { λ f. record {
      start = f.start;
      rest = f.message.items ++ f.ring.items;
      limit = f.limit;
    } };

    ghost invariant = { λ f. (f.start + length (f.message.items ++ f.ring.items) < 2 ^ 64)
        × IsFrontOfStream f.limit f.message f.ring.items };
}

impl Framer {
    ghost use Rattle.td_giop.specs.FramerLends.{KeepsFramer, IsRaw};

    /// A framer at the beginning of a stream. `limit` is the most bytes that may follow a header.
    ///
    /// # Errors
    ///
    /// `Memory` only when out of memory.
    pub fn new(alloc: Global, limit: u32) -> Result<Framer, Memory>
        ensures { IfOk result (λ f. f ≡ record { start = 0; rest = []; limit = limit }) }
    {
        Ok(Framer {
            start: 0,
            limit,
            message: Vec::new(alloc),
            ring: HeapCircularBuffer::with_capacity(alloc, 0)?,
        })
    }

    /// Adds the stream's next bytes. All pieces together have fewer than 2^64 bytes.
    ///
    /// # Errors
    ///
    /// `Memory` only when out of memory; the framer is then unchanged.
    pub fn feed(&mut self, piece: &[u8]) -> Result<(), Memory>
        requires { self.old.start + (length self.old.rest + length piece.now) < 2 ^ 64 }
        ensures ok { OnOk result (self.new
            ≡ record self.old { rest = self.old.rest ++ piece.now }) }
        ensures err { OnErr result (self.new ≡ self.old) }
    {
        let wanted = self.ring.len() + piece.len();
        self.message.reserve(wanted)?;
        make_room(&mut self.ring, wanted)?;
        let _count = self.ring.fill_from_slice(piece);
        Ok(())
    }

    /// The first whole message, lent, or none where no message is whole. The framer is unchanged.
    ///
    /// # Errors
    ///
    /// The fault of the header in front, each time again.
    pub fn next_message(&mut self) -> Result<Option<Raw<'_>>, FrameFault>
        ensures* stays { sem 𝓛 (KeepsFramer self.entry) }
        ensures found { MatchResult result
            (λ o. MatchOption o (first_at self.old.limit self.old.rest ≡ Ok None)
            (λ m. IsRaw self.old m)) (λ e. first_at self.old.limit self.old.rest ≡ Err e) }
    {
        if !complete_message(&mut self.ring, &mut self.message, self.limit)? {
            return Ok(None);
        }
        Ok(Some(Raw {
            start: self.start,
            kind: self.message[TYPE_PLACE],
            order: order_of(self.message[ORDER_PLACE]),
            minor: self.message[MINOR_PLACE],
            bytes: self.message.as_slice(),
        }))
    }

    /// Takes the first whole message away. Where none is whole, nothing changes. So many bytes have
    /// been fed as before.
    pub fn drop_message(&mut self)
        ensures end { self.new.start + length self.new.rest
            ≡ self.old.start + length self.old.rest }
        ensures dropped { self.new ≡ without_first self.old
            (first_at self.old.limit self.old.rest) }
    {
        let front = self.message.len();
        if front > 0 {
            self.message.clear();
            self.start += front as u64;
            return;
        }
        if let Ok(Some(size)) = first(&self.ring, self.limit) {
            let left = self.ring.len() - size;
            self.ring.truncate_front(left);
            self.start += size as u64;
        }
    }

    /// The place in the stream of the first byte that was not taken away, in bytes from 0.
    pub fn place(&self) -> u64
        ensures { result ≡ self.now.start }
    {
        self.start
    }

    /// The place of the first byte of a message that began and isn't whole.
    pub fn ended_inside(&self) -> Option<u64>
        ensures { SomeIff result (IsInside self.now) self.now.start }
    {
        if !self.message.is_empty() || self.ring.is_empty() {
            return None;
        }
        match first(&self.ring, self.limit) {
            Ok(None) => Some(self.start),
            _ => None,
        }
    }
}

/// Room in the ring for so many bytes in all. The room doubles, so that many small pieces cost linear
/// time.
fn make_room(ring: &mut HeapCircularBuffer<u8>, wanted: usize) -> Result<(), Memory>
    requires { length ring.old.items ≤ wanted }
    ensures items { ring.new.items ≡ ring.old.items }
    ensures room { OnOk result (wanted ≤ ring.new.capacity) }
{
    if ring.capacity() < wanted {
        ring.resize(wanted.saturating_mul(2))?;
    }
    Ok(())
}

/// Whether a message is whole. If so it stands in `message` afterwards.
fn complete_message(
    ring: &mut HeapCircularBuffer<u8>,
    message: &mut Vec<u8>,
    limit: u32,
) -> Result<bool, FrameFault>
    requires { IsFrontOfStream limit message.old ring.old.items }
    ensures same { message.new.items ++ ring.new.items ≡ message.old.items ++ ring.old.items }
    ensures front { IsFrontOfStream limit message.new ring.new.items }
    ensures found { MatchResult result
        (λ b. MatchBool b (first_at limit (message.old.items ++ ring.old.items)
        ≡ Ok (Some (length message.new.items)))
        (first_at limit (message.old.items ++ ring.old.items) ≡ Ok None))
        (λ e. first_at limit (message.old.items ++ ring.old.items) ≡ Err e) }
{
    if !message.is_empty() {
        return Ok(true);
    }
    let Some(size) = first(ring, limit)? else {
        return Ok(false);
    };
    pull(ring, message, size);
    Ok(true)
}

/// The size of the whole message in front.
#[tactic(auto, unfolding(crate::specs::Stream::first_at))]
fn first(ring: &HeapCircularBuffer<u8>, limit: u32) -> Result<Option<usize>, FrameFault>
    ensures found { result ≡ first_at limit ring.now.items }
    ensures within { IfOk result (λ o. IfSome o (λ n. n ≤ length ring.now.items)) }
{
    let Some(header) = judge(ring, limit)? else {
        return Ok(None);
    };
    let size = HEADER_SIZE + header.size as usize;
    Ok(if ring.len() < size { None } else { Some(size) })
}

/// Moves the first bytes of the ring into the message.
fn pull(ring: &mut HeapCircularBuffer<u8>, message: &mut Vec<u8>, size: usize)
    requires none { message.old.items ≡ [] }
    requires held { size ≤ length ring.old.items }
    requires room { size ≤ vec_capacity message.old }
    ensures message { message.new.items ≡ take size ring.old.items }
    ensures ring { ring.new.items ≡ drop size ring.old.items }
    ensures capacity { vec_capacity message.old ≤ vec_capacity message.new }
{
    if message.resize(size, 0).is_ok() {
        let _count = ring.read_into(message.as_mut_slice());
    }
}
