//! Where the replies of a session are written.

ghost use Rattle.std.specs.Prelude.{◌≡◌, ◌<◌, ◌≤◌, ◌^◌, false, [], length, IsTrue, IfOk, OnErr, OnOk};
ghost use Rattle.std.specs.Prelude.{if◌then◌else◌};
ghost use Rattle.td_giop.specs.Written.{seal_size};
ghost use Rattle.td_giop.specs.declared.header.TheConstants.{HEADER_SIZE, NEWEST_MINOR};
ghost use Rattle.td_ops.specs.Outcomes.{is_short};
ghost use Rattle.td_dispatch.specs.ReplyBytes.{BeginsReply, IsWritable, locate_reply, reply_for};

use crate::reply_to::ReplyTo;
use crate::writing::{is_short, write_location, write_reply, write_short};
use std::alloc::Global;
use std::marker::Model;
use std::mem;
use td_cdr::{Memory, Order, Writer};
use td_giop::{seal, start_reply};
use td_ops::Outcome;

/// How many bytes are reserved for a short reply. NO_MEMORY and the reply of each change that is accepted fit in them.
const RESERVED: usize = 512;

/// The reply status of a result.
const NO_EXCEPTION: u32 = 0;

/// Where a session writes the reply to the message in front: 512 bytes are reserved for short ones. Contracts see the
/// bytes of the reply.
#[derive(Drop)]
pub struct Replies {
    /// A short reply.
    short: Writer,
    /// Any other reply.
    long: Writer,
    /// Whether the reply to the message in front is the long one.
    is_long: bool,
}

impl Model for Replies {
    ghost use Rattle.std.specs.Prelude.{ℕ, ◌≤◌, List, if◌then◌else◌};

    ghost Value = { List ℕ };

    ghost view = { λ r. if r.is_long then r.long.bytes else r.short.bytes };

    ghost invariant = { λ r. 512 ≤ r.short.room };
}

impl Replies {
    /// A place for replies, which holds none.
    ///
    /// # Errors
    ///
    /// `Memory` only when out of memory.
    pub fn new(alloc: Global) -> Result<Replies, Memory>
        ensures { IfOk result (λ r. r ≡ []) }
    {
        let mut short = Writer::new(alloc, Order::Big);
        short.reserve(RESERVED)?;
        Ok(Replies {
            short,
            long: Writer::new(alloc, Order::Big),
            is_long: false,
        })
    }

    /// The bytes of the reply, fewer than 2^32; none where the message gets no reply.
    pub fn bytes(&self) -> &[u8]
        ensures bytes { result.now ≡ self.now }
        ensures short { length self.now < 2 ^ 32 }
    {
        if self.is_long {
            bytes_of(&self.long)
        } else {
            bytes_of(&self.short)
        }
    }

    /// Leaves no reply.
    pub fn clear(&mut self)
        ensures { self.new ≡ [] }
    {
        self.is_long = false;
        self.short.clear();
    }

    /// Leaves the LocateReply for a key, for which there is always room.
    pub fn locate(&mut self, order: Order, minor: u8, id: u32, live: bool)
        requires { minor ≤ NEWEST_MINOR }
        ensures { self.new ≡ locate_reply order minor id live }
    {
        self.is_long = false;
        write_location(&mut self.short, order, minor, id, live);
    }

    /// Leaves the Reply for a short outcome, for which there is always room; no bytes where none is expected.
    pub fn answer(&mut self, alloc: Global, to: ReplyTo, outcome: &Outcome)
        requires version { IsWritable to }
        requires short { IsTrue (is_short outcome.now) }
        ensures { self.new ≡ reply_for to outcome.now }
    {
        self.is_long = false;
        if to.answered {
            write_short(alloc, &mut self.short, to, outcome);
        } else {
            self.short.clear();
        }
    }

    /// Begins the Reply with a result: hands out the writer that holds what stands before its body. No reply stands
    /// here until `finish` or `give_up` takes it back.
    ///
    /// # Errors
    ///
    /// `Memory` only when out of memory.
    pub fn begin(&mut self, alloc: Global, to: ReplyTo) -> Result<Writer, Memory>
        requires { IsWritable to }
        ensures begun { IfOk result (λ w. BeginsReply to w) }
        ensures none { self.new ≡ [] }
    {
        self.is_long = false;
        self.short.clear();
        let mut writer = mem::replace(&mut self.long, Writer::new(alloc, to.order));
        writer.restart(to.order);
        match start_reply(&mut writer, to.minor, to.id, NO_EXCEPTION) {
            Ok(()) => Ok(writer),
            Err(memory) => {
                drop(writer);
                Err(memory)
            }
        }
    }

    /// Takes the writer back, with a body behind what it held, and leaves this Reply; no bytes where none is expected.
    pub fn finish(&mut self, to: ReplyTo, writer: Writer)
        requires { HEADER_SIZE ≤ length writer.bytes }
        ensures { self.new ≡ (if to.answered then seal_size writer.order writer.bytes else []) }
    {
        self.long = writer;
        self.is_long = to.answered;
        self.short.clear();
        if to.answered {
            seal(&mut self.long);
        }
    }

    /// Takes the writer back, and leaves no reply.
    pub fn give_up(&mut self, writer: Writer)
        ensures none { self.new ≡ [] }
    {
        self.is_long = false;
        self.short.clear();
        self.long = writer;
    }

    /// Leaves the Reply for an outcome; no bytes where none is expected.
    ///
    /// # Errors
    ///
    /// `Memory` only when out of memory; there is none for a short outcome.
    pub(crate) fn tell(
        &mut self,
        alloc: Global,
        to: ReplyTo,
        outcome: &Outcome,
    ) -> Result<(), Memory>
        requires { IsWritable to }
        ensures ok { OnOk result (self.new ≡ reply_for to outcome.now) }
        ensures err { OnErr result (is_short outcome.now ≡ false) }
    {
        if !to.answered {
            self.clear();
            return Ok(());
        }
        if is_short(outcome) {
            self.is_long = false;
            write_short(alloc, &mut self.short, to, outcome);
            return Ok(());
        }
        self.is_long = true;
        write_reply(alloc, &mut self.long, to, outcome)?;
        Ok(())
    }
}

/// The bytes that were written, which are fewer than 2^32, as the writer's length tells.
fn bytes_of(w: &Writer) -> &[u8]
    ensures bytes { result.now ≡ w.now.bytes }
    ensures short { length w.now.bytes < 2 ^ 32 }
{
    let _len = w.len();
    w.bytes()
}
