//! Replies that are held, and written with one write.

ghost use Rattle.std.specs.Prelude.{◌≡◌, [], false};
ghost use Rattle.td_stream.specs.Outbound.{outbound, PutsReply, SendsAll};
ghost use Rattle.td_stream.specs.OutboundLaws.{puts-none, puts-then};

use crate::held::SendsHeld;
use std::alloc::Global;
use td_out::{Sink, write_all};

/// How many bytes are held at most: 64 KiB.
const BOUND: usize = 65_536;

/// Replies on their way to a sink.
#[derive(Drop)]
pub(crate) struct Outbox<'k, K> {
    pub(crate) sink: &'k mut K,
    /// Replies that aren't written yet, one after the other.
    pub(crate) held: Vec<u8>,
    /// Whether a send has failed. None is made then.
    pub(crate) failed: bool,
}

impl<'k, K: Sink> Outbox<'k, K> {
    ghost use Rattle.std.specs.Prelude.{◌≡◌, ◌++◌, [], false, if◌then◌else◌};
    ghost use Rattle.td_stream.specs.Pieces.{WritesFront};
    ghost use Rattle.td_stream.specs.Outbound.{outbound, PutsReply, SendsAll};

    /// Nothing is held.
    pub(crate) fn new(alloc: Global, sink: &'k mut K) -> Outbox<'k, K>
        ensures same { result.sink.ghost_name ≡ sink.entry.ghost_name }
        ensures sink { result.sink.now ≡ sink.old }
        ensures held { result.held.items ≡ [] }
        ensures failed { result.failed ≡ false }
    {
        Outbox {
            sink,
            held: Vec::new(alloc),
            failed: false,
        }
    }

    /// Holds a reply behind the others. Where it has no room beside them, or there is no memory for it, they
    /// are sent, and it is written behind them.
    pub(crate) fn put(&mut self, reply: &[u8])
        ensures same { self.new.sink.ghost_name ≡ self.old.sink.ghost_name }
        ensures puts { PutsReply reply.now
            (outbound (K.written self.old.sink.now) (K.faults self.old.sink.now) self.old.held.items
            self.old.failed)
            (outbound (K.written self.new.sink.now) (K.faults self.new.sink.now) self.new.held.items
            self.new.failed) }
    {
        if self.hold(reply) {
            return;
        }
        self.send();
        self.write_on(reply);
    }

    /// Holds a reply, where there are room and memory, and answers whether it does so.
    fn hold(&mut self, reply: &[u8]) -> bool
        ensures same { self.new.sink ≡ self.old.sink }
        ensures failed { self.new.failed ≡ self.old.failed }
        ensures held { self.new.held.items
            ≡ (if result then self.old.held.items ++ reply.now else self.old.held.items) }
    {
        if self.held.len().saturating_add(reply.len()) > BOUND {
            return false;
        }
        self.held.extend_from_slice(reply).is_ok()
    }

    /// Writes a reply where nothing is held.
    fn write_on(&mut self, reply: &[u8])
        requires empty { self.old.failed ≡ false → self.old.held.items ≡ [] }
        ensures same { self.new.sink.ghost_name ≡ self.old.sink.ghost_name }
        ensures puts { PutsReply reply.now
            (outbound (K.written self.old.sink.now) (K.faults self.old.sink.now) self.old.held.items
            self.old.failed)
            (outbound (K.written self.new.sink.now) (K.faults self.new.sink.now) self.new.held.items
            self.new.failed) }
    {
        if self.failed {
            return;
        }
        self.failed = write_all(self.sink, reply).is_err();
    }

    /// Writes an error where nothing is held, as far as the sink takes it.
    pub(crate) fn write_error(&mut self, error: &[u8])
        ensures same { self.new.sink.ghost_name ≡ self.old.sink.ghost_name }
        ensures written { WritesFront error.now (K.written self.old.sink.now)
            (K.written self.new.sink.now) (K.faults self.old.sink.now)
            (K.faults self.new.sink.now) }
    {
        self.failed = write_all(self.sink, error).is_err();
    }

    /// Whether a send has failed.
    pub(crate) fn has_failed(&self) -> bool
        ensures { result ≡ self.now.failed }
    {
        self.failed
    }

    /// Sends what is held with one write, unless a send has failed. A sink that takes less is given the rest.
    pub(crate) fn send(&mut self)
        ensures same { self.new.sink.ghost_name ≡ self.old.sink.ghost_name }
        ensures sends { SendsAll
            (outbound (K.written self.old.sink.now) (K.faults self.old.sink.now) self.old.held.items
            self.old.failed)
            (outbound (K.written self.new.sink.now) (K.faults self.new.sink.now) self.new.held.items
            self.new.failed) }
    {
        if self.failed {
            return;
        }
        self.failed = write_all(self.sink, &self.held).is_err();
        self.held.clear();
    }
}

impl<'k, K: Sink> SendsHeld for Outbox<'k, K> {
    ghost reaches = { λ a b. (a.sink.ghost_name ≡ b.sink.ghost_name) × PutsReply []
        (outbound (K.written a.sink.now) (K.faults a.sink.now) a.held.items
        a.failed)
        (outbound (K.written b.sink.now) (K.faults b.sink.now) b.held.items
        b.failed) };

    ghost use Rattle.std.proofs.Common.{◌∙◌, refl};

    ghost sent = { λ a. a.failed ≡ false → a.held.items ≡ [] };

    ghost reaches_itself = { λ a. (
      refl,
      puts-none
          (outbound (K.written a.sink.now) (K.faults a.sink.now) a.held.items
          a.failed),
    ) };

    ghost reaches_on = { λ a b c p q. (
      p.0 ∙ q.0,
      puts-then [] []
          (outbound (K.written a.sink.now) (K.faults a.sink.now) a.held.items
          a.failed)
          (outbound (K.written b.sink.now) (K.faults b.sink.now) b.held.items
          b.failed)
          (outbound (K.written c.sink.now) (K.faults c.sink.now) c.held.items
          c.failed) p.1 q.1,
    ) };

    fn send_held(&mut self) {
        self.send();
    }
}

/// Ends a loan here, so that what was lent is known to be what it has become.
pub(crate) fn give_back<T>(_lent: &mut T)
    ensures { _lent.new ≡ _lent.old }
{}
