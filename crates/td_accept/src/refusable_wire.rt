//! A wire that can be told to connect to nobody.

ghost use Rattle.std.specs.Prelude.{◌≡◌, ◌+◌, true, false};
ghost use Rattle.std.specs.Result.{IsErr};
ghost use Rattle.td_out.specs.Causes.{next_count, HasCause};
ghost use Rattle.td_wire.specs.Connections.{Connects};

use crate::client_wire::ClientWire;
use std::marker::Model;
use td_out::Failed;
use td_wire::Wire;

/// A wire over another one. Once it is told to refuse, it connects to no peer: that fails at once and is a fault, as
/// where no host can be reached, and the other wire learns nothing of it.
#[derive(Drop)]
pub struct RefusableWire<L> {
    wire: L,
    refuses: bool,
    /// The faults that the other wire didn't count.
    faults: u64,
}

impl<L> Model for RefusableWire<L> {
    ghost use Rattle.td_accept.specs.Listening.{Refusable};

    ghost Value = { Refusable L };

    ghost view = { λ w. record { wire = w.wire; refuses = w.refuses; refused = w.faults } };
}

impl<L> RefusableWire<L> {
    /// A wire that does what this one does. It refuses nothing yet.
    pub fn new(wire: L) -> RefusableWire<L>
        ensures { result ≡ record { wire = wire; refuses = false; refused = 0 } }
    {
        RefusableWire {
            wire,
            refuses: false,
            faults: 0,
        }
    }
}

impl<L: Wire> Wire for RefusableWire<L> {
    ghost content = { λ w. L.content w.wire };

    ghost faults = { λ w. L.faults w.wire + w.refused };

    ghost same = { λ a b. L.same a.wire b.wire };

    ghost same_self = { λ a. L.same_self a.wire };

    ghost same_on = { λ a b c p q. L.same_on a.wire b.wire c.wire p q };

    /// Where it refuses, the connection that stood stands on.
    fn connect(&mut self, host: &[u8], port: u16) -> Result<(), Failed>
        ensures same { L.same self.old.wire self.new.wire }
        ensures bytes { Connects host.now port (L.content self.old.wire)
            (L.content self.new.wire) result }
        ensures cause { HasCause (L.faults self.old.wire + self.old.refused)
            (L.faults self.new.wire + self.new.refused) result }
        ensures refuses { self.old.refuses ≡ true
            → IsErr result
            × (self.new ≡ record self.old { refused = next_count self.old.refused }) }
    {
        if self.refuses {
            self.faults = self.faults.saturating_add(1);
            return Err(Failed);
        }
        self.wire.connect(host, port)
    }

    fn read(&mut self, into: &mut [u8]) -> Result<usize, Failed> {
        self.wire.read(into)
    }

    fn write(&mut self, piece: &[u8]) -> Result<usize, Failed> {
        self.wire.write(piece)
    }

    fn finish(&mut self, whole: bool) {
        self.wire.finish(whole)
    }
}

impl<L: Wire> ClientWire for RefusableWire<L> {
    ghost refuses = { λ w. w.refuses ≡ true };

    fn refuse(&mut self) {
        self.refuses = true;
    }
}
