//! Where visitors come from.

ghost use Rattle.std.specs.Prelude.{◌≡◌, ℕ, Bool, true, Option, OnOk, OnErr};
ghost use Rattle.td_accept.specs.declared.visitor.Visitor.{Visitor};
ghost use Rattle.td_accept.specs.Doors.{Binds, Door, GivesVisitor};
ghost use Rattle.td_out.specs.Causes.{HasCause};

use crate::client_sink::ClientSink;
use crate::client_source::ClientSource;
use crate::client_wire::ClientWire;
use crate::visitor::Visitor;
use td_out::{Failed, Words};

/// Where visitors come from.
pub trait Accept {
    type S: ClientSource + Send + Drop;

    type K: ClientSink + Send + Drop;

    type L: ClientWire + Send + Drop;

    type W: Words + Send + Drop;

    /// The addresses to which it was bound, and the visitors that are left, where it tells.
    ghost content: { Self → Option (Door (Visitor Self.S Self.K Self.L Self.W)) };

    /// Whether it was bound to an address.
    ghost bound: { Self → Bool };

    /// How many faults there were. The count never falls, and stands still at 2^64 - 1.
    ghost faults: { Self → ℕ };

    /// It is the same acceptor still: of a borrow, that no other was put in its place.
    ghost same: { Self → Self → Type 0 };

    /// Binds it to this host and port, from which visitors come then.
    ///
    /// # Errors
    ///
    /// `Failed` only where the count of faults rose; it is then bound to what it was.
    fn bind(&mut self, host: &[u8], port: u16) -> Result<(), Failed>
        ensures same { same self.old self.new }
        ensures ok { OnOk result (bound self.new ≡ true) }
        ensures err { OnErr result (bound self.new ≡ bound self.old) }
        ensures content { Binds host.now port (content self.old) (content self.new) result }
        ensures cause { HasCause (faults self.old) (faults self.new) result };

    /// Waits for the next visitor. There is none where no more will come.
    ///
    /// # Errors
    ///
    /// `Failed` only where the count of faults rose; no visitor was then taken.
    fn next(&mut self) -> Result<Option<Visitor<Self::S, Self::K, Self::L, Self::W>>, Failed>
        requires { bound self.old ≡ true }
        ensures same { same self.old self.new }
        ensures bound { bound self.new ≡ true }
        ensures content { GivesVisitor (content self.old) (content self.new) result }
        ensures cause { HasCause (faults self.old) (faults self.new) result };

    ghost same_self: { (a : Self) → same a a };

    ghost same_on: { (a b c : Self) → same a b → same b c → same a c };
}
