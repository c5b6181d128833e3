//! Connections to peers.

ghost use Rattle.std.specs.Prelude.{◌≡◌, ℕ, Option, option_map};
ghost use Rattle.td_out.specs.Causes.{HasCause, TakesPiece};
ghost use Rattle.td_wire.specs.Connections.{Traffic, Connects, WritesTraffic, ReadsTraffic, end_connection};

use td_out::Failed;

/// A wire, which connects to one peer at a time.
pub trait Wire {
    /// The connections that were made and what those to come will give, where the wire tells.
    ghost content: { Self → Option Traffic };

    /// How many faults there were. The count never falls, and stands still at 2^64 - 1.
    ghost faults: { Self → ℕ };

    /// It is the same wire still: of a borrow, that no other was put in its place.
    ghost same: { Self → Self → Type 0 };

    /// Ends the connection that stands, and makes one to this host and port.
    ///
    /// # Errors
    ///
    /// `Failed` only where the count of faults rose. The connection that stood may have ended then.
    fn connect(&mut self, host: &[u8], port: u16) -> Result<(), Failed>
        ensures same { same self.old self.new }
        ensures bytes { Connects host.now port (content self.old) (content self.new) result }
        ensures cause { HasCause (faults self.old) (faults self.new) result };

    /// Moves bytes from the front of what the connection gives into the front of `into`, and answers how many.
    /// None are moved only where `into` is empty or the connection gives no more.
    ///
    /// # Errors
    ///
    /// `Failed` only where the count of faults rose; no byte was then moved.
    fn read(&mut self, into: &mut [u8]) -> Result<usize, Failed>
        ensures same { same self.old self.new }
        ensures bytes { ReadsTraffic into.new (content self.old) (content self.new) result }
        ensures cause { HasCause (faults self.old) (faults self.new) result };

    /// Writes the first bytes of the piece over the connection, and answers how many: at least one of a piece that
    /// isn't empty. They are handed on at once; a wire holds nothing back.
    ///
    /// # Errors
    ///
    /// `Failed` only where the count of faults rose; no byte was then written, as far as the wire tells.
    fn write(&mut self, piece: &[u8]) -> Result<usize, Failed>
        ensures same { same self.old self.new }
        ensures some { TakesPiece result piece.now }
        ensures bytes { WritesTraffic piece.now (content self.old) (content self.new) result }
        ensures cause { HasCause (faults self.old) (faults self.new) result };

    /// Says that the call is done: no connection stands afterwards, whether one stood before or not. It takes no
    /// memory and never fails.
    ///
    /// `whole` says that nothing is owed over the connection: each request was answered, the last reply was read to
    /// its last byte, and nothing came behind it. A wire over TCP may then keep the connection for a later call of the
    /// same peer; where `whole` is false, it ends. A wire in memory ends it in any case.
    fn finish(&mut self, whole: bool)
        ensures same { same self.old self.new }
        ensures bytes { content self.new ≡ option_map end_connection (content self.old) }
        ensures faults { faults self.new ≡ faults self.old };

    ghost same_self: { (a : Self) → same a a };

    ghost same_on: { (a b c : Self) → same a b → same b c → same a c };
}

impl<L: Wire> Wire for &mut L {
    ghost content = { λ s. L.content s.now };

    ghost faults = { λ s. L.faults s.now };

    ghost same = { λ a b. a.ghost_name ≡ b.ghost_name };

    ghost use Rattle.std.proofs.Common.{◌∙◌, refl};

    ghost same_self = { λ a. refl };

    ghost same_on = { λ a b c p q. p ∙ q };

    fn connect(&mut self, host: &[u8], port: u16) -> Result<(), Failed> {
        (**self).connect(host, port)
    }

    fn read(&mut self, into: &mut [u8]) -> Result<usize, Failed> {
        (**self).read(into)
    }

    fn write(&mut self, piece: &[u8]) -> Result<usize, Failed> {
        (**self).write(piece)
    }

    fn finish(&mut self, whole: bool) {
        (**self).finish(whole)
    }
}
