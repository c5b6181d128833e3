//! Where the replies to a client go.

ghost use Rattle.std.specs.Prelude.{◌≡◌};

use td_out::{MemSink, Sink};

/// Where the replies to a client go, over a connection that the server can close and whose session it can limit.
pub trait ClientSink: Sink {
    /// Its connection was closed, or it has none.
    ghost closed: { Self → Type 0 };

    /// It was limited.
    ghost limited: { Self → Type 0 };

    /// Closes the connection, for reading and for writing. What was written before arrives, as far as the client takes
    /// it. It changes nothing that the sink tells, and is no fault.
    fn close(&mut self)
        ensures closed { closed self.new }
        ensures same { Self.same self.old self.new }
        ensures written { Self.written self.new ≡ Self.written self.old }
        ensures faults { Self.faults self.new ≡ Self.faults self.old };

    /// From now on, a client that doesn't take soon what is written is a fault, and a close waits for less. It changes
    /// nothing that the sink tells, and is no fault itself.
    fn limit(&mut self)
        ensures limited { limited self.new }
        ensures same { Self.same self.old self.new }
        ensures written { Self.written self.new ≡ Self.written self.old }
        ensures faults { Self.faults self.new ≡ Self.faults self.old };
}

/// It has no connection, and waits for nobody.
impl ClientSink for MemSink {
    ghost closed = { λ _. Unit {0} };

    ghost limited = { λ _. Unit {0} };

    fn close(&mut self) {}

    fn limit(&mut self) {}
}
