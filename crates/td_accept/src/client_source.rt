//! Where the requests of a client come from.

ghost use Rattle.std.specs.Prelude.{◌≡◌};

use td_out::{MemSource, Source};

/// Where the requests of a client come from, over a connection whose session the server can limit.
pub trait ClientSource: Source {
    /// It was limited.
    ghost limited: { Self → Type 0 };

    /// From now on, bytes that don't come soon are a fault. It changes nothing that the source tells, and is no fault.
    fn limit(&mut self)
        ensures limited { limited self.new }
        ensures same { Self.same self.old self.new }
        ensures left { Self.left self.new ≡ Self.left self.old }
        ensures faults { Self.faults self.new ≡ Self.faults self.old };
}

/// Its bytes are there, so it waits for none.
impl ClientSource for MemSource {
    ghost limited = { λ _. Unit {0} };

    fn limit(&mut self) {}
}
