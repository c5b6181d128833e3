//! The wire over which a client's session calls objects outside.

ghost use Rattle.std.specs.Prelude.{◌≡◌};

use td_wire::{MemWire, Wire};

/// The wire over which a client's session calls objects outside, and which the server can have call none.
pub trait ClientWire: Wire {
    /// It calls none.
    ghost refuses: { Self → Type 0 };

    /// From now on it connects to no peer: that is a fault at once. It changes nothing that the wire tells, and is no
    /// fault itself.
    fn refuse(&mut self)
        ensures refuses { refuses self.new }
        ensures same { Self.same self.old self.new }
        ensures content { Self.content self.new ≡ Self.content self.old }
        ensures faults { Self.faults self.new ≡ Self.faults self.old };
}

/// Its peers lie in memory, so it waits for none.
impl ClientWire for MemWire {
    ghost refuses = { λ _. Unit {0} };

    fn refuse(&mut self) {}
}
