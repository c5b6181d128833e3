//! What one session is served through.

ghost use Rattle.std.specs.Prelude.{ℕ};
ghost use Rattle.td_server.specs.Sessions.{Connection, connection};

use td_accept::{ClientSink, ClientSource, ClientWire, Visitor};
use td_out::Words;

/// What one session is served through: what it has seen of what all sessions share, and what it needs beside it. `Q` is
/// what is left of it when the session has ended, and `E` what is kept of the session.
pub trait Pass<S: ClientSource, K: ClientSink, L: ClientWire, W: Words, Q, E> {
    /// The second is left of the first.
    ghost same: { Self → Q → Type 0 };

    /// A session was served: its random words, what its connection told before and afterwards, what is left of the
    /// pass, and what is kept.
    ghost serves: { Self → (ℕ → ℕ) → Connection → Connection → Q → E → Type 0 };

    /// Serves a visitor until the session ends. Its random words were seeded before, and its connection is closed
    /// afterwards.
    fn serve(self, visitor: &mut Visitor<S, K, L, W>) -> (Q, E)
        ensures same { same self result.0 }
        ensures serves { serves self (W.word visitor.old.words)
            (connection (S.left visitor.old.source) (S.faults visitor.old.source)
            (K.written visitor.old.sink) (K.faults visitor.old.sink))
            (connection (S.left visitor.new.source) (S.faults visitor.new.source)
            (K.written visitor.new.sink) (K.faults visitor.new.sink)) result.0 result.1 };
}
