//! What the sessions of a server share.

ghost use Rattle.std.specs.Prelude.{◌≡◌, ℕ, Option, is_some, option_map, IfOk, OnErr, OnOk};
ghost use Rattle.td_server.specs.Kinds.{ServerKind, Laws};
ghost use Rattle.td_server.specs.Sessions.{Connection, HandedSessions, with_session};

use crate::pass::Pass;
use td_accept::{ClientSink, ClientSource, ClientWire, Limited};
use td_cdr::Memory;
use td_out::Words;

/// What the sessions of a server share: it has a pass for each session that begins, takes in what a session has seen
/// and done, and hands the session on with its visitor, a `V`.
pub trait Service<
    S: ClientSource,
    K: ClientSink,
    L: ClientWire,
    W: Words,
    V,
    P: Pass<S, K, L, W, Q, E>,
    Q,
    E,
> {
    /// What is seen of what they share, and what it is to serve a session.
    ghost kind: { ServerKind };

    /// What is told of a connection.
    ghost outside: { Connection → kind.Outside };

    /// What is told of what is kept of a session.
    ghost kept: { E → kind.Kept };

    /// What a session is given.
    ghost gives: { P → kind.Given };

    /// What a session has seen when it begins.
    ghost sees: { P → kind.World };

    /// What it has seen when it has ended.
    ghost saw: { Q → kind.World };

    /// What each session is given.
    ghost given: { Self → kind.Given };

    /// What is seen by the sessions that have ended.
    ghost seen: { Self → kind.World };

    /// The sessions that were handed on, where it tells.
    ghost content: { Self → Option (HandedSessions kind V) };

    /// The second may be what the first has become.
    ghost goes: { Self → Self → Type 0 };

    /// It is in order.
    ghost ready: { Self → Type 0 };

    /// The pass is from here, and its session goes on.
    ghost waits: { Self → P → Type 0 };

    /// What it is to give a pass, beside what is seen.
    ghost begins: { Self → P → Self → Type 0 };

    /// What it is to take one back, beside what is seen.
    ghost ends: { Self → Q → Self → Type 0 };

    /// A session begins: its pass has seen what was seen by the sessions that have ended, and nothing of its own.
    ///
    /// # Errors
    ///
    /// `Memory` only when out of memory.
    fn begin(&mut self) -> Result<P, Memory>
        requires { ready self.old }
        ensures goes { goes self.old self.new }
        ensures content { content self.new ≡ content self.old }
        ensures ready { OnOk result (ready self.new) }
        ensures stays { OnOk result ((p : P) → waits self.old p → waits self.new p) }
        ensures waits { IfOk result (λ p. waits self.new p) }
        ensures seen { OnOk result (seen self.new ≡ seen self.old) }
        ensures begins { IfOk result (λ p. begins self.old p self.new) }
        ensures gives { IfOk result (λ p. gives p ≡ given self.old) }
        ensures sees { IfOk result (λ p. sees p ≡ kind.bare (seen self.old)) };

    /// The session of this number has ended: what it has seen and done is taken in, and it is handed on with its
    /// visitor, that this one was limited before, where it was, and what was kept.
    ///
    /// # Errors
    ///
    /// `Memory` only when out of memory; the session is then dropped.
    fn end(
        &mut self,
        number: u64,
        visitor: V,
        limited: Option<Limited>,
        ending: E,
        pass: Q,
    ) -> Result<(), Memory>
        requires ready { ready self.old }
        requires came { (p : P) × waits self.old p × P.same p pass }
        ensures goes { goes self.old self.new }
        ensures ready { OnOk result (ready self.new) }
        ensures stays { OnOk result ((p : P) → waits self.old p → waits self.new p) }
        ensures ends { OnOk result (ends self.old pass self.new) }
        ensures joins { OnOk result (kind.Joins (seen self.old) (saw pass) (seen self.new)) }
        ensures handed { OnOk result (content self.new ≡ option_map (with_session {k = kind}
            (record {
              number = number;
              visitor = visitor;
              limited = is_some limited;
              kept = kept ending;
            })) (content self.old)) }
        ensures unknown_content { OnErr result (content self.new ≡ content self.old) };

    ghost laws: { Laws kind };

    ghost serves: { (p : P) (words : ℕ → ℕ) (before after : Connection) (q : Q) (ending : E)
        → P.serves p words before after q ending
        → kind.Serves (gives p) (sees p) words (outside before) (outside after) (kept ending)
        (saw q) };

    ghost goes_itself: { (a : Self) → goes a a };

    ghost goes_on: { (a b c : Self) → goes a b → goes b c → goes a c };

    ghost goes_given: { (a b : Self) → goes a b → given b ≡ given a };
}
