//! One session, which a worker serves, or the thread that takes the visitors in.

ghost use Rattle.std.specs.Prelude.{◌≡◌, is_some, length};
ghost use Rattle.td_server.specs.Sessions.{connection};

use crate::pass::Pass;
use td_accept::{ClientSink, ClientSource, ClientWire, Gate, Limited, Visitor};
use td_cdr::Octets;
use td_out::Words;
use td_workers::Job;

/// A session that begins.
#[derive(Drop)]
pub(crate) struct Session<'g, S, K, L, W, P, G> {
    pub(crate) gate: &'g G,
    pub(crate) seed: &'g Octets,
    pub(crate) number: u64,
    pub(crate) visitor: Visitor<S, K, L, W>,
    pub(crate) pass: P,
    ghost seeded: { length seed.now ≡ 32 },
}

/// A session that has ended.
#[derive(Drop)]
pub(crate) struct Served<S, K, L, W, E, Q> {
    pub(crate) visitor: Visitor<S, K, L, W>,
    /// That its visitor was limited before, where it was.
    pub(crate) limited: Option<Limited>,
    pub(crate) kept: E,
    pub(crate) pass: Q,
}

impl<
    'g,
    S: ClientSource,
    K: ClientSink,
    L: ClientWire,
    W: Words,
    Q,
    E,
    P: Pass<S, K, L, W, Q, E>,
    G: Gate,
> Job<Served<S, K, L, W, E, Q>> for Session<'g, S, K, L, W, P, G> {
    ghost does = { λ s e. P.same s.pass e.pass
        × P.serves s.pass (W.word_after s.visitor.words
        (record { key = s.seed.now; stream = s.number }))
        (connection (S.left s.visitor.source) (S.faults s.visitor.source) (K.written s.visitor.sink)
        (K.faults s.visitor.sink))
        (connection (S.left e.visitor.source) (S.faults e.visitor.source) (K.written e.visitor.sink)
        (K.faults e.visitor.sink)) e.pass e.kept };

    ghost here = { λ e. is_some e.limited };

    fn work(self) -> Served<S, K, L, W, E, Q> {
        let Session {
            gate,
            seed,
            number,
            mut visitor,
            pass,
        } = self;
        gate.enter(number);
        let (pass, kept) = serve_visitor(seed, number, pass, &mut visitor);
        gate.leave(number);
        Served {
            visitor,
            limited: None,
            kept,
            pass,
        }
    }

    /// Its visitor is limited before.
    fn work_here(self) -> Served<S, K, L, W, E, Q> {
        let Session {
            gate,
            seed,
            number,
            mut visitor,
            pass,
        } = self;
        let limited = visitor.limit();
        gate.enter(number);
        let (pass, kept) = serve_visitor(seed, number, pass, &mut visitor);
        gate.leave(number);
        Served {
            visitor,
            limited: Some(limited),
            kept,
            pass,
        }
    }
}

/// Serves a visitor's session through this pass, and closes its connection. Its words are those that come after a
/// seeding with the seed and its number.
fn serve_visitor<
    S: ClientSource,
    K: ClientSink,
    L: ClientWire,
    W: Words,
    Q,
    E,
    P: Pass<S, K, L, W, Q, E>,
>(seed: &Octets, number: u64, pass: P, visitor: &mut Visitor<S, K, L, W>) -> (Q, E)
    requires seed { length seed.now ≡ 32 }
    ensures same { P.same pass result.0 }
    ensures closed { K.closed visitor.new.sink }
    ensures serves { P.serves pass
        (W.word_after visitor.old.words (record { key = seed.now; stream = number }))
        (connection (S.left visitor.old.source) (S.faults visitor.old.source)
        (K.written visitor.old.sink) (K.faults visitor.old.sink))
        (connection (S.left visitor.new.source) (S.faults visitor.new.source)
        (K.written visitor.new.sink) (K.faults visitor.new.sink)) result.0 result.1 }
{
    visitor.words.seed(seed.as_slice(), number);
    let served = pass.serve(visitor);
    visitor.sink.close();
    served
}
