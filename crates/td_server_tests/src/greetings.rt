//! Sessions that share nothing: each sends a greeting.

ghost use Rattle.std.specs.Prelude.{◌≡◌, length, true, OnOk};
ghost use Rattle.std.specs.Io.KnownBytes.{WriteAppends};
ghost use Rattle.td_server.specs.Whole.{Whole};
ghost use Rattle.td_server_tests.specs.Greetings.{greetings, stand_of, content_of};

use crate::ended::EndedSessions;
use std::alloc::Global;
use std::sync::Wait;
use std::thread::Threads;
use td_accept::{Accept, ClientSink, ClientSource, ClientWire, Gate, Limited, Visitor};
use td_cdr::{Memory, Octets};
use td_out::{Failed, Words};
use td_server::{Pass, Service, serve_all};
use td_workers::Stop;

/// A session that begins.
#[derive(Drop)]
pub(crate) struct Greeter<'g> {
    greeting: &'g Octets,
}

/// A session that has ended.
#[derive(Drop)]
pub(crate) struct Greeted {}

impl<'g, S: ClientSource, K: ClientSink, L: ClientWire, W: Words> Pass<
    S,
    K,
    L,
    W,
    Greeted,
    Result<usize, Failed>,
> for Greeter<'g> {
    ghost same = { λ p q. Unit {0} };

    ghost serves = { λ p words before after q answer.
        WriteAppends before.written after.written answer p.greeting.now };

    fn serve(self, visitor: &mut Visitor<S, K, L, W>) -> (Greeted, Result<usize, Failed>) {
        let answer = visitor.sink.write(self.greeting.as_slice());
        (Greeted {}, answer)
    }
}

/// What all sessions are given, and where they go.
#[derive(Drop)]
pub(crate) struct Greetings<'e, 'g, V> {
    greeting: &'g Octets,
    ended: &'e mut EndedSessions<V, Result<usize, Failed>>,
}

impl<
    'e,
    'g,
    S: ClientSource + Drop,
    K: ClientSink + Drop,
    L: ClientWire + Drop,
    W: Words + Drop,
> Service<S, K, L, W, Visitor<S, K, L, W>, Greeter<'g>, Greeted, Result<usize, Failed>>
    for Greetings<'e, 'g, Visitor<S, K, L, W>> {
    ghost kind = { greetings };

    ghost outside = { λ c. c.written };

    ghost kept = { λ answer. answer };

    ghost gives = { λ p. p.greeting.now };

    ghost sees = { λ p. tt };

    ghost saw = { λ q. tt };

    ghost given = { λ a. a.greeting.now };

    ghost seen = { λ a. tt };

    ghost content = { λ a. content_of a.ended.now.sessions };

    ghost goes = { λ a b. (a.ended.ghost_name ≡ b.ended.ghost_name) × (b.greeting ≡ a.greeting) };

    ghost ready = { λ a. Unit {0} };

    ghost waits = { λ a p. Unit {0} };

    ghost begins = { λ a p b. Unit {0} };

    ghost ends = { λ a q b. Unit {0} };

    ghost use Rattle.std.proofs.Common.{refl, ap, ◌∙◌};
    ghost use Rattle.td_server_tests.specs.Greetings.{greeting_laws};

    ghost laws = { greeting_laws };

    ghost serves = { λ p words before after q answer h. h };

    ghost goes_itself = { λ a. (refl, refl) };

    ghost goes_on = { λ a b c p q. (p.0 ∙ q.0, q.1 ∙ p.1) };

    ghost goes_given = { λ a b p. ap (λ h. h.now) p.1 };

    fn begin(&mut self) -> Result<Greeter<'g>, Memory> {
        Ok(Greeter {
            greeting: self.greeting,
        })
    }

    fn end(
        &mut self,
        number: u64,
        visitor: Visitor<S, K, L, W>,
        limited: Option<Limited>,
        answer: Result<usize, Failed>,
        pass: Greeted,
    ) -> Result<(), Memory> {
        drop(pass);
        self.ended.sessions.push((number, visitor, limited, answer))
    }
}

/// Greets each visitor of a bound acceptor, in a session of its own.
///
/// # Errors
///
/// As those of `serve_all`.
pub fn serve_greetings<A: Accept, G: Gate, R: Threads + Wait>(
    rt: &R,
    alloc: Global,
    greeting: &Octets,
    seed: &Octets,
    accept: &mut A,
    gate: &G,
    ended: &mut EndedSessions<Visitor<A::S, A::K, A::L, A::W>, Result<usize, Failed>>,
) -> Result<(), Stop>
    requires bound { A.bound accept.old ≡ true }
    requires seed { length seed.now ≡ 32 }
    ensures whole { OnOk result (Whole {k = greetings} (λ v. A.K.written v.sink)
        (λ v. A.W.word_after v.words)
        (stand_of greeting.now seed.now (A.content accept.old) ended.old.sessions)
        (stand_of greeting.now seed.now (A.content accept.new) ended.new.sessions)) }
{
    let service = Greetings { greeting, ended };
    let (stop, back) = greet_all(rt, alloc, seed, accept, gate, service);
    let Greetings { ended, .. } = back;
    give_back(ended);
    stop
}

/// The same over the service.
fn greet_all<'e, 'g, A: Accept, G: Gate, R: Threads + Wait>(
    rt: &R,
    alloc: Global,
    seed: &Octets,
    accept: &mut A,
    gate: &G,
    service: Greetings<'e, 'g, Visitor<A::S, A::K, A::L, A::W>>,
) -> (
    Result<(), Stop>,
    Greetings<'e, 'g, Visitor<A::S, A::K, A::L, A::W>>,
)
    requires bound { A.bound accept.old ≡ true }
    requires seed { length seed.now ≡ 32 }
    ensures same_ended { result.1.ended.ghost_name ≡ service.entry.ended.ghost_name }
    ensures whole { OnOk result.0 (Whole {k = greetings} (λ v. A.K.written v.sink)
        (λ v. A.W.word_after v.words)
        (stand_of service.entry.greeting.now seed.now (A.content accept.old)
        service.entry.ended.now.sessions)
        (stand_of service.entry.greeting.now seed.now (A.content accept.new)
        result.1.ended.now.sessions)) }
{
    serve_all(rt, alloc, seed, accept, gate, service)
}

/// Ends a loan here, so that what was lent is known to be what it has become.
fn give_back<T>(_lent: &mut T)
    ensures { _lent.new ≡ _lent.old }
{}
