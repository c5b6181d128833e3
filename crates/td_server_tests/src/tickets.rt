//! Sessions that share a roll of tickets: each draws one.

ghost use Rattle.std.specs.Prelude.{◌≡◌, ◌≤◌, ℕ, [], ◌∷◌, ◌++◌, length, true, OnOk};
ghost use Rattle.td_cdr.specs.Marks.{In};
ghost use Rattle.td_server.specs.Whole.{Whole};
ghost use Rattle.td_server_tests.specs.Tickets.{Draws, seen_of, stand_of, tickets, content_of};

use crate::ended::EndedSessions;
use std::alloc::Global;
use std::sync::{Mutex, Wait};
use std::thread::Threads;
use td_accept::{Accept, ClientSink, ClientSource, ClientWire, Gate, Limited, Visitor};
use td_cdr::{Memory, Octets};
use td_out::Words;
use td_server::{Pass, Service, serve_all};
use td_workers::Stop;

/// What all sessions share: the ticket that is drawn next.
#[derive(Drop)]
pub struct Roll {
    pub next: Mutex<u64>,
}

/// A session that begins: it has seen this ticket, and none higher.
#[derive(Drop)]
pub(crate) struct Holder<'g, R> {
    rt: &'g R,
    roll: &'g Roll,
    highest: u64,
}

/// A session that has ended, and the ticket that it drew.
#[derive(Drop)]
pub(crate) struct Drawn {
    highest: u64,
    ticket: u64,
}

impl<'g, S: ClientSource, K: ClientSink, L: ClientWire, W: Words, R: Wait> Pass<
    S,
    K,
    L,
    W,
    Drawn,
    u64,
> for Holder<'g, R> {
    ghost same = { λ p q. Unit {0} };

    ghost serves = { λ p words before after q word. Draws (seen_of p.highest []) words word
        (seen_of q.highest (q.ticket ∷ [])) };

    fn serve(self, visitor: &mut Visitor<S, K, L, W>) -> (Drawn, u64) {
        let ticket = draw(self.rt, self.roll);
        let _ = visitor.sink.write(&ticket.to_be_bytes());
        let word = visitor.words.next();
        let highest = farther(self.highest, ticket);
        (Drawn { highest, ticket }, word)
    }
}

/// Draws the next ticket.
fn draw<R: Wait>(rt: &R, roll: &Roll) -> u64 {
    let mut next = roll.next.lock(rt);
    let ticket = *next;
    *next = ticket.wrapping_add(1);
    ticket
}

fn farther(a: u64, b: u64) -> u64
    ensures left { a ≤ result }
    ensures right { b ≤ result }
{
    if a < b { b } else { a }
}

/// What is known of the sessions that have ended: the highest ticket, all that were drawn, in the order in which their
/// sessions ended, and the sessions with their first random words.
#[derive(Drop)]
pub struct Noted<V> {
    pub highest: u64,
    pub own: Vec<u64>,
    pub ended: EndedSessions<V, u64>,
}

impl<V> Noted<V> {
    /// Nothing is noted yet. It keeps the allocator, with which it grows.
    pub fn new(alloc: Global) -> Noted<V>
        ensures { (result.highest ≡ 0) × (result.own.items ≡ []) × (result.ended.sessions ≡ []) }
    {
        Noted {
            highest: 0,
            own: Vec::new(alloc),
            ended: EndedSessions::new(alloc),
        }
    }
}

/// The roll that all sessions share, and what is noted of them.
#[derive(Drop)]
pub(crate) struct Tickets<'g, V, R> {
    rt: &'g R,
    roll: &'g Roll,
    noted: Noted<V>,
}

impl<
    'g,
    S: ClientSource + Drop,
    K: ClientSink + Drop,
    L: ClientWire + Drop,
    W: Words + Drop,
    R: Wait,
> Service<S, K, L, W, Visitor<S, K, L, W>, Holder<'g, R>, Drawn, u64>
    for Tickets<'g, Visitor<S, K, L, W>, R> {
    ghost kind = { tickets };

    ghost outside = { λ c. tt };

    ghost kept = { λ word. word };

    ghost gives = { λ p. tt };

    ghost sees = { λ p. seen_of p.highest [] };

    ghost saw = { λ q. seen_of q.highest (q.ticket ∷ []) };

    ghost given = { λ a. tt };

    ghost seen = { λ a. seen_of a.noted.highest a.noted.own.items };

    ghost content = { λ a. content_of a.noted.ended.sessions };

    ghost goes = { λ a b. Unit {0} };

    ghost ready = { λ a. Unit {0} };

    ghost waits = { λ a p. Unit {0} };

    ghost begins = { λ a p b. Unit {0} };

    ghost ends = { λ a q b. Unit {0} };

    ghost use Rattle.std.proofs.Common.{refl};
    ghost use Rattle.td_server_tests.specs.Tickets.{ticket_laws};

    ghost laws = { ticket_laws };

    ghost serves = { λ p words before after q word h. h };

    ghost goes_itself = { λ a. tt };

    ghost goes_on = { λ a b c p q. tt };

    ghost goes_given = { λ a b p. refl };

    fn begin(&mut self) -> Result<Holder<'g, R>, Memory> {
        Ok(Holder {
            rt: self.rt,
            roll: self.roll,
            highest: self.noted.highest,
        })
    }

    fn end(
        &mut self,
        number: u64,
        visitor: Visitor<S, K, L, W>,
        limited: Option<Limited>,
        word: u64,
        pass: Drawn,
    ) -> Result<(), Memory> {
        let Drawn { highest, ticket } = pass;
        match note(&mut self.noted.own, ticket) {
            Ok(()) => {
                self.noted.highest = farther(self.noted.highest, highest);
                self.noted
                    .ended
                    .sessions
                    .push((number, visitor, limited, word))
            }
            Err(memory) => {
                drop(visitor);
                Err(memory)
            }
        }
    }
}

/// Notes a ticket that wasn't noted yet.
fn note(own: &mut Vec<u64>, ticket: u64) -> Result<(), Memory>
    ensures noted { OnOk result (own.new.items ≡ own.old.items ++ ticket ∷ []) }
    ensures apart { OnOk result ((place : ℕ) → In place own.old.items → In place (ticket ∷ [])
        → ⊥) }
{
    if own.as_slice().contains(&ticket) {
        return Err(Memory);
    }
    match own.push(ticket) {
        Ok(()) => Ok(()),
        Err(_) => Err(Memory),
    }
}

/// Has each visitor of a bound acceptor draw a ticket, in a session of its own, and notes what was drawn behind what
/// was noted before.
///
/// # Errors
///
/// As those of `serve_all`.
pub fn serve_tickets<A: Accept, G: Gate, R: Threads + Wait + Sync>(
    rt: &R,
    alloc: Global,
    roll: &Roll,
    seed: &Octets,
    accept: &mut A,
    gate: &G,
    noted: Noted<Visitor<A::S, A::K, A::L, A::W>>,
) -> (Result<(), Stop>, Noted<Visitor<A::S, A::K, A::L, A::W>>)
    requires bound { A.bound accept.old ≡ true }
    requires seed { length seed.now ≡ 32 }
    ensures whole { OnOk result.0 (Whole {k = tickets} (λ v. tt) (λ v. A.W.word_after v.words)
        (stand_of seed.now (A.content accept.old) noted.ended.sessions noted.highest
        noted.own.items)
        (stand_of seed.now (A.content accept.new) result.1.ended.sessions result.1.highest
        result.1.own.items)) }
{
    let service = Tickets { rt, roll, noted };
    let (stop, service) = serve_all(rt, alloc, seed, accept, gate, service);
    let Tickets { noted, .. } = service;
    (stop, noted)
}
