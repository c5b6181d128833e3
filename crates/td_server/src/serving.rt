//! The sessions of all visitors.

ghost use Rattle.std.specs.Prelude.{◌≡◌, ◌≤◌, [], length, true, IfErr, OnOk};
ghost use Rattle.td_server.specs.Sessions.{HandsSome, StopsSo, connection};
ghost use Rattle.td_server.specs.Steps.{BeginsSession, EndsSession, KeepsSame, Stays, served_here};
ghost use Rattle.td_server.specs.Whole.{Whole};
ghost use Rattle.td_workers.specs.JobSources.{RunsJobs};

use crate::pass::Pass;
use crate::reception::Reception;
use crate::service::Service;
use std::alloc::Global;
use std::sync::Wait;
use std::thread::Threads;
use td_accept::{Accept, Gate, Visitor};
use td_cdr::Octets;
use td_workers::{Stop, work_all};

/// Serves each visitor that an acceptor gives, on a thread of its own as long as fewer than 64 are served so, until
/// none is left. Session `n`, counted from 1, is served between the two calls of the gate with this number, with the
/// random words that come after a seeding with the seed and stream `n`. Gives the service back.
///
/// # Errors
///
/// - `Failed` only where the acceptor's count of faults rose.
/// - `Memory` when out of memory.
///
/// Some sessions may have been handed on before.
pub fn serve_all<
    A: Accept,
    G: Gate,
    P: Pass<A::S, A::K, A::L, A::W, Q, E> + Send + Drop,
    Q: Send + Drop,
    E: Send + Drop,
    F: Service<A::S, A::K, A::L, A::W, Visitor<A::S, A::K, A::L, A::W>, P, Q, E> + Drop,
    R: Threads + Wait,
>(
    rt: &R,
    alloc: Global,
    seed: &Octets,
    accept: &mut A,
    gate: &G,
    service: F,
) -> (Result<(), Stop>, F)
    requires ready { F.ready service }
    requires bound { A.bound accept.old ≡ true }
    requires seed { length seed.now ≡ 32 }
    ensures goes { F.goes service result.1 }
    ensures ready { OnOk result.0 (F.ready result.1) }
    ensures steps { OnOk result.0
        (RunsJobs (BeginsSession F.begins) Stays (KeepsSame P.same) served_here (EndsSession F.ends)
        true service 0 [] result.1) }
    ensures whole { OnOk result.0 (Whole {k = F.kind}
        (λ v. F.outside
        (connection (A.S.left v.source) (A.S.faults v.source) (A.K.written v.sink)
        (A.K.faults v.sink))) (λ v. A.W.word_after v.words) (record {
          given = F.given service;
          seed = seed.now;
          door = A.content accept.old;
          content = F.content service;
          world = F.seen service;
        })
        (record {
          given = F.given service;
          seed = seed.now;
          door = A.content accept.new;
          content = F.content result.1;
          world = F.seen result.1;
        })) }
    ensures handed { HandsSome {k = F.kind} (F.content service) (F.content result.1) }
    ensures later { A.faults accept.old ≤ A.faults accept.new }
    ensures stops { IfErr result.0 (λ why. StopsSo why (A.faults accept.old)
        (A.faults accept.new)) }
{
    let reception = Reception {
        gate,
        seed,
        accept,
        service,
    };
    let (stop, back) = receive_all(rt, alloc, reception);
    let Reception {
        accept,
        service,
        ..
    } = back;
    give_back(accept);
    (stop, service)
}

/// The same over a reception.
fn receive_all<
    'a,
    'g,
    A: Accept,
    G: Gate,
    P: Pass<A::S, A::K, A::L, A::W, Q, E> + Send + Drop,
    Q: Send + Drop,
    E: Send + Drop,
    F: Service<A::S, A::K, A::L, A::W, Visitor<A::S, A::K, A::L, A::W>, P, Q, E> + Drop,
    R: Threads + Wait,
>(
    rt: &R,
    alloc: Global,
    reception: Reception<'a, 'g, A, G, F>,
) -> (Result<(), Stop>, Reception<'a, 'g, A, G, F>)
    requires ready { F.ready reception.service }
    requires bound { A.bound reception.accept.now ≡ true }
    requires seed { length reception.seed.now ≡ 32 }
    ensures same_accept { result.1.accept.ghost_name ≡ reception.entry.accept.ghost_name }
    ensures goes { F.goes reception.entry.service result.1.service }
    ensures ready { OnOk result.0 (F.ready result.1.service) }
    ensures steps { OnOk result.0
        (RunsJobs (BeginsSession F.begins) Stays (KeepsSame P.same) served_here (EndsSession F.ends)
        true reception.entry.service 0 [] result.1.service) }
    ensures whole { OnOk result.0 (Whole {k = F.kind}
        (λ v. F.outside
        (connection (A.S.left v.source) (A.S.faults v.source) (A.K.written v.sink)
        (A.K.faults v.sink))) (λ v. A.W.word_after v.words) (record {
          given = F.given reception.entry.service;
          seed = reception.entry.seed.now;
          door = A.content reception.entry.accept.now;
          content = F.content reception.entry.service;
          world = F.seen reception.entry.service;
        })
        (record {
          given = F.given reception.entry.service;
          seed = reception.entry.seed.now;
          door = A.content result.1.accept.now;
          content = F.content result.1.service;
          world = F.seen result.1.service;
        })) }
    ensures handed { HandsSome {k = F.kind} (F.content reception.entry.service)
        (F.content result.1.service) }
    ensures later { A.faults reception.entry.accept.now ≤ A.faults result.1.accept.now }
    ensures stops { IfErr result.0
        (λ why. StopsSo why (A.faults reception.entry.accept.now) (A.faults result.1.accept.now)) }
{
    work_all(rt, alloc, reception)
}

/// Ends a loan here, so that what was lent is known to be what it has become.
fn give_back<T>(_lent: &mut T)
    ensures { _lent.new ≡ _lent.old }
{}
