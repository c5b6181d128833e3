//! Where visitors come in, and where their sessions go out.

ghost use Rattle.std.specs.Prelude.{◌≡◌, ◌≤◌, ℕ, is_some, length, true};
ghost use Rattle.td_server.specs.Sessions.{ComesIn, ComesToAnEnd, GoesOut, HandsSome, StopsSo};

use crate::pass::Pass;
use crate::service::Service;
use crate::session::{Served, Session};
use td_accept::{Accept, Gate, Visitor};
use td_cdr::Octets;
use td_workers::{JobSource, Stop};

/// Where visitors come in, and where their sessions go out.
#[derive(Drop)]
pub(crate) struct Reception<'a, 'g, A, G, F> {
    pub(crate) gate: &'g G,
    pub(crate) seed: &'g Octets,
    pub(crate) accept: &'a mut A,
    pub(crate) service: F,
}

impl<'a, 'g, A, G, P, Q, E, F> JobSource<
    Served<A::S, A::K, A::L, A::W, E, Q>,
    Session<'g, A::S, A::K, A::L, A::W, P, G>,
> for Reception<'a, 'g, A, G, F>
where
    A: Accept,
    G: Gate,
    P: Pass<A::S, A::K, A::L, A::W, Q, E> + Drop,
    Q: Drop,
    E: Drop,
    F: Service<A::S, A::K, A::L, A::W, Visitor<A::S, A::K, A::L, A::W>, P, Q, E>,
{
    ghost goes = { λ a b. (a.accept.ghost_name ≡ b.accept.ghost_name) × F.goes a.service b.service
        × (b.seed ≡ a.seed) × (A.faults a.accept.now ≤ A.faults b.accept.now)
        × HandsSome {k = F.kind} (F.content a.service) (F.content b.service) };

    ghost ready = { λ a. F.ready a.service × (A.bound a.accept.now ≡ true)
        × (length a.seed.now ≡ 32) };

    ghost waits = { λ a job. F.waits a.service job.pass };

    ghost admits = { λ a number job b. ComesIn {k = F.kind}
        (record {
          given = F.given a.service;
          seed = a.seed.now;
          door = A.content a.accept.now;
          content = F.content a.service;
          world = F.seen a.service;
        })
        number
        (record {
          number = job.number;
          given = F.gives job.pass;
          seed = job.seed.now;
          visitor = job.visitor;
          first = F.sees job.pass;
        })
        (record {
          given = F.given b.service;
          seed = b.seed.now;
          door = A.content b.accept.now;
          content = F.content b.service;
          world = F.seen b.service;
        })
        × F.begins a.service job.pass b.service };

    ghost closes = { λ a b. ComesToAnEnd {k = F.kind}
        (record {
          given = F.given a.service;
          seed = a.seed.now;
          door = A.content a.accept.now;
          content = F.content a.service;
          world = F.seen a.service;
        })
        (record {
          given = F.given b.service;
          seed = b.seed.now;
          door = A.content b.accept.now;
          content = F.content b.service;
          world = F.seen b.service;
        })
        × (b.service ≡ a.service) };

    ghost parts = { λ a number made b. GoesOut {k = F.kind}
        (record {
          given = F.given a.service;
          seed = a.seed.now;
          door = A.content a.accept.now;
          content = F.content a.service;
          world = F.seen a.service;
        })
        number
        (record {
          visitor = made.visitor;
          limited = is_some made.limited;
          kept = F.kept made.kept;
          last = F.saw made.pass;
        })
        (record {
          given = F.given b.service;
          seed = b.seed.now;
          door = A.content b.accept.now;
          content = F.content b.service;
          world = F.seen b.service;
        })
        × F.ends a.service made.pass b.service };

    ghost stops = { λ a why b. StopsSo why (A.faults a.accept.now) (A.faults b.accept.now) };

    ghost use Rattle.std.proofs.Common.{refl, ◌∙◌};
    ghost use Rattle.td_server.specs.JobSourceLaws.{goes_up, hands_none, hands_on, stays_as, stops_later};

    ghost goes_itself = { λ a.
        (refl, F.goes_itself _, refl, stays_as _, hands_none {k = F.kind} _ _ refl) };

    ghost goes_on = { λ a b c p q. (
      p.0 ∙ q.0,
      F.goes_on _ _ _ p.1 q.1,
      q.2 ∙ p.2,
      goes_up _ _ _ p.3 q.3,
      hands_on {k = F.kind} _ _ _ p.4 q.4,
    ) };

    ghost stops_on = { λ a b c why p q. stops_later _ _ _ why p.3 q };

    ghost stops_memory = { λ a b p. tt };

    #[tactic(auto, using(crate::specs::JobSourceLaws::hands_none))]
    fn next(
        &mut self,
        number: u64,
    ) -> Result<Option<Session<'g, A::S, A::K, A::L, A::W, P, G>>, Stop> {
        match self.accept.next() {
            Err(_) => Err(Stop::Failed),
            Ok(None) => Ok(None),
            Ok(Some(visitor)) => match self.service.begin() {
                Ok(pass) => Ok(Some(Session {
                    gate: self.gate,
                    seed: self.seed,
                    number,
                    visitor,
                    pass,
                })),
                Err(_) => {
                    drop(visitor);
                    Err(Stop::Memory)
                }
            },
        }
    }

    #[tactic(auto, using(crate::specs::JobSourceLaws::hands_none))]
    fn part(
        &mut self,
        number: u64,
        made: Served<A::S, A::K, A::L, A::W, E, Q>,
    ) -> Result<(), Stop> {
        let Served {
            visitor,
            limited,
            kept,
            pass,
        } = made;
        match self.service.end(number, visitor, limited, kept, pass) {
            Ok(()) => Ok(()),
            Err(_) => Err(Stop::Memory),
        }
    }
}
