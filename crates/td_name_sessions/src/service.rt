//! The naming contexts that all sessions share.

ghost use Rattle.std.specs.Prelude.{◌≡◌};
ghost use Rattle.td_name_sessions.specs.Sessions.{naming};
ghost use Rattle.td_shared_names.specs.Seeing.{seen_by};
ghost use Rattle.td_shared_names.specs.Sharing.{IsOpeningOf, IsOut, MeetsPass, SplitsOff};
ghost use Rattle.td_stream.specs.Outside.{outside};

use crate::ended::Ended;
use crate::session::{SessionEnd, SessionPass};
use std::alloc::Global;
use std::sync::Wait;
use td_accept::{ClientSink, ClientSource, ClientWire, Limited, Visitor};
use td_cdr::Memory;
use td_cell::Pass;
use td_name_session::NameRoom;
use td_out::Words;
use td_server::Service;
use td_shared_names::{NameBook, NamePass, SharedNames};

/// The naming contexts that all sessions share, and where the sessions go.
#[derive(Drop)]
pub(crate) struct NameService<'e, 'g, N, R> {
    pub(crate) rt: &'g R,
    pub(crate) alloc: Global,
    pub(crate) names: &'g SharedNames,
    pub(crate) ended: &'e mut N,
    /// The opening pass.
    pub(crate) pass: Pass<NameBook>,
}

impl<'e, 'g, S, K, L, W, N, R> Service<
    S,
    K,
    L,
    W,
    Visitor<S, K, L, W>,
    SessionPass<'g, R>,
    NamePass<'g, R>,
    SessionEnd,
> for NameService<'e, 'g, N, R>
where
    S: ClientSource,
    K: ClientSink,
    L: ClientWire,
    W: Words,
    N: Ended<Visitor<S, K, L, W>>,
    R: Wait,
{
    ghost kind = { naming };

    ghost outside = { λ c. outside c.left c.reads c.written c.writes };

    ghost kept = { λ e. record { end = e.end; journal = e.journal } };

    ghost gives = { λ p. tt };

    ghost sees = { λ p. seen_by p.pass.pass };

    ghost saw = { λ q. seen_by q.pass };

    ghost given = { λ a. tt };

    ghost seen = { λ a. seen_by a.pass };

    ghost content = { λ a. N.content a.ended.now };

    ghost goes = { λ a b. (a.ended.ghost_name ≡ b.ended.ghost_name) × (b.names ≡ a.names) };

    ghost ready = { λ a. IsOpeningOf a.names.now.cell a.pass };

    ghost waits = { λ a p. IsOut a.pass p.pass.pass };

    ghost begins = { λ a p b. SplitsOff a.pass p.pass.pass b.pass };

    ghost ends = { λ a q b. MeetsPass a.pass q.pass b.pass };

    ghost use Rattle.std.proofs.Common.{refl, ◌∙◌};
    ghost use Rattle.td_name_sessions.specs.Worlds.{naming_laws};

    ghost laws = { naming_laws };

    ghost serves = { λ p words before after q e h. h };

    ghost goes_itself = { λ a. (refl, refl) };

    ghost goes_on = { λ a b c p q. (p.0 ∙ q.0, q.1 ∙ p.1) };

    ghost goes_given = { λ a b p. refl };

    fn begin(&mut self) -> Result<SessionPass<'g, R>, Memory> {
        let room = NameRoom::new(self.alloc)?;
        match self.names.pass(self.rt, &mut self.pass) {
            Ok(pass) => Ok(SessionPass {
                alloc: self.alloc,
                room,
                pass,
            }),
            Err(memory) => {
                drop(room);
                Err(memory)
            }
        }
    }

    fn end(
        &mut self,
        number: u64,
        visitor: Visitor<S, K, L, W>,
        limited: Option<Limited>,
        ending: SessionEnd,
        pass: NamePass<'g, R>,
    ) -> Result<(), Memory> {
        let SessionEnd { end, journal } = ending;
        self.names.take_in(&mut self.pass, pass);
        match self.ended.names(number, visitor, end, limited, journal) {
            Ok(()) => Ok(()),
            Err(memory) => Err(memory),
        }
    }
}
