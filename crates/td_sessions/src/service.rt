//! The group of traders that all sessions share.

ghost use Rattle.std.specs.Prelude.{◌≡◌, map, IfOk};
ghost use Rattle.std.specs.List.{AllZip};
ghost use Rattle.td_group.specs.Grouping.{AreOpening, IsOut, MeetsPass, SplitsOff};
ghost use Rattle.td_group.specs.Rows.{Rows};
ghost use Rattle.td_group.specs.Seeing.{seen_by};
ghost use Rattle.td_objects.specs.References.{IsAddress};
ghost use Rattle.td_session.specs.Rooms.{IsNew};
ghost use Rattle.td_sessions.specs.Sessions.{trading};
ghost use Rattle.td_stream.specs.Outside.{outside};

use crate::ended::Ended;
use crate::session::{SessionEnd, TraderPass};
use std::alloc::Global;
use std::sync::Wait;
use td_accept::{ClientSink, ClientSource, ClientWire, Limited, Visitor};
use td_cdr::{Memory, Twin};
use td_cell::Pass;
use td_group::{Group, GroupPass, SharedTrader};
use td_journal::Journal;
use td_out::Words;
use td_server::Service;
use td_session::Room;
use td_walk::Address;

/// The group of traders that all sessions share, and where the sessions go.
#[derive(Drop)]
pub(crate) struct TraderService<'e, 'g, N, R> {
    pub(crate) rt: &'g R,
    pub(crate) alloc: Global,
    pub(crate) group: &'g Group,
    pub(crate) home: &'g Address,
    pub(crate) ended: &'e mut N,
    /// The opening passes of the group.
    pub(crate) passes: Vec<Pass<SharedTrader>>,
}

impl<'e, 'g, S, K, L, W, N, R> Service<
    S,
    K,
    L,
    W,
    Visitor<S, K, L, W>,
    TraderPass<'g, N::J, R>,
    GroupPass<'g, R>,
    SessionEnd<N::J>,
> for TraderService<'e, 'g, N, R>
where
    S: ClientSource,
    K: ClientSink,
    L: ClientWire,
    W: Words,
    N: Ended<Visitor<S, K, L, W>>,
    R: Wait,
{
    ghost kind = { trading };

    ghost outside = { λ c. outside c.left c.reads c.written c.writes };

    ghost kept = { λ e. record { end = e.end; journal = N.J.entries e.journal } };

    ghost gives = { λ p. p.room.home };

    ghost sees = { λ p. map seen_by p.pass.passes.items };

    ghost saw = { λ q. map seen_by q.passes.items };

    ghost given = { λ a. a.home.now };

    ghost seen = { λ a. map seen_by a.passes.items };

    ghost content = { λ a. N.content a.ended.now };

    ghost goes = { λ a b. (a.ended.ghost_name ≡ b.ended.ghost_name) × (b.group ≡ a.group)
        × (b.home ≡ a.home) };

    ghost ready = { λ a. AreOpening a.group.now.cells.items a.passes.items × IsAddress a.home.now };

    ghost waits = { λ a p. AllZip IsOut a.passes.items p.pass.passes.items };

    ghost begins = { λ a p b. Rows SplitsOff a.passes.items p.pass.passes.items b.passes.items };

    ghost ends = { λ a q b. Rows MeetsPass a.passes.items q.passes.items b.passes.items };

    ghost use Rattle.std.proofs.Common.{refl, ap, ◌∙◌};
    ghost use Rattle.td_sessions.specs.Worlds.{trading_laws};

    ghost laws = { trading_laws };

    ghost serves = { λ p words before after q e h. h };

    ghost goes_itself = { λ a. (refl, refl, refl) };

    ghost goes_on = { λ a b c p q. (p.0 ∙ q.0, q.1 ∙ p.1, q.2 ∙ p.2) };

    ghost goes_given = { λ a b p. ap (λ h. h.now) p.2 };

    fn begin(&mut self) -> Result<TraderPass<'g, N::J, R>, Memory> {
        let room = room_at(self.alloc, self.home)?;
        match self.group.pass(self.rt, self.alloc, &mut self.passes) {
            Ok(pass) => Ok(TraderPass {
                alloc: self.alloc,
                room,
                pass,
            }),
            Err(memory) => {
                drop(room);
                Err(memory)
            }
        }
    }

    fn end(
        &mut self,
        number: u64,
        visitor: Visitor<S, K, L, W>,
        limited: Option<Limited>,
        ending: SessionEnd<N::J>,
        pass: GroupPass<'g, R>,
    ) -> Result<(), Memory> {
        let SessionEnd { end, journal } = ending;
        self.group.take_in(&mut self.passes, pass);
        match self.ended.session(number, visitor, end, limited, journal) {
            Ok(()) => Ok(()),
            Err(memory) => Err(memory),
        }
    }
}

/// A room for a session with the traders that are reached at this address.
fn room_at<J: Journal>(alloc: Global, home: &Address) -> Result<Room<J>, Memory>
    requires { IsAddress home.now }
    ensures new { IfOk result (λ room. IsNew room) }
    ensures home { IfOk result (λ room. room.home ≡ home.now) }
{
    let host = home.host.copy(alloc)?;
    Room::new(
        alloc,
        Address {
            host,
            port: home.port,
            minor: home.minor,
        },
    )
}
