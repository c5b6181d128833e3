//! The group of traders and the desk of iterators that all sessions share.

ghost use Rattle.std.specs.Prelude.{◌≡◌, map};
ghost use Rattle.std.specs.List.{AllZip};
ghost use Rattle.td_cell.specs.Passes.{knowledge};
ghost use Rattle.td_group.specs.Grouping.{AreOpening, IsOut, MeetsPass, SplitsOff};
ghost use Rattle.td_group.specs.Rows.{Rows};
ghost use Rattle.td_group.specs.Seeing.{seen_by};
ghost use Rattle.td_objects.specs.References.{IsAddress};
ghost use Rattle.td_shared.specs.DeskSeen.{desk_seen};
ghost use Rattle.td_shared_sessions.specs.Desks.{IsOutOf, OpensDesk};
ghost use Rattle.td_shared_sessions.specs.Sessions.{shared_world, sharing};
ghost use Rattle.td_stream.specs.Outside.{outside};

use crate::ended::Ended;
use crate::session::{PassesLeft, SessionEnd, SharedPass};
use std::alloc::Global;
use std::sync::Wait;
use td_accept::{ClientSink, ClientSource, ClientWire, Limited, Visitor};
use td_cdr::Memory;
use td_cell::Pass;
use td_desk::{DeskPass, SharedDesk};
use td_group::{Group, SharedTrader};
use td_out::Words;
use td_server::Service;
use td_walk::Address;

/// The group of traders and the desk that all sessions share, and where the sessions go.
#[derive(Drop)]
pub(crate) struct SharedService<'e, 'g, N, R> {
    pub(crate) rt: &'g R,
    pub(crate) alloc: Global,
    pub(crate) group: &'g Group,
    pub(crate) desk: &'g SharedDesk,
    pub(crate) home: &'g Address,
    pub(crate) ended: &'e mut N,
    /// The opening passes of the group.
    pub(crate) passes: Vec<Pass<SharedTrader>>,
    /// The opening pass of the desk.
    pub(crate) desk_pass: DeskPass,
}

impl<'e, 'g, S, K, L, W, N, R> Service<
    S,
    K,
    L,
    W,
    Visitor<S, K, L, W>,
    SharedPass<'g, R>,
    PassesLeft<'g, R>,
    SessionEnd<N::J>,
> for SharedService<'e, 'g, N, R>
where
    S: ClientSource,
    K: ClientSink,
    L: ClientWire,
    W: Words,
    N: Ended<Visitor<S, K, L, W>>,
    R: Wait,
{
    ghost kind = { sharing };

    ghost outside = { λ c. outside c.left c.reads c.written c.writes };

    ghost kept = { λ e. record { end = e.end; journal = N.J.entries e.journal } };

    ghost gives = { λ p. p.home.now };

    ghost sees = { λ p. shared_world (map seen_by p.traders.passes.items)
        (desk_seen (knowledge p.pass)) };

    ghost saw = { λ q. shared_world (map seen_by q.traders.passes.items)
        (desk_seen (knowledge q.pass)) };

    ghost given = { λ a. a.home.now };

    ghost seen = { λ a. shared_world (map seen_by a.passes.items)
        (desk_seen (knowledge a.desk_pass)) };

    ghost content = { λ a. N.content a.ended.now };

    ghost goes = { λ a b. (a.ended.ghost_name ≡ b.ended.ghost_name) × (b.group ≡ a.group)
        × (b.desk ≡ a.desk) × (b.home ≡ a.home) };

    ghost ready = { λ a. AreOpening a.group.now.cells.items a.passes.items
        × OpensDesk a.desk.now.cell a.desk_pass × IsAddress a.home.now };

    ghost waits = { λ a p. AllZip IsOut a.passes.items p.traders.passes.items
        × IsOutOf a.desk_pass p.pass };

    ghost begins = { λ a p b. Rows SplitsOff a.passes.items p.traders.passes.items b.passes.items };

    ghost ends = { λ a q b. Rows MeetsPass a.passes.items q.traders.passes.items b.passes.items };

    ghost use Rattle.std.proofs.Common.{refl, ap, ◌∙◌};
    ghost use Rattle.td_shared_sessions.specs.Worlds.{sharing_laws};

    ghost laws = { sharing_laws };

    ghost serves = { λ p words before after q e h. h };

    ghost goes_itself = { λ a. (refl, refl, refl, refl) };

    ghost goes_on = { λ a b c p q. (p.0 ∙ q.0, q.1 ∙ p.1, q.2 ∙ p.2, q.3 ∙ p.3) };

    ghost goes_given = { λ a b p. ap (λ h. h.now) p.3 };

    fn begin(&mut self) -> Result<SharedPass<'g, R>, Memory> {
        match self.group.pass(self.rt, self.alloc, &mut self.passes) {
            Ok(traders) => match self.desk.split(&mut self.desk_pass) {
                Ok(pass) => Ok(SharedPass {
                    rt: self.rt,
                    alloc: self.alloc,
                    home: self.home,
                    traders,
                    desk: self.desk,
                    pass,
                }),
                Err(memory) => {
                    drop(traders);
                    Err(memory)
                }
            },
            Err(memory) => Err(memory),
        }
    }

    fn end(
        &mut self,
        number: u64,
        visitor: Visitor<S, K, L, W>,
        limited: Option<Limited>,
        ending: SessionEnd<N::J>,
        left: PassesLeft<'g, R>,
    ) -> Result<(), Memory> {
        let SessionEnd { end, journal } = ending;
        let PassesLeft { traders, pass } = left;
        self.group.take_in(&mut self.passes, traders);
        self.desk.meet(&mut self.desk_pass, pass);
        match self.ended.shared(number, visitor, end, limited, journal) {
            Ok(()) => Ok(()),
            Err(memory) => Err(memory),
        }
    }
}
