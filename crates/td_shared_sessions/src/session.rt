//! One session over the traders and the desk.

ghost use Rattle.std.specs.Prelude.{map};
ghost use Rattle.td_cell.specs.Passes.{Belongs, SameCell, SameNumbers, knowledge};
ghost use Rattle.td_desk.specs.OrderLaws.{in_order_prop};
ghost use Rattle.td_desk.specs.Sharing.{InOrder};
ghost use Rattle.td_group.specs.Grouping.{SamePasses};
ghost use Rattle.td_group.specs.Seeing.{seen_by};
ghost use Rattle.td_objects.specs.References.{IsAddress};
ghost use Rattle.td_shared.specs.DeskSeen.{desk_seen};
ghost use Rattle.td_shared_sessions.specs.Sessions.{SharesOver, SharesTraders, shared_world};
ghost use Rattle.td_stream.specs.Outside.{outside};

use std::alloc::Global;
use std::sync::Wait;
use td_accept::{ClientSink, ClientSource, ClientWire, Visitor};
use td_client::Caller;
use td_desk::{DeskPass, SharedDesk};
use td_group::GroupPass;
use td_out::{Sink, Source, Words};
use td_server::Pass;
use td_session::End;
use td_shared::{SharedJournal, serve_shared};
use td_trader::Traders;
use td_walk::Address;
use td_wire::Wire;

/// A session that begins: its passes over the group of traders and over the desk.
#[derive(Drop)]
pub(crate) struct SharedPass<'g, R: Wait> {
    pub(crate) rt: &'g R,
    pub(crate) alloc: Global,
    pub(crate) home: &'g Address,
    pub(crate) traders: GroupPass<'g, R>,
    pub(crate) desk: &'g SharedDesk,
    pub(crate) pass: DeskPass,
    ghost address: { IsAddress home.now },
    ghost own: { Belongs pass desk.now.cell },
    ghost order: { InOrder (knowledge pass) } by { in_order_prop (knowledge pass) },
}

/// What is left of it.
#[derive(Drop)]
pub(crate) struct PassesLeft<'g, R: Wait> {
    pub(crate) traders: GroupPass<'g, R>,
    pub(crate) pass: DeskPass,
}

/// How a session ended, and its journal.
#[derive(Drop)]
pub(crate) struct SessionEnd<J> {
    pub(crate) end: End,
    pub(crate) journal: J,
}

impl<'g, S: ClientSource, K: ClientSink, L: ClientWire, W: Words, J: SharedJournal, R: Wait> Pass<
    S,
    K,
    L,
    W,
    PassesLeft<'g, R>,
    SessionEnd<J>,
> for SharedPass<'g, R> {
    ghost same = { λ p q. SamePasses p.traders.passes.items q.traders.passes.items
        × SameCell q.pass p.pass × SameNumbers (knowledge p.pass) (knowledge q.pass) };

    ghost serves = { λ p words before after q e. SharesOver p.home.now
        (shared_world (map seen_by p.traders.passes.items) (desk_seen (knowledge p.pass))) words
        (J.entries e.journal) e.end (outside before.left before.reads before.written before.writes)
        (outside after.left after.reads after.written after.writes)
        (shared_world (map seen_by q.traders.passes.items) (desk_seen (knowledge q.pass))) };

    fn serve(self, visitor: &mut Visitor<S, K, L, W>) -> (PassesLeft<'g, R>, SessionEnd<J>) {
        let SharedPass {
            rt,
            alloc,
            home,
            mut traders,
            desk,
            mut pass,
        } = self;
        let mut journal = J::empty(alloc);
        let end = serve_visitor(
            rt,
            alloc,
            &mut traders,
            desk,
            &mut pass,
            home,
            &mut journal,
            visitor,
        );
        (PassesLeft { traders, pass }, SessionEnd { end, journal })
    }
}

/// Serves a visitor's session with these traders and this desk. Objects outside are called over its wire.
fn serve_visitor<R: Wait, J: SharedJournal, T: Traders, S: Source, K: Sink, L: Wire, W: Words>(
    rt: &R,
    alloc: Global,
    traders: &mut T,
    desk: &SharedDesk,
    pass: &mut DeskPass,
    home: &Address,
    journal: &mut J,
    visitor: &mut Visitor<S, K, L, W>,
) -> End
    requires own { Belongs pass.old desk.now.cell }
    requires order { InOrder (knowledge pass.old) }
    requires home { IsAddress home.now }
    ensures own { SameCell pass.new pass.old }
    ensures numbers { SameNumbers (knowledge pass.old) (knowledge pass.new) }
    ensures same { T.same traders.old traders.new }
    ensures serves { SharesTraders T.others T.later home.now (T.world traders.old)
        (W.word visitor.old.words) (knowledge pass.old) (J.entries journal.old)
        (T.world traders.new) (knowledge pass.new) (J.entries journal.new) result
        (outside (S.left visitor.old.source) (S.faults visitor.old.source)
        (K.written visitor.old.sink) (K.faults visitor.old.sink))
        (outside (S.left visitor.new.source) (S.faults visitor.new.source)
        (K.written visitor.new.sink) (K.faults visitor.new.sink)) }
{
    let mut peers = Caller::new(&mut visitor.wire);
    let end = serve_shared(
        rt,
        alloc,
        traders,
        desk,
        pass,
        home,
        journal,
        &mut visitor.source,
        &mut visitor.sink,
        &mut peers,
        &mut visitor.words,
    );
    drop(peers);
    end
}
