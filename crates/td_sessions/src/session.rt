//! One session over the traders.

ghost use Rattle.std.specs.Prelude.{◌≡◌, length, map};
ghost use Rattle.td_group.specs.Grouping.{SamePasses};
ghost use Rattle.td_cdr.specs.Marks.{Later};
ghost use Rattle.td_group.specs.Seeing.{seen_by};
ghost use Rattle.td_stream.specs.Outside.{outside};
ghost use Rattle.td_session.specs.Rooms.{IsNew};
ghost use Rattle.td_sessions.specs.Sessions.{ServesOver};
ghost use Rattle.td_trader.specs.Admitted.{AreAdmitted};

use std::alloc::Global;
use std::sync::Wait;
use td_accept::{ClientSink, ClientSource, ClientWire, Visitor};
use td_client::Caller;
use td_group::GroupPass;
use td_journal::Journal;
use td_out::{Sink, Source, Words};
use td_server::Pass;
use td_session::{End, Room, serve_connection};
use td_trader::Traders;
use td_wire::Wire;

/// A session that begins: its room, and its pass over the group of traders.
#[derive(Drop)]
pub(crate) struct TraderPass<'g, J: Journal, R: Wait> {
    pub(crate) alloc: Global,
    pub(crate) room: Room<J>,
    pub(crate) pass: GroupPass<'g, R>,
    ghost no_iterator: { length room.desk.0 ≡ 0 },
    ghost first: { room.desk.1 ≡ 1 },
    ghost nothing_noted: { length room.journal ≡ 0 },
}

/// How a session ended, and its journal.
#[derive(Drop)]
pub(crate) struct SessionEnd<J> {
    pub(crate) end: End,
    pub(crate) journal: J,
}

impl<'g, S: ClientSource, K: ClientSink, L: ClientWire, W: Words, J: Journal, R: Wait> Pass<
    S,
    K,
    L,
    W,
    GroupPass<'g, R>,
    SessionEnd<J>,
> for TraderPass<'g, J, R> {
    ghost same = { λ p q. SamePasses p.pass.passes.items q.passes.items };

    ghost serves = { λ p words before after q e. ServesOver AreAdmitted Later p.room.home
        (map seen_by p.pass.passes.items) words (J.entries e.journal) e.end
        (outside before.left before.reads before.written before.writes)
        (outside after.left after.reads after.written after.writes) (map seen_by q.passes.items) };

    fn serve(self, visitor: &mut Visitor<S, K, L, W>) -> (GroupPass<'g, R>, SessionEnd<J>) {
        let TraderPass {
            alloc,
            mut room,
            mut pass,
        } = self;
        let end = serve_visitor(alloc, &mut pass, &mut room, visitor);
        let journal = room.into_journal();
        (pass, SessionEnd { end, journal })
    }
}

/// Serves a visitor's session with these traders. Objects outside are called over its wire.
fn serve_visitor<T: Traders, S: Source, K: Sink, L: Wire, W: Words, J: Journal>(
    alloc: Global,
    traders: &mut T,
    room: &mut Room<J>,
    visitor: &mut Visitor<S, K, L, W>,
) -> End
    requires new { IsNew room.old }
    ensures same { T.same traders.old traders.new }
    ensures serves { ServesOver T.others T.later room.old.home (T.world traders.old)
        (W.word visitor.old.words) room.new.journal result
        (outside (S.left visitor.old.source) (S.faults visitor.old.source)
        (K.written visitor.old.sink) (K.faults visitor.old.sink))
        (outside (S.left visitor.new.source) (S.faults visitor.new.source)
        (K.written visitor.new.sink) (K.faults visitor.new.sink)) (T.world traders.new) }
{
    let mut peers = Caller::new(&mut visitor.wire);
    let end = serve_connection(
        alloc,
        traders,
        room,
        &mut visitor.source,
        &mut visitor.sink,
        &mut peers,
        &mut visitor.words,
    );
    drop(peers);
    end
}
