//! One session over the naming contexts.

ghost use Rattle.std.specs.Prelude.{◌≡◌, length};
ghost use Rattle.td_name_session.specs.Stages.{IsNew};
ghost use Rattle.td_name_sessions.specs.Sessions.{ServesOver};
ghost use Rattle.td_shared_names.specs.Seeing.{any_changes, seen_by};
ghost use Rattle.td_shared_names.specs.Sharing.{SamePass};
ghost use Rattle.td_stream.specs.Outside.{outside};

use std::alloc::Global;
use std::sync::Wait;
use td_accept::{ClientSink, ClientSource, ClientWire, Visitor};
use td_cdr::List;
use td_name_session::{End, NameRoom, serve_names};
use td_naming::Names;
use td_out::{Sink, Source, Words};
use td_server::Pass;
use td_shared_names::NamePass;

/// A session that begins: its room, and its pass over the contexts.
#[derive(Drop)]
pub(crate) struct SessionPass<'g, R: Wait> {
    pub(crate) alloc: Global,
    pub(crate) room: NameRoom,
    pub(crate) pass: NamePass<'g, R>,
    ghost no_iterator: { length room.desk.0 ≡ 0 },
    ghost first: { room.desk.1 ≡ 1 },
    ghost nothing_noted: { length room.journal ≡ 0 },
}

/// How a session ended, and its journal.
#[derive(Drop)]
pub(crate) struct SessionEnd {
    pub(crate) end: End,
    pub(crate) journal: List<u64>,
}

impl<'g, S: ClientSource, K: ClientSink, L: ClientWire, W: Words, R: Wait> Pass<
    S,
    K,
    L,
    W,
    NamePass<'g, R>,
    SessionEnd,
> for SessionPass<'g, R> {
    ghost same = { λ p q. SamePass p.pass.pass q.pass };

    ghost serves = { λ p words before after q e. ServesOver any_changes (seen_by p.pass.pass)
        e.journal e.end (outside before.left before.reads before.written before.writes)
        (outside after.left after.reads after.written after.writes) (seen_by q.pass) };

    fn serve(self, visitor: &mut Visitor<S, K, L, W>) -> (NamePass<'g, R>, SessionEnd) {
        let SessionPass {
            alloc,
            mut room,
            mut pass,
        } = self;
        let end = serve_visitor(alloc, &mut pass, &mut room, visitor);
        let journal = room.into_journal();
        (pass, SessionEnd { end, journal })
    }
}

/// Serves a visitor's session with these contexts.
fn serve_visitor<N: Names, S: Source, K: Sink, L, W>(
    alloc: Global,
    names: &mut N,
    room: &mut NameRoom,
    visitor: &mut Visitor<S, K, L, W>,
) -> End
    requires new { IsNew room.old }
    ensures same { N.same names.old names.new }
    ensures serves { ServesOver N.others (N.view names.old) room.new.journal result
        (outside (S.left visitor.old.source) (S.faults visitor.old.source)
        (K.written visitor.old.sink) (K.faults visitor.old.sink))
        (outside (S.left visitor.new.source) (S.faults visitor.new.source)
        (K.written visitor.new.sink) (K.faults visitor.new.sink)) (N.view names.new) }
{
    serve_names(alloc, names, room, &mut visitor.source, &mut visitor.sink)
}
