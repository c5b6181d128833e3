//! The session: its servant answers the messages of a stream until it ends.

ghost use Rattle.std.specs.Prelude.{◌≡◌};
ghost use Rattle.td_name_session.specs.Completeness.{Completes};
ghost use Rattle.td_name_session.specs.Scenes.{scene};
ghost use Rattle.td_name_session.specs.Sessions.{Serves};
ghost use Rattle.td_name_session.specs.Stages.{IsNew};
ghost use Rattle.td_stream.specs.Outside.{outside};

use crate::room::NameRoom;
use crate::servant::{NameServant, give_back};
use std::alloc::Global;
use td_naming::Names;
use td_out::{Sink, Source};
use td_stream::{End, serve_stream};

/// Serves the messages of a source in order, and writes their replies to a sink, until the stream ends.
///
/// Where the source is whole messages that a server can be sent, within a session's limits, and none of the
/// outside fails, those before the first CloseConnection or MessageError are all served, or memory runs out.
pub fn serve_names<N: Names, S: Source, K: Sink>(
    alloc: Global,
    names: &mut N,
    room: &mut NameRoom,
    source: &mut S,
    sink: &mut K,
) -> End
    requires { IsNew room.old }
    ensures same { N.same names.old names.new }
    ensures serves { Serves N.others (scene (N.view names.old) room.old.desk)
        (scene (N.view names.new) room.new.desk) room.new.journal result
        (outside (S.left source.old) (S.faults source.old) (K.written sink.old) (K.faults sink.old))
        (outside (S.left source.new) (S.faults source.new) (K.written sink.new)
        (K.faults sink.new)) }
    ensures complete { Completes N.others (scene (N.view names.old) room.old.desk)
        (scene (N.view names.new) room.new.desk) result
        (outside (S.left source.old) (S.faults source.old) (K.written sink.old) (K.faults sink.old))
        (outside (S.left source.new) (S.faults source.new) (K.written sink.new)
        (K.faults sink.new)) }
{
    let mut servant = NameServant { names, room };
    let end = serve_lent(alloc, &mut servant, source, sink);
    let NameServant { names, room } = servant;
    give_back(names);
    give_back(room);
    end
}

// A function of its own, since what a struct of borrows lends is known again only where the struct
// is taken apart behind a call.
/// Serves a session of what its servant is lent.
fn serve_lent<'n, 'r, N: Names, S: Source, K: Sink>(
    alloc: Global,
    servant: &mut NameServant<'n, 'r, N>,
    source: &mut S,
    sink: &mut K,
) -> End
    requires { IsNew servant.old.room.now }
    ensures named_names { servant.new.names.ghost_name ≡ servant.old.names.ghost_name }
    ensures named_room { servant.new.room.ghost_name ≡ servant.old.room.ghost_name }
    ensures same { N.same servant.old.names.now servant.new.names.now }
    ensures serves { Serves N.others
        (scene (N.view servant.old.names.now) servant.old.room.now.desk)
        (scene (N.view servant.new.names.now) servant.new.room.now.desk)
        servant.new.room.now.journal result (outside (S.left source.old) (S.faults source.old)
        (K.written sink.old) (K.faults sink.old))
        (outside (S.left source.new) (S.faults source.new) (K.written sink.new)
        (K.faults sink.new)) }
    ensures complete { Completes N.others
        (scene (N.view servant.old.names.now) servant.old.room.now.desk)
        (scene (N.view servant.new.names.now) servant.new.room.now.desk) result
        (outside (S.left source.old) (S.faults source.old) (K.written sink.old) (K.faults sink.old))
        (outside (S.left source.new) (S.faults source.new) (K.written sink.new)
        (K.faults sink.new)) }
{
    serve_stream(alloc, servant, source, sink)
}
