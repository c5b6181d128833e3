//! The session: its servant answers the messages of a stream until it ends.

ghost use Rattle.std.specs.Prelude.{◌≡◌, ◌≤◌};
ghost use Rattle.td_servant.specs.Linking.{peers_seen};
ghost use Rattle.td_dispatch.specs.Backends.{backend_seen};
ghost use Rattle.td_session.specs.Completeness.{Completes};
ghost use Rattle.td_session.specs.Rooms.{IsNew};
ghost use Rattle.td_session.specs.Sessions.{Serves};
ghost use Rattle.td_session.specs.Stages.{scene_in};
ghost use Rattle.td_stream.specs.Outside.{outside};

use crate::room::Room;
use crate::servant::{TraderServant, give_back};
use std::alloc::Global;
use td_journal::Journal;
use td_out::{Sink, Source, Words};
use td_stream::{End, serve_stream};
use td_trader::Traders;
use td_walk::Peers;

/// Serves the messages of a source in order, and writes their replies to a sink, until the stream ends.
///
/// Where the source is whole messages that a server can be sent, within a session's limits, and none of the
/// outside fails, those before the first CloseConnection or MessageError are all served, or memory runs out.
pub fn serve_connection<T: Traders, S: Source, K: Sink, P: Peers, W: Words, J: Journal>(
    alloc: Global,
    traders: &mut T,
    room: &mut Room<J>,
    source: &mut S,
    sink: &mut K,
    peers: &mut P,
    words: &mut W,
) -> End
    requires { IsNew room.old }
    ensures same { T.same traders.old traders.new }
    ensures same_peers { P.same peers.old peers.new }
    ensures same_words { W.same words.old words.new }
    ensures serves { Serves T.others T.later room.old.home
        (scene_in (backend_seen (T.world traders.old)
        (peers_seen (P.calls peers.old) (P.faults peers.old)) (W.word words.old)) room.old)
        (scene_in (backend_seen (T.world traders.new)
        (peers_seen (P.calls peers.new) (P.faults peers.new)) (W.word words.new)) room.new)
        room.new.journal result (outside (S.left source.old) (S.faults source.old)
        (K.written sink.old) (K.faults sink.old))
        (outside (S.left source.new) (S.faults source.new) (K.written sink.new)
        (K.faults sink.new)) }
    ensures faults { P.faults peers.old ≤ P.faults peers.new }
    ensures complete { Completes T.others T.later room.old.home
        (scene_in (backend_seen (T.world traders.old)
        (peers_seen (P.calls peers.old) (P.faults peers.old)) (W.word words.old)) room.old)
        (scene_in (backend_seen (T.world traders.new)
        (peers_seen (P.calls peers.new) (P.faults peers.new)) (W.word words.new)) room.new) result
        (outside (S.left source.old) (S.faults source.old) (K.written sink.old) (K.faults sink.old))
        (outside (S.left source.new) (S.faults source.new) (K.written sink.new)
        (K.faults sink.new)) }
{
    let mut servant = TraderServant {
        traders,
        room,
        peers,
        words,
    };
    let end = serve_lent(alloc, &mut servant, source, sink);
    let TraderServant {
        traders,
        room,
        peers,
        words,
    } = servant;
    give_back(traders);
    give_back(room);
    give_back(peers);
    give_back(words);
    end
}

// A function of its own, since what a struct of borrows lends is known again only where the struct
// is taken apart behind a call.
/// Serves a session of what its servant is lent.
fn serve_lent<'t, 'r, 'p, 'w, T: Traders, S: Source, K: Sink, P: Peers, W: Words, J: Journal>(
    alloc: Global,
    servant: &mut TraderServant<'t, 'r, 'p, 'w, T, J, P, W>,
    source: &mut S,
    sink: &mut K,
) -> End
    requires { IsNew servant.old.room.now }
    ensures named_traders { servant.new.traders.ghost_name ≡ servant.old.traders.ghost_name }
    ensures named_room { servant.new.room.ghost_name ≡ servant.old.room.ghost_name }
    ensures named_peers { servant.new.peers.ghost_name ≡ servant.old.peers.ghost_name }
    ensures named_words { servant.new.words.ghost_name ≡ servant.old.words.ghost_name }
    ensures same { T.same servant.old.traders.now servant.new.traders.now }
    ensures same_peers { P.same servant.old.peers.now servant.new.peers.now }
    ensures same_words { W.same servant.old.words.now servant.new.words.now }
    ensures serves { Serves T.others T.later servant.old.room.now.home
        (scene_in (backend_seen (T.world servant.old.traders.now)
        (peers_seen (P.calls servant.old.peers.now) (P.faults servant.old.peers.now))
        (W.word servant.old.words.now)) servant.old.room.now)
        (scene_in (backend_seen (T.world servant.new.traders.now)
        (peers_seen (P.calls servant.new.peers.now) (P.faults servant.new.peers.now))
        (W.word servant.new.words.now)) servant.new.room.now)
        servant.new.room.now.journal result
        (outside (S.left source.old) (S.faults source.old) (K.written sink.old) (K.faults sink.old))
        (outside (S.left source.new) (S.faults source.new) (K.written sink.new)
        (K.faults sink.new)) }
    ensures faults { P.faults servant.old.peers.now ≤ P.faults servant.new.peers.now }
    ensures complete { Completes T.others T.later servant.old.room.now.home
        (scene_in (backend_seen (T.world servant.old.traders.now)
        (peers_seen (P.calls servant.old.peers.now) (P.faults servant.old.peers.now))
        (W.word servant.old.words.now)) servant.old.room.now)
        (scene_in (backend_seen (T.world servant.new.traders.now)
        (peers_seen (P.calls servant.new.peers.now) (P.faults servant.new.peers.now))
        (W.word servant.new.words.now)) servant.new.room.now) result
        (outside (S.left source.old) (S.faults source.old) (K.written sink.old) (K.faults sink.old))
        (outside (S.left source.new) (S.faults source.new) (K.written sink.new)
        (K.faults sink.new)) }
{
    let end = serve_stream(alloc, servant, source, sink);
    (*servant.peers).tell_gifts();
    end
}
