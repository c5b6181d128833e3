//! The session.

ghost use Rattle.std.specs.Prelude.{◌≡◌, false, IfOk};
ghost use Rattle.td_cell.specs.Passes.{Belongs, SameCell, SameNumbers, knowledge};
ghost use Rattle.td_desk.specs.Sharing.{InOrder};
ghost use Rattle.td_objects.specs.References.{IsAddress};
ghost use Rattle.td_servant.specs.Linking.{peers_seen};
ghost use Rattle.td_dispatch.specs.Backends.{backend_seen};
ghost use Rattle.td_session.specs.Rooms.{IsNew};
ghost use Rattle.td_shared.specs.Sessions.{ServesFrom, ServesSharing, ends_by};
ghost use Rattle.td_shared.specs.Stages.{shared_in};
ghost use Rattle.td_stream.specs.Outside.{outside};

use crate::journal::SharedJournal;
use crate::servant::{SharedServant, give_back};
use crate::sharing::Sharing;
use std::alloc::Global;
use std::sync::Wait;
use td_cdr::{Memory, Twin};
use td_desk::{DeskPass, SharedDesk};
use td_dispatch::Replies;
use td_journal::KeptJournal;
use td_out::{Sink, Source, Words};
use td_session::{Room, TraderServant};
use td_stream::{End, serve_stream};
use td_trader::Traders;
use td_walk::{Address, Peers};

/// Serves the messages of a source in order, and writes their replies to a sink, until the stream ends. Iterators stand
/// on the desk, which other sessions share: each message for one is a call of the desk, whose place in the desk's
/// history is noted. Any other message draws one number from the desk, for the iterator that it may keep, which is on
/// the desk before its reply is written. What is noted goes behind the journal.
///
/// `Long` is also answered where a call of the desk was `Full`.
pub fn serve_shared<R: Wait, J: SharedJournal, T: Traders, S: Source, K: Sink, P: Peers, W: Words>(
    rt: &R,
    alloc: Global,
    traders: &mut T,
    desk: &SharedDesk,
    pass: &mut DeskPass,
    home: &Address,
    journal: &mut J,
    source: &mut S,
    sink: &mut K,
    peers: &mut P,
    words: &mut W,
) -> End
    requires own { Belongs pass.old desk.now.cell }
    requires order { InOrder (knowledge pass.old) }
    requires home { IsAddress home.now }
    ensures own { SameCell pass.new pass.old }
    ensures numbers { SameNumbers (knowledge pass.old) (knowledge pass.new) }
    ensures order { InOrder (knowledge pass.new) }
    ensures same { T.same traders.old traders.new }
    ensures same_peers { P.same peers.old peers.new }
    ensures same_words { W.same words.old words.new }
    ensures serves { ServesFrom T.others T.later home.now
        (backend_seen (T.world traders.old) (peers_seen (P.calls peers.old) (P.faults peers.old))
        (W.word words.old)) (knowledge pass.old) (J.entries journal.old)
        (backend_seen (T.world traders.new) (peers_seen (P.calls peers.new) (P.faults peers.new))
        (W.word words.new)) (knowledge pass.new) (J.entries journal.new) result
        (outside (S.left source.old) (S.faults source.old) (K.written sink.old) (K.faults sink.old))
        (outside (S.left source.new) (S.faults source.new) (K.written sink.new)
        (K.faults sink.new)) }
{
    let Ok((mut room, replies)) = rooms_at(alloc, home) else {
        return End::Memory;
    };
    let sharing = Sharing {
        rt,
        desk,
        pass,
        journal,
        full: false,
    };
    let other = TraderServant {
        traders,
        room: &mut room,
        peers,
        words,
    };
    let mut servant = SharedServant {
        sharing,
        other,
        replies,
        keyed: false,
    };
    let end = serve_lent(alloc, &mut servant, source, sink);
    // What is owned is dropped by name: dropped at the end, it would leave unproved what was given back.
    let SharedServant {
        sharing,
        other,
        replies,
        ..
    } = servant;
    drop(replies);
    let Sharing { pass, journal, .. } = sharing;
    let TraderServant {
        traders,
        room: lent,
        peers,
        words,
    } = other;
    give_back(traders);
    give_back(pass);
    give_back(lent);
    give_back(journal);
    give_back(peers);
    give_back(words);
    drop(room);
    end
}

/// A room for a session with the traders that are reached at this address, and one for its replies to messages for
/// iterators.
fn rooms_at(alloc: Global, home: &Address) -> Result<(Room<KeptJournal>, Replies), Memory>
    requires { IsAddress home.now }
    ensures new { IfOk result (λ r. IsNew r.0) }
    ensures home { IfOk result (λ r. r.0.home ≡ home.now) }
{
    let host = home.host.copy(alloc)?;
    let address = Address {
        host,
        port: home.port,
        minor: home.minor,
    };
    let room = Room::new(alloc, address)?;
    Ok((room, Replies::new(alloc)?))
}

/// The same, of what is lent, where the desk isn't known to be full.
fn serve_lent<
    'd,
    't,
    's,
    'r,
    'j,
    'p,
    'w,
    R: Wait,
    J: SharedJournal,
    T: Traders,
    S: Source,
    K: Sink,
    P: Peers,
    W: Words,
>(
    alloc: Global,
    servant: &mut SharedServant<'d, 't, 's, 'r, 'j, 'p, 'w, R, J, T, P, W>,
    source: &mut S,
    sink: &mut K,
) -> End
    requires { servant.old.sharing.full ≡ false }
    ensures named_traders { servant.new.other.traders.ghost_name
        ≡ servant.old.other.traders.ghost_name }
    ensures named_pass { servant.new.sharing.pass.ghost_name ≡ servant.old.sharing.pass.ghost_name }
    ensures named_room { servant.new.other.room.ghost_name ≡ servant.old.other.room.ghost_name }
    ensures named_journal { servant.new.sharing.journal.ghost_name
        ≡ servant.old.sharing.journal.ghost_name }
    ensures named_peers { servant.new.other.peers.ghost_name ≡ servant.old.other.peers.ghost_name }
    ensures named_words { servant.new.other.words.ghost_name ≡ servant.old.other.words.ghost_name }
    ensures desk { servant.new.sharing.desk ≡ servant.old.sharing.desk }
    ensures cell { SameCell servant.new.sharing.pass.now servant.old.sharing.pass.now }
    ensures numbers { SameNumbers (knowledge servant.old.sharing.pass.now)
        (knowledge servant.new.sharing.pass.now) }
    ensures same { T.same servant.old.other.traders.now servant.new.other.traders.now }
    ensures same_peers { P.same servant.old.other.peers.now servant.new.other.peers.now }
    ensures same_words { W.same servant.old.other.words.now servant.new.other.words.now }
    ensures serves { ServesSharing T.others T.later
        (shared_in (backend_seen (T.world servant.old.other.traders.now)
        (peers_seen (P.calls servant.old.other.peers.now) (P.faults servant.old.other.peers.now))
        (W.word servant.old.other.words.now)) servant.old.other.room.now
        (knowledge servant.old.sharing.pass.now) (J.entries servant.old.sharing.journal.now))
        (shared_in (backend_seen (T.world servant.new.other.traders.now)
        (peers_seen (P.calls servant.new.other.peers.now) (P.faults servant.new.other.peers.now))
        (W.word servant.new.other.words.now)) servant.new.other.room.now
        (knowledge servant.new.sharing.pass.now) (J.entries servant.new.sharing.journal.now)) result
        (outside (S.left source.old) (S.faults source.old) (K.written sink.old) (K.faults sink.old))
        (outside (S.left source.new) (S.faults source.new) (K.written sink.new)
        (K.faults sink.new)) }
{
    let streamed = serve_stream(alloc, servant, source, sink);
    ends_by(servant.sharing.full, streamed)
}

/// How a session ends whose stream ends so: where the desk was full, that is why it ended when out of memory.
fn ends_by(full: bool, end: End) -> End
    ensures { result ≡ ends_by full end }
{
    match end {
        End::Memory => { if full { End::Long } else { End::Memory } }
        other => other,
    }
}
