//! A message is answered while replies are held: they go out before a peer is called.

ghost use Rattle.std.specs.Prelude.{◌≡◌, ◌<◌, ◌^◌, OnOk, OnErr};
ghost use Rattle.td_servant.specs.Linking.{peers_seen};
ghost use Rattle.td_dispatch.specs.Backends.{backend_seen};
ghost use Rattle.td_session.specs.Serving.{ServesMessage, Stays};
ghost use Rattle.td_session.specs.Stages.{stage_in};
ghost use Rattle.td_stream.specs.Heads.{HasHead, IsMessage};

use crate::room::Room;
use crate::servant::answer_lent;
use std::alloc::Global;
use td_cdr::Memory;
use td_giop::Raw;
use td_journal::Journal;
use td_out::Words;
use td_sending::SendingPeers;
use td_stream::{Head, SendsHeld};
use td_trader::Traders;
use td_walk::Peers;

// What a borrow lends to a generic `&mut B` may hold no further borrow whose lifetime the caller
// names. So each wrapper (`SendingPeers`, `BackendRef`) is made in a function that is generic in
// what it wraps: `answer` of `TraderServant`, `answer_sending` and `answer_lent` are one step.
/// Answers a message with peers whose calls send what is held first. Its own reply stands in the room then.
///
/// # Errors
///
/// `Memory` where there is no room to note a Request; nothing was done then.
pub(crate) fn answer_sending<'p, 'h, T: Traders, P: Peers, G: SendsHeld, W: Words, J: Journal>(
    alloc: Global,
    traders: &mut T,
    room: &mut Room<J>,
    sending: &mut SendingPeers<'p, 'h, P, G>,
    words: &mut W,
    message: &Raw<'_>,
    head: &Head<'_>,
) -> Result<(), Memory>
    requires whole { IsMessage message.now }
    requires head { HasHead message.now head.now }
    requires numbers { room.old.desk.1 < 2 ^ 63 }
    ensures same { T.same traders.old traders.new }
    ensures named_peers { sending.new.peers.ghost_name ≡ sending.old.peers.ghost_name }
    ensures named_held { sending.new.held.ghost_name ≡ sending.old.held.ghost_name }
    ensures same_peers { P.same sending.old.peers.now sending.new.peers.now }
    ensures held { G.reaches sending.old.held.now sending.new.held.now }
    ensures same_words { W.same words.old words.new }
    ensures ok { OnOk result (ServesMessage T.others T.later
        (stage_in (backend_seen (T.world traders.old)
        (peers_seen (P.calls sending.old.peers.now) (P.faults sending.old.peers.now))
        (W.word words.old)) room.old) message.now.bytes.now room.new.replies
        (stage_in (backend_seen (T.world traders.new)
        (peers_seen (P.calls sending.new.peers.now) (P.faults sending.new.peers.now))
        (W.word words.new)) room.new)) }
    ensures err { OnErr result (Stays
        (stage_in (backend_seen (T.world traders.old)
        (peers_seen (P.calls sending.old.peers.now) (P.faults sending.old.peers.now))
        (W.word words.old)) room.old)
        (stage_in (backend_seen (T.world traders.new)
        (peers_seen (P.calls sending.new.peers.now) (P.faults sending.new.peers.now))
        (W.word words.new)) room.new)) }
{
    answer_lent(alloc, traders, room, sending, words, message, head)
}
