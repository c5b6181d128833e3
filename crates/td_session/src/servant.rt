//! The servant: the traders, peers and words of a session, with its room.

ghost use Rattle.std.specs.Prelude.{◌≡◌, ◌<◌, ◌^◌, OnOk, OnErr};
ghost use Rattle.std.proofs.Common.{◌∙◌, refl};
ghost use Rattle.td_servant.specs.Linking.{peers_seen};
ghost use Rattle.td_dispatch.specs.Backends.{backend_seen};
ghost use Rattle.td_session.specs.NumberLaws.{message-spends};
ghost use Rattle.td_session.specs.Serving.{ServesMessage, Stays};
ghost use Rattle.td_session.specs.Stages.{stage_in};
ghost use Rattle.td_stream.specs.Heads.{HasHead, IsMessage};

use crate::answering::answer_message;
use crate::room::Room;
use crate::sending::answer_sending;
use std::alloc::Global;
use td_cdr::Memory;
use td_dispatch::BackendRef;
use td_giop::Raw;
use td_journal::Journal;
use td_out::Words;
use td_sending::SendingPeers;
use td_stream::{Head, SendsHeld, Servant};
use td_trader::Traders;
use td_walk::Peers;

/// Answers the messages of a connection with what its session is lent.
#[derive(Drop)]
pub struct TraderServant<'t, 'r, 'p, 'w, T, J: Journal, P, W> {
    pub traders: &'t mut T,
    pub room: &'r mut Room<J>,
    pub peers: &'p mut P,
    pub words: &'w mut W,
}

impl<'t, 'r, 'p, 'w, T: Traders, J: Journal, P: Peers, W: Words> Servant
    for TraderServant<'t, 'r, 'p, 'w, T, J, P, W> {
    ghost serves = { λ s message reply u. ServesMessage T.others T.later
        (stage_in (backend_seen (T.world s.traders.now)
        (peers_seen (P.calls s.peers.now) (P.faults s.peers.now)) (W.word s.words.now)) s.room.now)
        message reply (stage_in (backend_seen (T.world u.traders.now)
        (peers_seen (P.calls u.peers.now) (P.faults u.peers.now)) (W.word u.words.now))
        u.room.now) };

    ghost stays = { λ s u. Stays
        (stage_in (backend_seen (T.world s.traders.now)
        (peers_seen (P.calls s.peers.now) (P.faults s.peers.now)) (W.word s.words.now)) s.room.now)
        (stage_in (backend_seen (T.world u.traders.now)
        (peers_seen (P.calls u.peers.now) (P.faults u.peers.now)) (W.word u.words.now))
        u.room.now) };

    ghost same = { λ a b. (a.traders.ghost_name ≡ b.traders.ghost_name)
        × (a.room.ghost_name ≡ b.room.ghost_name)
        × (a.peers.ghost_name ≡ b.peers.ghost_name) × (a.words.ghost_name ≡ b.words.ghost_name)
        × T.same a.traders.now b.traders.now × P.same a.peers.now b.peers.now
        × W.same a.words.now b.words.now };

    ghost content = { λ s. s.room.now.replies };

    ghost budget = { λ s. s.room.now.desk.1 };

    ghost spends = { λ s message reply u h. message-spends T.others T.later
        (stage_in (backend_seen (T.world s.traders.now)
        (peers_seen (P.calls s.peers.now) (P.faults s.peers.now)) (W.word s.words.now)) s.room.now)
        message reply (stage_in (backend_seen (T.world u.traders.now)
        (peers_seen (P.calls u.peers.now) (P.faults u.peers.now)) (W.word u.words.now)) u.room.now)
        h };

    ghost stays_itself = { λ _. refl };

    ghost same_itself = { λ a. (
      refl,
      refl,
      refl,
      refl,
      T.same_itself a.traders.now,
      P.same_self a.peers.now,
      W.same_self a.words.now,
    ) };

    ghost same_on = { λ a b c p q. (
      p.0 ∙ q.0,
      p.1 ∙ q.1,
      p.2 ∙ q.2,
      p.3 ∙ q.3,
      T.same_on a.traders.now b.traders.now c.traders.now p.4 q.4,
      P.same_on a.peers.now b.peers.now c.peers.now p.5 q.5,
      W.same_on a.words.now b.words.now c.words.now p.6 q.6,
    ) };

    fn answer<G: SendsHeld>(
        &mut self,
        alloc: Global,
        message: &Raw<'_>,
        head: &Head<'_>,
        held: &mut G,
    ) -> Result<(), Memory> {
        // Replies that are held go out before a peer is called.
        let mut sending = SendingPeers {
            peers: &mut *self.peers,
            held,
        };
        let answered = answer_sending(
            alloc,
            self.traders,
            self.room,
            &mut sending,
            self.words,
            message,
            head,
        );
        let SendingPeers { peers, held } = sending;
        give_back(peers);
        give_back(held);
        answered
    }

    fn reply(&self) -> &[u8] {
        self.room.reply()
    }
}

/// Answers a message with what is lent for it.
pub(crate) fn answer_lent<T: Traders, J: Journal, P: Peers, W: Words>(
    alloc: Global,
    traders: &mut T,
    room: &mut Room<J>,
    peers: &mut P,
    words: &mut W,
    message: &Raw<'_>,
    head: &Head<'_>,
) -> Result<(), Memory>
    requires whole { IsMessage message.now }
    requires head { HasHead message.now head.now }
    requires numbers { room.old.desk.1 < 2 ^ 63 }
    ensures same { T.same traders.old traders.new }
    ensures same_peers { P.same peers.old peers.new }
    ensures same_words { W.same words.old words.new }
    ensures ok { OnOk result (ServesMessage T.others T.later
        (stage_in (backend_seen (T.world traders.old)
        (peers_seen (P.calls peers.old) (P.faults peers.old)) (W.word words.old)) room.old)
        message.now.bytes.now room.new.replies
        (stage_in (backend_seen (T.world traders.new)
        (peers_seen (P.calls peers.new) (P.faults peers.new)) (W.word words.new)) room.new)) }
    ensures err { OnErr result (Stays
        (stage_in (backend_seen (T.world traders.old)
        (peers_seen (P.calls peers.old) (P.faults peers.old)) (W.word words.old)) room.old)
        (stage_in (backend_seen (T.world traders.new)
        (peers_seen (P.calls peers.new) (P.faults peers.new)) (W.word words.new)) room.new)) }
{
    let mut backend = BackendRef {
        traders,
        peers,
        words,
    };
    answer_message(alloc, &mut backend, room, message, head)
}

/// Ends a loan here, so that what was lent is known to be what it has become.
pub(crate) fn give_back<T>(_lent: &mut T)
    ensures { _lent.new ≡ _lent.old }
{}
