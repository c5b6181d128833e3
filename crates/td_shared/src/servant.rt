//! The servant: what a session is lent, with the desk that it shares.

ghost use Rattle.std.specs.Prelude.{◌≡◌, length, if◌then◌else◌};
ghost use Rattle.td_cell.specs.Passes.{SameCell, SameNumbers, knowledge};
ghost use Rattle.td_servant.specs.Linking.{peers_seen};
ghost use Rattle.td_dispatch.specs.Backends.{backend_seen};
ghost use Rattle.td_shared.specs.Serving.{ServesWith, StaysWith};
ghost use Rattle.td_shared.specs.Stages.{shared_in};

use crate::answering::answer_other;
use crate::journal::SharedJournal;
use crate::keyed::{answer_keyed, iterator_of};
use crate::sharing::{Sharing, take_room};
use std::alloc::Global;
use std::sync::Wait;
use td_cdr::Memory;
use td_dispatch::Replies;
use td_giop::Raw;
use td_journal::KeptJournal;
use td_out::Words;
use td_session::TraderServant;
use td_stream::{Head, SendsHeld, Servant};
use td_trader::Traders;
use td_walk::Peers;

/// Answers the messages of a connection with what its session is lent.
#[derive(Drop)]
pub(crate) struct SharedServant<'d, 't, 's, 'r, 'j, 'p, 'w, R, J, T, P, W> {
    pub(crate) sharing: Sharing<'d, 's, 'j, R, J>,
    /// Answers the messages that are for no iterator.
    pub(crate) other: TraderServant<'t, 'r, 'p, 'w, T, KeptJournal, P, W>,
    /// The replies to messages for iterators.
    pub(crate) replies: Replies,
    /// Whether the last message was for an iterator.
    pub(crate) keyed: bool,
    ghost nothing_noted: { length other.room.now.journal ≡ 0 },
}

impl<'d, 't, 's, 'r, 'j, 'p, 'w, R: Wait, J: SharedJournal, T: Traders, P: Peers, W: Words> Servant
    for SharedServant<'d, 't, 's, 'r, 'j, 'p, 'w, R, J, T, P, W> {
    ghost serves = { λ s message reply u. ServesWith T.others T.later s.sharing.full u.sharing.full
        (shared_in (backend_seen (T.world s.other.traders.now)
        (peers_seen (P.calls s.other.peers.now) (P.faults s.other.peers.now))
        (W.word s.other.words.now)) s.other.room.now
        (knowledge s.sharing.pass.now) (J.entries s.sharing.journal.now)) message reply
        (shared_in (backend_seen (T.world u.other.traders.now)
        (peers_seen (P.calls u.other.peers.now) (P.faults u.other.peers.now))
        (W.word u.other.words.now)) u.other.room.now
        (knowledge u.sharing.pass.now) (J.entries u.sharing.journal.now)) };

    ghost stays = { λ s u. StaysWith s.sharing.full u.sharing.full
        (shared_in (backend_seen (T.world s.other.traders.now)
        (peers_seen (P.calls s.other.peers.now) (P.faults s.other.peers.now))
        (W.word s.other.words.now)) s.other.room.now
        (knowledge s.sharing.pass.now) (J.entries s.sharing.journal.now))
        (shared_in (backend_seen (T.world u.other.traders.now)
        (peers_seen (P.calls u.other.peers.now) (P.faults u.other.peers.now))
        (W.word u.other.words.now)) u.other.room.now
        (knowledge u.sharing.pass.now) (J.entries u.sharing.journal.now)) };

    ghost same = { λ a b. (a.other.traders.ghost_name ≡ b.other.traders.ghost_name)
        × (a.sharing.pass.ghost_name ≡ b.sharing.pass.ghost_name)
        × (a.other.room.ghost_name ≡ b.other.room.ghost_name)
        × (a.sharing.journal.ghost_name ≡ b.sharing.journal.ghost_name)
        × (a.other.peers.ghost_name ≡ b.other.peers.ghost_name)
        × (a.other.words.ghost_name ≡ b.other.words.ghost_name) × (b.sharing.desk ≡ a.sharing.desk)
        × SameCell b.sharing.pass.now a.sharing.pass.now
        × SameNumbers (knowledge a.sharing.pass.now) (knowledge b.sharing.pass.now)
        × T.same a.other.traders.now b.other.traders.now
        × P.same a.other.peers.now b.other.peers.now
        × W.same a.other.words.now b.other.words.now };

    ghost content = { λ s. if s.keyed then s.replies else s.other.room.now.replies };

    // Its numbers are the desk's.
    ghost budget = { λ s. 0 };

    ghost use Rattle.std.proofs.Common.{refl, ◌∙◌};
    ghost use Rattle.td_shared.specs.Laws.{least, numbers_on, numbers_same, stays_same};

    ghost spends = { λ s message reply u h. least _ };

    ghost stays_itself = { λ a. stays_same a.sharing.full
        (shared_in (backend_seen (T.world a.other.traders.now)
        (peers_seen (P.calls a.other.peers.now) (P.faults a.other.peers.now))
        (W.word a.other.words.now)) a.other.room.now
        (knowledge a.sharing.pass.now) (J.entries a.sharing.journal.now)) };

    ghost same_itself = { λ a. (
      refl,
      refl,
      refl,
      refl,
      refl,
      refl,
      refl,
      refl,
      numbers_same _,
      T.same_itself a.other.traders.now,
      P.same_self a.other.peers.now,
      W.same_self a.other.words.now,
    ) };

    ghost same_on = { λ a b c p q. (
      p.0 ∙ q.0,
      p.1 ∙ q.1,
      p.2 ∙ q.2,
      p.3 ∙ q.3,
      p.4 ∙ q.4,
      p.5 ∙ q.5,
      q.6 ∙ p.6,
      q.7 ∙ p.7,
      numbers_on _ _ _ p.8 q.8,
      T.same_on a.other.traders.now b.other.traders.now c.other.traders.now p.9 q.9,
      P.same_on a.other.peers.now b.other.peers.now c.other.peers.now p.10 q.10,
      W.same_on a.other.words.now b.other.words.now c.other.words.now p.11 q.11,
    ) };

    fn answer<G: SendsHeld>(
        &mut self,
        alloc: Global,
        message: &Raw<'_>,
        head: &Head<'_>,
        held: &mut G,
    ) -> Result<(), Memory> {
        // Room for what is noted is taken before anything is done.
        take_room(&mut self.sharing)?;
        match iterator_of(message, head) {
            Some(call) => {
                self.keyed = true;
                answer_keyed(
                    alloc,
                    &mut self.sharing,
                    &mut self.replies,
                    message,
                    head,
                    &call,
                )
            }
            None => {
                self.keyed = false;
                answer_other(
                    alloc,
                    &mut self.sharing,
                    &mut self.other,
                    held,
                    message,
                    head,
                )
            }
        }
    }

    fn reply(&self) -> &[u8] {
        if self.keyed {
            self.replies.bytes()
        } else {
            self.other.reply()
        }
    }
}

/// Ends a loan here, so that what was lent is known to be what it has become.
pub(crate) fn give_back<T>(_lent: &mut T)
    ensures { _lent.new ≡ _lent.old }
{}
