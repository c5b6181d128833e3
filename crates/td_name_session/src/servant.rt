//! The servant: the naming contexts of a session, with its room.

ghost use Rattle.std.specs.Prelude.{◌≡◌};
ghost use Rattle.std.proofs.Common.{◌∙◌, refl};
ghost use Rattle.td_name_session.specs.NumberLaws.{message_spends};
ghost use Rattle.td_name_session.specs.Stages.{ServesMessage, Stays, stage_in};

use crate::answering::answer_message;
use crate::room::NameRoom;
use std::alloc::Global;
use td_cdr::Memory;
use td_giop::Raw;
use td_naming::Names;
use td_stream::{Head, SendsHeld, Servant};

/// Answers the messages of a connection with what its session is lent.
pub(crate) struct NameServant<'n, 'r, N> {
    pub(crate) names: &'n mut N,
    pub(crate) room: &'r mut NameRoom,
}

impl<'n, 'r, N: Names> Servant for NameServant<'n, 'r, N> {
    ghost serves = { λ s message reply u.
        ServesMessage N.others (stage_in (N.view s.names.now) s.room.now) message reply
        (stage_in (N.view u.names.now) u.room.now) };

    ghost stays = { λ s u. Stays (stage_in (N.view s.names.now) s.room.now)
        (stage_in (N.view u.names.now) u.room.now) };

    ghost same = { λ a b. (a.names.ghost_name ≡ b.names.ghost_name)
        × (a.room.ghost_name ≡ b.room.ghost_name) × N.same a.names.now b.names.now };

    ghost content = { λ s. s.room.now.replies };

    ghost budget = { λ s. s.room.now.desk.1 };

    ghost spends = { λ s message reply u h.
        message_spends N.others (stage_in (N.view s.names.now) s.room.now) message reply
        (stage_in (N.view u.names.now) u.room.now) h };

    ghost stays_itself = { λ _. refl };

    ghost same_itself = { λ a. (refl, refl, N.same_itself a.names.now) };

    ghost same_on = { λ a b c p q. (
      p.0 ∙ q.0,
      p.1 ∙ q.1,
      N.same_on a.names.now b.names.now c.names.now p.2 q.2,
    ) };

    fn answer<G: SendsHeld>(
        &mut self,
        alloc: Global,
        message: &Raw<'_>,
        head: &Head<'_>,
        _held: &mut G,
    ) -> Result<(), Memory> {
        answer_message(alloc, self.names, self.room, message, head)
    }

    fn reply(&self) -> &[u8] {
        self.room.reply()
    }
}

/// Ends a loan here, so that what was lent is known to be what it has become.
pub(crate) fn give_back<T>(_lent: &mut T)
    ensures { _lent.new ≡ _lent.old }
{}
