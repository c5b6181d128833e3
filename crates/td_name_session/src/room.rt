//! What a session keeps.

use crate::iterators::Iterators;
use crate::replies::Replies;
use std::alloc::Global;
use std::marker::Model;
use td_cdr::{List, Memory};

/// What a session keeps beside the contexts that it stands on.
#[derive(Drop)]
pub struct NameRoom {
    /// The iterators of the connection.
    pub(crate) iterators: Iterators,
    /// The point of each Request and LocateRequest that was served, in order.
    pub(crate) journal: Vec<u64>,
    /// The reply to the message in front.
    pub(crate) replies: Replies,
}

impl Model for NameRoom {
    ghost use Rattle.std.specs.Coded.{codes};
    ghost use Rattle.td_name_session.specs.Stages.{Room};

    ghost Value = { Room };

    ghost coded = { Prim.hlevel codes };

    ghost view = { λ r. record {
      desk = r.iterators;
      journal = r.journal.items;
      replies = r.replies;
    } };
}

impl NameRoom {
    ghost use Rattle.std.specs.Prelude.{◌≡◌, IfOk};
    ghost use Rattle.td_name_session.specs.Stages.{IsNew};

    /// A room for one session.
    ///
    /// # Errors
    ///
    /// `Memory` only when out of memory.
    pub fn new(alloc: Global) -> Result<NameRoom, Memory>
        ensures { IfOk result (λ room. IsNew room) }
    {
        let iterators = Iterators::new(alloc)?;
        let replies = Replies::new(alloc)?;
        Ok(NameRoom {
            iterators,
            journal: Vec::new(alloc),
            replies,
        })
    }

    /// The point of each Request and LocateRequest that was served, in order: of an accepted change how many were
    /// accepted before it, and of any other how many are seen.
    pub fn journal(&self) -> &[u64]
        ensures { result.now ≡ self.now.journal }
    {
        self.journal.as_slice()
    }

    /// The journal alone, once the session has ended. Takes no memory.
    pub fn into_journal(self) -> List<u64>
        ensures { result ≡ self.journal }
    {
        let NameRoom {
            iterators,
            journal,
            replies,
        } = self;
        drop(iterators);
        drop(replies);
        List::from_vec(journal)
    }

    /// The reply to the last message.
    pub(crate) fn reply(&self) -> &[u8]
        ensures { result.now ≡ self.now.replies }
    {
        self.replies.bytes()
    }
}
