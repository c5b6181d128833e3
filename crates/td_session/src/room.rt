//! What a session keeps.

use std::alloc::Global;
use std::marker::Model;
use td_cdr::Memory;
use td_dispatch::Replies;
use td_iter::{Desk, DeskEntry as Kept, Item};
use td_journal::{Journal, KeptJournal};
use td_servant::Entry;
use td_walk::Address;

/// What a session keeps beside what it stands on.
#[derive(Drop)]
pub struct Room<J: Journal> {
    /// Where the group of traders is reached.
    pub(crate) home: Address,
    /// The iterators of the connection.
    pub(crate) desk: Desk,
    /// What is noted of each Request, in order.
    pub(crate) journal: J,
    /// The reply to the message in front.
    pub(crate) replies: Replies,
}

impl<J: Journal> Model for Room<J> {
    ghost use Rattle.std.specs.Coded.{codes};
    ghost use Rattle.td_typecode.specs.contracts.code.TypeCode as code;
    ghost use Rattle.td_typecode.specs.contracts.code.Value as value;
    ghost use Rattle.td_objects.specs.References.{IsAddress};
    ghost use Rattle.td_session.specs.Rooms.{Room as TheRoom};

    ghost Value = { TheRoom };

    ghost coded = { Prim.hlevel (codes, code.the_row.coded, value.the_row.coded) };

    ghost view = { λ r. record {
      home = r.home;
      desk = r.desk;
      journal = J.entries r.journal;
      replies = r.replies;
    } };

    ghost invariant = { λ r. IsAddress r.home };
}

impl<J: Journal> Room<J> {
    ghost use Rattle.std.specs.Prelude.{◌≡◌, ◌≤◌, ◌^◌, [], IfOk, slice_get};
    ghost use Rattle.td_iter.specs.Desks.{without_oldest};
    ghost use Rattle.td_objects.specs.References.{IsAddress};
    ghost use Rattle.td_session.specs.Rooms.{IsNew};

    /// A room for one session with the traders that are reached at this address.
    ///
    /// # Errors
    ///
    /// `Memory` only when out of memory.
    pub fn new(alloc: Global, home: Address) -> Result<Room<J>, Memory>
        requires { IsAddress home }
        ensures new { IfOk result (λ room. IsNew room) }
        ensures home { IfOk result (λ room. room.home ≡ home) }
    {
        let desk = Desk::new(alloc, 1)?;
        let replies = Replies::new(alloc)?;
        Ok(Room {
            home,
            desk,
            journal: J::empty(alloc),
            replies,
        })
    }

    /// The reply to the last message.
    pub fn reply(&self) -> &[u8]
        ensures { result.now ≡ self.now.replies }
    {
        self.replies.bytes()
    }

    /// Leaves no iterator, and numbers them from here on. Takes no memory.
    pub fn restart(&mut self, first: u64)
        requires low { 1 ≤ first }
        requires high { first ≤ 2 ^ 62 }
        ensures { self.new ≡ record self.old { desk = ([], first) } }
    {
        self.desk.restart(first);
    }

    /// Takes the oldest iterator out.
    pub fn take_item(&mut self) -> Option<Kept<Item>>
        ensures taken { result ≡ slice_get self.old.desk.0 0 }
        ensures rest { self.new ≡ record self.old { desk = without_oldest self.old.desk } }
    {
        self.desk.pop_front()
    }

    /// The journal alone; the iterators and the room for replies are dropped.
    pub fn into_journal(self) -> J
        ensures { J.entries result ≡ self.journal }
    {
        let Room {
            home,
            desk,
            journal,
            replies,
        } = self;
        drop(home);
        drop(desk);
        drop(replies);
        journal
    }
}

impl Room<KeptJournal> {
    ghost use Rattle.std.specs.Prelude.{◌≡◌, ◌++◌, [], IfNone};
    ghost use Rattle.td_journal.specs.Lists.{as_list};

    /// What was noted of each Request that was served, in order.
    pub fn journal(&self) -> &[Entry]
        ensures { result.now ≡ self.now.journal }
    {
        self.journal.entries()
    }

    /// Takes the entry out of the journal that was noted last.
    pub fn take_entry(&mut self) -> Option<Entry>
        ensures taken { self.old.journal ≡ self.new.journal ++ as_list result }
        ensures none { IfNone result (self.old.journal ≡ []) }
        ensures rest { self.new ≡ record self.old { journal = self.new.journal } }
    {
        self.journal.pop()
    }
}
