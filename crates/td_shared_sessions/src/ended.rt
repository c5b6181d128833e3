//! Where sessions go that have ended, and in the end the traders.

ghost use Rattle.std.specs.Prelude.{◌≡◌, [], None, Some, Option, IfOk, OnOk, OnErr, is_some, map, option_map};
ghost use Rattle.td_server.specs.Sessions.{with_closed, with_session};
ghost use Rattle.td_shared_sessions.specs.Sessions.{HandedSessions, sharing};

use std::alloc::Global;
use std::marker::PhantomData;
use td_accept::Limited;
use td_cdr::{List, Memory};
use td_session::End;
use td_shared::SharedJournal;
use td_trader::Solo;

/// Where sessions go that have ended, and in the end the traders.
pub trait Ended<V> {
    /// What sessions note their messages in.
    type J: SharedJournal + Send + Drop;

    /// The sessions that were handed on, in order, and the traders once they were, where it tells.
    ghost content: { Self → Option (HandedSessions V) };

    /// It is the same still: of a borrow, that no other was put in its place.
    ghost same: { Self → Self → Type 0 };

    /// A session has ended: its number, its visitor, how it ended, that its visitor was limited before, where it was,
    /// and its journal: what was noted of each message that was served, in order.
    ///
    /// # Errors
    ///
    /// `Memory` only when out of memory; the session is then dropped.
    fn shared(
        &mut self,
        number: u64,
        visitor: V,
        end: End,
        limited: Option<Limited>,
        journal: Self::J,
    ) -> Result<(), Memory>
        ensures same { same self.old self.new }
        ensures ok { OnOk result
            (content self.new ≡ option_map (with_session {k = sharing}
            (record {
              number = number;
              visitor = visitor;
              limited = is_some limited;
              kept = record { end = end; journal = Self.J.entries journal };
            }))
            (content self.old)) }
        ensures err { OnErr result (content self.new ≡ content self.old) };

    /// All sessions have ended.
    fn group(&mut self, solo: Solo)
        ensures same { same self.old self.new }
        ensures content { content self.new ≡ option_map (with_closed {k = sharing} solo)
            (content self.old) };

    ghost same_on: { (a b c : Self) → same a b → same b c → same a c };
}

/// It keeps what it is handed, and tells it.
#[derive(Drop)]
pub struct KeepEnded<V, J> {
    sessions: List<(u64, V, End, Option<Limited>, J)>,
    closed: Option<Solo>,
}

impl<V, J> KeepEnded<V, J> {
    /// Nothing was handed to it yet. It keeps the allocator, with which it grows.
    ///
    /// # Errors
    ///
    /// `Memory` only when out of memory.
    pub fn new(alloc: Global) -> Result<KeepEnded<V, J>, Memory>
        ensures { IfOk result (λ k. (k.sessions ≡ []) × (k.closed ≡ None)) }
    {
        let sessions = List::with_room(alloc, 1)?;
        Ok(KeepEnded {
            sessions,
            closed: None,
        })
    }

    /// The sessions, in the order in which they were handed on.
    pub fn shared_sessions(&self) -> &List<(u64, V, End, Option<Limited>, J)>
        ensures { result.now ≡ self.now.sessions }
    {
        &self.sessions
    }

    /// The traders in the end; none before they were handed on.
    pub fn closed(&self) -> Option<&Solo>
        ensures { option_map (λ solo. solo.now) result ≡ self.now.closed }
    {
        self.closed.as_ref()
    }
}

impl<V: Drop, J: SharedJournal + Send + Drop> Ended<V> for KeepEnded<V, J> {
    type J = J;

    ghost content = { λ k. Some (record {
      sessions = map (λ h. record {
        number = h.0;
        visitor = h.1;
        limited = is_some h.3;
        kept = record { end = h.2; journal = J.entries h.4 };
      }) k.sessions;
      closed = k.closed;
    }) };

    ghost same = { λ _ _. Unit {0} };

    ghost same_on = { λ _ _ _ _ _. tt };

    fn shared(
        &mut self,
        number: u64,
        visitor: V,
        end: End,
        limited: Option<Limited>,
        journal: J,
    ) -> Result<(), Memory> {
        self.sessions.push((number, visitor, end, limited, journal))
    }

    fn group(&mut self, solo: Solo) {
        self.closed = Some(solo);
    }
}

/// It drops what it is handed, and tells nothing of it.
#[derive(Drop)]
pub struct DropEnded<J> {
    noted_in: PhantomData<J>,
}

impl<J> DropEnded<J> {
    /// It takes sessions whose messages are noted in such journals.
    pub fn new() -> DropEnded<J> {
        DropEnded {
            noted_in: PhantomData,
        }
    }
}

impl<V: Drop, J: SharedJournal + Send + Drop> Ended<V> for DropEnded<J> {
    type J = J;

    ghost content = { λ _. None };

    ghost same = { λ _ _. Unit {0} };

    ghost same_on = { λ _ _ _ _ _. tt };

    fn shared(
        &mut self,
        _number: u64,
        visitor: V,
        _end: End,
        _limited: Option<Limited>,
        journal: J,
    ) -> Result<(), Memory> {
        drop(visitor);
        drop(journal);
        Ok(())
    }

    fn group(&mut self, solo: Solo) {
        drop(solo);
    }
}
