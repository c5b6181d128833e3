//! Where sessions go that have ended, and in the end the naming contexts.

ghost use Rattle.std.specs.Prelude.{◌≡◌, [], None, Some, Option, IfOk, OnOk, OnErr, is_some, map, option_map};
ghost use Rattle.td_server.specs.Sessions.{with_closed, with_session};
ghost use Rattle.td_name_sessions.specs.Sessions.{HandedSessions, naming};

use std::alloc::Global;
use td_accept::Limited;
use td_cdr::{List, Memory};
use td_name_session::End;
use td_naming::Naming;

/// Where sessions go that have ended, and in the end the naming contexts.
pub trait Ended<V> {
    /// The sessions that were handed on, in order, and the contexts once they were, where it tells.
    ghost content: { Self → Option (HandedSessions V) };

    /// It is the same still: of a borrow, that no other was put in its place.
    ghost same: { Self → Self → Type 0 };

    /// A session has ended: its number, its visitor, how it ended, that its visitor was limited before, where it was,
    /// and its journal: the point of each Request and LocateRequest that was served, in order.
    ///
    /// # Errors
    ///
    /// `Memory` only when out of memory; the session is then dropped.
    fn names(
        &mut self,
        number: u64,
        visitor: V,
        end: End,
        limited: Option<Limited>,
        journal: List<u64>,
    ) -> Result<(), Memory>
        ensures same { same self.old self.new }
        ensures ok { OnOk result
            (content self.new ≡ option_map (with_session {k = naming}
            (record {
              number = number;
              visitor = visitor;
              limited = is_some limited;
              kept = record { end = end; journal = journal };
            }))
            (content self.old)) }
        ensures err { OnErr result (content self.new ≡ content self.old) };

    /// All sessions have ended.
    fn naming(&mut self, contexts: Naming)
        ensures same { same self.old self.new }
        ensures content { content self.new ≡ option_map (with_closed {k = naming} contexts)
            (content self.old) };

    ghost same_on: { (a b c : Self) → same a b → same b c → same a c };
}

/// It keeps what it is handed, and tells it.
#[derive(Drop)]
pub struct KeepEnded<V> {
    sessions: List<(u64, V, End, Option<Limited>, List<u64>)>,
    closed: Option<Naming>,
}

impl<V> KeepEnded<V> {
    /// Nothing was handed to it yet. It keeps the allocator, with which it grows.
    ///
    /// # Errors
    ///
    /// `Memory` only when out of memory.
    pub fn new(alloc: Global) -> Result<KeepEnded<V>, Memory>
        ensures { IfOk result (λ k. (k.sessions ≡ []) × (k.closed ≡ None)) }
    {
        let sessions = List::with_room(alloc, 1)?;
        Ok(KeepEnded {
            sessions,
            closed: None,
        })
    }

    /// The sessions, in the order in which they were handed on.
    pub fn names_sessions(&self) -> &List<(u64, V, End, Option<Limited>, List<u64>)>
        ensures { result.now ≡ self.now.sessions }
    {
        &self.sessions
    }

    /// The contexts in the end; none before they were handed on.
    pub fn closed_naming(&self) -> Option<&Naming>
        ensures { option_map (λ contexts. contexts.now) result ≡ self.now.closed }
    {
        self.closed.as_ref()
    }
}

impl<V: Drop> Ended<V> for KeepEnded<V> {
    ghost content = { λ k. Some (record {
      sessions = map (λ h. record {
        number = h.0;
        visitor = h.1;
        limited = is_some h.3;
        kept = record { end = h.2; journal = h.4 };
      }) k.sessions;
      closed = k.closed;
    }) };

    ghost same = { λ _ _. Unit {0} };

    ghost same_on = { λ _ _ _ _ _. tt };

    fn names(
        &mut self,
        number: u64,
        visitor: V,
        end: End,
        limited: Option<Limited>,
        journal: List<u64>,
    ) -> Result<(), Memory> {
        self.sessions.push((number, visitor, end, limited, journal))
    }

    fn naming(&mut self, contexts: Naming) {
        self.closed = Some(contexts);
    }
}

/// It drops what it is handed, and tells nothing of it.
#[derive(Drop)]
pub struct DropEnded {}

impl DropEnded {
    /// It takes sessions and contexts.
    pub fn new() -> DropEnded {
        DropEnded {}
    }
}

impl<V: Drop> Ended<V> for DropEnded {
    ghost content = { λ _. None };

    ghost same = { λ _ _. Unit {0} };

    ghost same_on = { λ _ _ _ _ _. tt };

    fn names(
        &mut self,
        _number: u64,
        visitor: V,
        _end: End,
        _limited: Option<Limited>,
        journal: List<u64>,
    ) -> Result<(), Memory> {
        drop(visitor);
        drop(journal);
        Ok(())
    }

    fn naming(&mut self, contexts: Naming) {
        drop(contexts);
    }
}
