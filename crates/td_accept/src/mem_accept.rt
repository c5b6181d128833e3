//! An acceptor in memory.

ghost use Rattle.std.specs.Prelude.{◌≡◌, ℕ, ◌++◌, ◌∷◌, [], Some, true, OnOk, OnErr, MatchOption};
ghost use Rattle.td_accept.specs.Doors.{Binds, GivesVisitor, bound_to};
ghost use Rattle.td_accept.specs.InMemory.{Admits, BindsAddress, some_of};
ghost use Rattle.td_out.specs.Causes.{HasCause};

use crate::accept::Accept;
use crate::client_sink::ClientSink;
use crate::client_source::ClientSource;
use crate::client_wire::ClientWire;
use crate::visitor::Visitor;
use std::alloc::Global;
use std::marker::Model;
use td_cdr::{List, Memory, Text};
use td_out::{Calls, Failed, Words};

/// A host and a port.
#[derive(Debug, Drop)]
pub struct Endpoint {
    pub host: Text,
    pub port: u16,
}

/// An acceptor that gives the visitors of a list, in order, and then none. Some calls fail.
#[derive(Drop)]
pub struct MemAccept<S, K, L, W> {
    alloc: Global,
    addresses: Vec<Endpoint>,
    visitors: Vec<Visitor<S, K, L, W>>,
    calls: Calls,
}

impl<S, K, L, W> Model for MemAccept<S, K, L, W> {
    ghost use Rattle.td_accept.specs.declared.visitor.Visitor.{Visitor};
    ghost use Rattle.td_accept.specs.InMemory.{VisitorList};

    ghost Value = { VisitorList (Visitor S K L W) };

    ghost view = { λ a. record {
      door = record { addresses = a.addresses.items; visitors = a.visitors.items };
      calls = a.calls;
    } };
}

impl<S, K, L, W> MemAccept<S, K, L, W> {
    /// An acceptor that is bound to nothing yet. `failing` has the numbers of the calls of `bind` and `next` that fail,
    /// counted from 1. It keeps the allocator, with which it grows.
    pub fn new(
        alloc: Global,
        visitors: List<Visitor<S, K, L, W>>,
        failing: List<u64>,
    ) -> MemAccept<S, K, L, W>
        ensures { result ≡ record {
          door = record { addresses = []; visitors = visitors };
          calls = record { failing = failing; made = 0; faults = 0 };
        } }
    {
        MemAccept {
            alloc,
            addresses: Vec::new(alloc),
            visitors: visitors.into_vec(),
            calls: Calls::new(failing),
        }
    }

    /// The addresses to which it was bound, in order.
    pub fn addresses(&self) -> &[Endpoint]
        ensures { result.now ≡ self.now.door.addresses }
    {
        &self.addresses
    }

    /// Notes one address more.
    fn note(&mut self, host: &[u8], port: u16) -> Result<(), Memory>
        ensures ok { OnOk result (self.new
            ≡ record self.old { door = bound_to host.now port self.old.door }) }
        ensures err { OnErr result (self.new ≡ self.old) }
    {
        let host = Text::from_slice(self.alloc, host)?;
        self.addresses.push(Endpoint { host, port })?;
        Ok(())
    }
}

/// Takes the first one out, where one is left.
#[tactic(auto, using(crate::proofs::Coming::first_of))]
fn take_first<X>(items: &mut Vec<X>) -> Option<X>
    ensures { MatchOption result ((items.old.items ≡ []) × (items.new.items ≡ []))
        (λ first. items.old.items ≡ first ∷ items.new.items) }
{
    if items.is_empty() {
        return None;
    }
    Some(items.remove(0))
}

impl<S, K, L, W> Accept for MemAccept<S, K, L, W>
where
    S: ClientSource + Send + Drop,
    K: ClientSink + Send + Drop,
    L: ClientWire + Send + Drop,
    W: Words + Send + Drop,
{
    type S = S;

    type K = K;

    type L = L;

    type W = W;

    ghost content = { λ a. Some a.door };

    ghost bound = { λ a. some_of a.door.addresses };

    ghost faults = { λ a. a.calls.faults };

    ghost same = { λ _ _. Unit {0} };

    ghost same_self = { λ _. tt };

    ghost same_on = { λ _ _ _ _ _. tt };

    #[tactic(auto, using(crate::proofs::Coming::some_behind))]
    fn bind(&mut self, host: &[u8], port: u16) -> Result<(), Failed>
        ensures same { Unit {0} }
        ensures ok { OnOk result (some_of self.new.door.addresses ≡ true) }
        ensures err { OnErr result (some_of self.new.door.addresses
            ≡ some_of self.old.door.addresses) }
        ensures content { Binds host.now port (Some self.old.door) (Some self.new.door) result }
        ensures cause { HasCause self.old.calls.faults self.new.calls.faults result }
        ensures exact { BindsAddress host.now port self.old self.new result }
    {
        if self.calls.fails() {
            self.calls.count_fault();
            return Err(Failed);
        }
        match self.note(host, port) {
            Err(_) => {
                self.calls.count_fault();
                Err(Failed)
            }
            Ok(()) => {
                self.calls.count();
                Ok(())
            }
        }
    }

    fn next(&mut self) -> Result<Option<Visitor<S, K, L, W>>, Failed>
        requires { some_of self.old.door.addresses ≡ true }
        ensures same { Unit {0} }
        ensures bound { some_of self.new.door.addresses ≡ true }
        ensures content { GivesVisitor (Some self.old.door) (Some self.new.door) result }
        ensures cause { HasCause self.old.calls.faults self.new.calls.faults result }
        ensures exact { Admits self.old self.new result }
    {
        if self.calls.fails() {
            self.calls.count_fault();
            return Err(Failed);
        }
        self.calls.count();
        match take_first(&mut self.visitors) {
            None => Ok(None),
            Some(visitor) => Ok(Some(visitor)),
        }
    }
}
