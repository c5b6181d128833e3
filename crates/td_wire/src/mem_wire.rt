//! A wire in memory.

ghost use Rattle.std.specs.Prelude.{◌≡◌, ◌≤◌, ◌+◌, ◌++◌, [], None, Some, option_map, slice_get, OnOk, OnErr};
ghost use Rattle.std.specs.Prelude.{length, vec_len, vec_capacity};
ghost use Rattle.td_out.specs.Causes.{HasCause, TakesPiece};
ghost use Rattle.td_wire.specs.Connections.{as_list, end_connection, open_connection, Connects, ReadsTraffic};
ghost use Rattle.td_wire.specs.Connections.{WritesTraffic};
ghost use Rattle.td_wire.specs.InMemory.{ReadsConnection, OpensConnection, WritesPiece, written_over};

use crate::held::{Held, draw, keep, put, take_first};
use crate::wire::Wire;
use std::alloc::Global;
use std::marker::Model;
use td_cdr::{List, Memory, Octets, Text};
use td_out::{Calls, Failed};

/// A wire to peers that lie in memory: each connection gives the bytes that were set for it, and keeps what is
/// written over it. Some calls fail.
#[derive(Drop)]
pub struct MemWire {
    alloc: Global,
    past: Vec<Held>,
    current: Option<Held>,
    answers: Vec<Octets>,
    calls: Calls,
    /// The past ones have room for the one that stands too, so that it ends without memory.
    ghost room: { vec_len past + length (as_list current) ≤ vec_capacity past },
}

impl Model for MemWire {
    ghost use Rattle.td_wire.specs.InMemory.{WireState};

    ghost Value = { WireState };

    ghost view = { λ w. record {
      traffic = record { past = w.past.items; current = w.current; answers = w.answers.items };
      calls = w.calls;
    } };
}

impl MemWire {
    /// A wire that connects to nothing yet. `answers` has what each connection gives, in order; one past the list's
    /// end gives no bytes. `failing` has the numbers of the calls of `connect`, `read` and `write` that fail, counted
    /// from 1. It keeps the allocator, with which it grows.
    pub fn new(alloc: Global, answers: List<Octets>, failing: List<u64>) -> MemWire
        ensures { result ≡ record {
          traffic = record { past = []; current = None; answers = answers };
          calls = record { failing = failing; made = 0; faults = 0 };
        } }
    {
        MemWire {
            alloc,
            past: Vec::new(alloc),
            current: None,
            answers: answers.into_vec(),
            calls: Calls::new(failing),
        }
    }

    /// What was written over a connection, counted from 0; none where there was no such connection.
    pub fn written(&self, connection: usize) -> Option<&[u8]>
        ensures { option_map (λ w. w.now) result ≡ written_over connection self.now.traffic }
    {
        written_over(&self.past, &self.current, connection)
    }

    /// Makes a connection, which gives the next answer. The one that stood ends. Room is reserved for that one and for
    /// the end of the new one.
    ///
    /// # Errors
    ///
    /// `Memory` only when out of memory; nothing has changed then.
    fn open(&mut self, host: &[u8], port: u16) -> Result<(), Memory>
        ensures ok { OnOk result (self.new
            ≡ record self.old { traffic = open_connection host.now port self.old.traffic }) }
        ensures err { OnErr result (self.new ≡ self.old) }
    {
        let host = Text::from_slice(self.alloc, host)?;
        self.past.reserve(2)?;
        let answer = take_first(self.alloc, &mut self.answers);
        let ended = self
            .current
            .replace(Held::new(self.alloc, host, port, answer));
        keep(&mut self.past, ended);
        Ok(())
    }
}

/// What was written over a connection, counted from the first past one.
#[tactic(auto, using(crate::proofs::Numbering::by_number))]
fn written_over<'a>(
    past: &'a [Held],
    current: &'a Option<Held>,
    connection: usize,
) -> Option<&'a [u8]>
    ensures { option_map (λ w. w.now) result
        ≡ option_map (λ c. c.written) (slice_get (past.now ++ as_list current.now) connection) }
{
    if connection < past.len() {
        return Some(past[connection].written());
    }
    if connection > past.len() {
        return None;
    }
    match current {
        None => None,
        Some(held) => Some(held.written()),
    }
}

impl Wire for MemWire {
    ghost content = { λ w. Some w.traffic };

    ghost faults = { λ w. w.calls.faults };

    ghost same = { λ _ _. Unit {0} };

    ghost same_self = { λ _. tt };

    ghost same_on = { λ _ _ _ _ _. tt };

    fn connect(&mut self, host: &[u8], port: u16) -> Result<(), Failed>
        ensures same { Unit {0} }
        ensures bytes { Connects host.now port (Some self.old.traffic)
            (Some self.new.traffic) result }
        ensures cause { HasCause self.old.calls.faults self.new.calls.faults result }
        ensures exact { OpensConnection host.now port self.old self.new result }
    {
        if self.calls.fails() {
            self.calls.count_fault();
            return Err(Failed);
        }
        match self.open(host, port) {
            Err(_) => {
                self.calls.count_fault();
                Err(Failed)
            }
            Ok(()) => {
                self.calls.count();
                Ok(())
            }
        }
    }

    /// No connection that stands is a fault.
    #[tactic(auto, using(crate::proofs::Drawing::given))]
    fn read(&mut self, into: &mut [u8]) -> Result<usize, Failed>
        ensures same { Unit {0} }
        ensures bytes { ReadsTraffic into.new (Some self.old.traffic) (Some self.new.traffic)
            result }
        ensures cause { HasCause self.old.calls.faults self.new.calls.faults result }
        ensures exact { ReadsConnection self.old self.new into.old into.new result }
    {
        if self.calls.fails() {
            self.calls.count_fault();
            return Err(Failed);
        }
        match draw(&mut self.current, into) {
            None => {
                self.calls.count_fault();
                Err(Failed)
            }
            Some(size) => {
                self.calls.count();
                Ok(size)
            }
        }
    }

    /// No connection that stands is a fault.
    fn write(&mut self, piece: &[u8]) -> Result<usize, Failed>
        ensures same { Unit {0} }
        ensures some { TakesPiece result piece.now }
        ensures bytes { WritesTraffic piece.now (Some self.old.traffic) (Some self.new.traffic)
            result }
        ensures cause { HasCause self.old.calls.faults self.new.calls.faults result }
        ensures exact { WritesPiece piece.now self.old self.new result }
    {
        if self.calls.fails() {
            self.calls.count_fault();
            return Err(Failed);
        }
        match put(&mut self.current, piece) {
            Err(_) => {
                self.calls.count_fault();
                Err(Failed)
            }
            Ok(()) => {
                self.calls.count();
                Ok(piece.len())
            }
        }
    }

    /// The connection ends in any case. It isn't among the calls that may fail.
    fn finish(&mut self, _whole: bool)
        ensures same { Unit {0} }
        ensures bytes { Some self.new.traffic ≡ Some (end_connection self.old.traffic) }
        ensures faults { self.new.calls.faults ≡ self.old.calls.faults }
        ensures exact { self.new ≡ record self.old { traffic = end_connection self.old.traffic } }
    {
        let done = self.current.take();
        keep(&mut self.past, done);
    }
}
