//! A sink in memory.

ghost use Rattle.std.specs.Prelude.{◌≡◌, ℕ, List, [], Option, Some};
ghost use Rattle.std.specs.Io.KnownBytes.{WriteAppends};
ghost use Rattle.td_out.specs.Causes.{HasCause, TakesPiece};
ghost use Rattle.td_out.specs.InMemory.{WritesSink};

use crate::calls::Calls;
use crate::fault::Failed;
use crate::sink::Sink;
use std::alloc::Global;
use std::marker::Model;
use td_cdr::List;

/// A sink that keeps what is written, some of whose calls fail.
#[derive(Debug, Drop)]
pub struct MemSink {
    bytes: Vec<u8>,
    calls: Calls,
}

impl Model for MemSink {
    ghost use Rattle.td_out.specs.InMemory.{SinkState};

    ghost Value = { SinkState };

    ghost view = { λ s. record { written = s.bytes.items; calls = s.calls } };
}

impl MemSink {
    /// A sink to which nothing was written. `failing` has the numbers of the calls that fail, counted from 1.
    /// It keeps the allocator, with which it grows.
    pub fn new(alloc: Global, failing: List<u64>) -> MemSink
        ensures { result ≡ record {
          written = [];
          calls = record { failing = failing; made = 0; faults = 0 };
        } }
    {
        MemSink {
            bytes: Vec::new(alloc),
            calls: Calls::new(failing),
        }
    }

    /// What was written.
    pub fn written(&self) -> &[u8]
        ensures { result.now ≡ self.now.written }
    {
        &self.bytes
    }
}

impl Sink for MemSink {
    ghost written = { λ s. Some s.written };

    ghost faults = { λ s. s.calls.faults };

    ghost same = { λ _ _. Unit {0} };

    ghost same_on = { λ _ _ _ _ _. tt };

    fn write(&mut self, piece: &[u8]) -> Result<usize, Failed>
        ensures same { Unit {0} }
        ensures some { TakesPiece result piece.now }
        ensures bytes { WriteAppends (Some self.old.written)
            (Some self.new.written) result piece.now }
        ensures cause { HasCause self.old.calls.faults self.new.calls.faults result }
        ensures exact { WritesSink self.old self.new piece.now result }
    {
        if self.calls.fails() {
            self.calls.count_fault();
            return Err(Failed);
        }
        match self.bytes.extend_from_slice(piece) {
            Err(_) => {
                self.calls.count_fault();
                Err(Failed)
            }
            Ok(()) => {
                self.calls.count();
                Ok(piece.len())
            }
        }
    }
}
