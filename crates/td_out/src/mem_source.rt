//! A source in memory.

ghost use Rattle.std.specs.Prelude.{◌≡◌, ℕ, ◌≤◌, min, List, Option, Some, ◌++◌, length, take, drop, slice_get};
ghost use Rattle.std.specs.Io.{ReadsAtMost};
ghost use Rattle.std.specs.Io.KnownBytes.{ReadConsumes};
ghost use Rattle.td_out.specs.Causes.{HasCause};
ghost use Rattle.td_out.specs.InMemory.{most_of, ReadsSupply};

use crate::calls::Calls;
use crate::fault::Failed;
use crate::source::Source;
use std::marker::Model;
use td_cdr::{List, Octets};

/// A source of bytes that lie in memory, cut into pieces, some of whose calls fail.
#[derive(Debug, Drop)]
pub struct MemSource {
    bytes: Octets,
    place: usize,
    pieces: List<usize>,
    calls: Calls,
}

impl Model for MemSource {
    ghost use Rattle.std.specs.Prelude.{◌≤◌, length, drop};
    ghost use Rattle.td_out.specs.InMemory.{Supply};

    ghost Value = { Supply };

    ghost view = { λ s. record {
      left = drop s.place s.bytes;
      pieces = s.pieces;
      calls = s.calls;
    } };

    ghost invariant = { λ s. s.place ≤ length s.bytes };
}

impl MemSource {
    /// A source of these bytes. `pieces` gives the greatest size of each call in turn: call number `k`,
    /// counted from 1, gives at most `pieces[k - 1]` bytes, and one past the list's end has no such limit.
    /// A size of 0 counts as 1, since a read of no bytes would look like the end. `failing` has the numbers
    /// of the calls that fail.
    pub fn new(bytes: Octets, pieces: List<usize>, failing: List<u64>) -> MemSource
        ensures { result ≡ record {
          left = bytes;
          pieces = pieces;
          calls = record { failing = failing; made = 0; faults = 0 };
        } }
    {
        MemSource {
            bytes,
            place: 0,
            pieces,
            calls: Calls::new(failing),
        }
    }
}

impl Source for MemSource {
    ghost left = { λ s. Some s.left };

    ghost faults = { λ s. s.calls.faults };

    ghost same = { λ _ _. Unit {0} };

    ghost same_on = { λ _ _ _ _ _. tt };

    fn read(&mut self, into: &mut [u8]) -> Result<usize, Failed>
        ensures same { Unit {0} }
        ensures bound { ReadsAtMost result into.new }
        ensures bytes { ReadConsumes (Some self.old.left) (Some self.new.left) result into.new }
        ensures cause { HasCause self.old.calls.faults self.new.calls.faults result }
        ensures exact { ReadsSupply self.old self.new into.old into.new result }
    {
        if self.calls.fails() {
            self.calls.count_fault();
            return Err(Failed);
        }
        let most = most_at(&self.pieces, self.calls.made);
        let size = copy_front(&self.bytes[self.place..], most, into);
        self.place += size;
        self.calls.count();
        Ok(size)
    }
}

/// The greatest size of the call that comes after so many.
fn most_at(pieces: &[usize], made: u64) -> usize
    ensures most { result ≡ most_of (slice_get pieces.now made) }
    ensures some { 1 ≤ result }
{
    match pieces.get(made as usize) {
        None => usize::MAX,
        Some(piece) => (*piece).max(1),
    }
}

/// Copies the first bytes, at most so many, and answers how many there were.
fn copy_front(from: &[u8], most: usize, into: &mut [u8]) -> usize
    ensures size { result ≡ min most (min (length from.now) (length into.old)) }
    ensures copied { into.new ≡ take result from.now ++ drop result into.old }
{
    let size = most.min(from.len().min(into.len()));
    into[..size].copy_from_slice(&from[..size]);
    size
}
