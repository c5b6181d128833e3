//! A connection in memory.

ghost use Rattle.std.specs.Prelude.{◌≡◌, ◌≤◌, ◌<◌, ◌+◌, ◌++◌, min, length, take, drop, OnOk, OnErr, IfSome, IfNone};
ghost use Rattle.std.specs.Prelude.{None, IsSome, option_map, vec_len, vec_capacity};
ghost use Rattle.td_wire.specs.Connections.{as_list, first_or_none, fresh, having_left, left_in, written_on};
ghost use Rattle.td_wire.specs.InMemory.{GaveBytes};

use std::alloc::Global;
use std::marker::Model;
use td_cdr::{Memory, Octets, Text};
use td_out::Failed;

/// A connection in memory: what was written over it, and the answer that it gives.
#[derive(Debug, Drop)]
pub struct Held {
    host: Text,
    port: u16,
    written: Vec<u8>,
    answer: Octets,
    /// How much of the answer was given.
    place: usize,
}

impl Model for Held {
    ghost use Rattle.std.specs.Prelude.{◌≤◌, length, drop};
    ghost use Rattle.td_wire.specs.Connections.{Connection};

    ghost Value = { Connection };

    ghost view = { λ h. record {
      host = h.host;
      port = h.port;
      written = h.written.items;
      left = drop h.place h.answer;
    } };

    ghost invariant = { λ h. h.place ≤ length h.answer };
}

impl Held {
    /// A connection to which nothing was written, and which gave nothing yet.
    pub fn new(alloc: Global, host: Text, port: u16, answer: Octets) -> Held
        ensures { result ≡ fresh host port answer }
    {
        Held {
            host,
            port,
            written: Vec::new(alloc),
            answer,
            place: 0,
        }
    }

    /// What was written.
    pub fn written(&self) -> &[u8]
        ensures { result.now ≡ self.now.written }
    {
        &self.written
    }

    /// Adds a piece to what was written.
    ///
    /// # Errors
    ///
    /// `Memory` only when out of memory; the connection is then unchanged.
    pub fn put(&mut self, piece: &[u8]) -> Result<(), Memory>
        ensures ok { OnOk result (self.new ≡ written_on piece.now self.old) }
        ensures err { OnErr result (self.new ≡ self.old) }
    {
        self.written.extend_from_slice(piece)?;
        Ok(())
    }

    /// Gives the next bytes into this room, as many as it has and as there is room for.
    pub fn give(&mut self, into: &mut [u8]) -> usize
        ensures size { result ≡ min (length self.old.left) (length into.old) }
        ensures filled { into.new ≡ take result self.old.left ++ drop result into.old }
        ensures moved { self.new ≡ having_left (drop result self.old.left) self.old }
    {
        let size = copy_front(&self.answer[self.place..], into);
        self.place += size;
        size
    }
}

/// Copies as many of the first bytes as there are and as there is room for, and answers how many.
fn copy_front(from: &[u8], into: &mut [u8]) -> usize
    ensures size { result ≡ min (length from.now) (length into.old) }
    ensures copied { into.new ≡ take result from.now ++ drop result into.old }
{
    let size = from.len().min(into.len());
    into[..size].copy_from_slice(&from[..size]);
    size
}

/// What the connection that stands gives into this room; none where no connection stands.
pub(crate) fn draw(current: &mut Option<Held>, into: &mut [u8]) -> Option<usize>
    ensures none { IfNone result ((current.old ≡ None) × (current.new ≡ None)
        × (into.new ≡ into.old)) }
    ensures gave { IfSome result (λ n. GaveBytes n current.old current.new into.old into.new) }
{
    match current {
        None => None,
        Some(held) => Some(held.give(into)),
    }
}

/// Writes a piece over the connection that stands.
///
/// # Errors
///
/// `Failed` where no connection stands, and when out of memory.
pub(crate) fn put(current: &mut Option<Held>, piece: &[u8]) -> Result<(), Failed>
    ensures stands { OnOk result (IsSome current.old) }
    ensures ok { OnOk result (current.new ≡ option_map (written_on piece.now) current.old) }
    ensures err { OnErr result (current.new ≡ current.old) }
{
    match current {
        None => Err(Failed),
        Some(held) => match held.put(piece) {
            Ok(()) => Ok(()),
            Err(_) => Err(Failed),
        },
    }
}

/// Puts a connection that ended behind the past ones, where there is one.
pub(crate) fn keep(past: &mut Vec<Held>, ended: Option<Held>)
    requires { vec_len past.old + length (as_list ended) ≤ vec_capacity past.old }
    ensures items { past.new.items ≡ past.old.items ++ as_list ended }
    ensures len { vec_len past.new ≡ vec_len past.old + length (as_list ended) }
    ensures capacity { vec_capacity past.new ≡ vec_capacity past.old }
{
    match ended {
        None => {}
        Some(held) => past.push_reserved(held),
    }
}

/// Takes the first answer out; where none is left, an empty one.
#[tactic(auto, using(crate::proofs::Numbering::first_answer))]
pub(crate) fn take_first(alloc: Global, answers: &mut Vec<Octets>) -> Octets
    ensures first { result ≡ first_or_none answers.old.items }
    ensures rest { answers.new.items ≡ drop 1 answers.old.items }
{
    if answers.is_empty() {
        return Octets::new(alloc);
    }
    answers.remove(0)
}
