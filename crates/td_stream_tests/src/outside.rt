//! A client in memory: what it sends waits for what it was sent.

ghost use Rattle.std.specs.Prelude.{None};

use std::alloc::Global;
use std::cell::Cell;
use td_cdr::Octets;
use td_out::{Failed, Sink, Source};

/// What the client has so far.
#[derive(Clone, Copy)]
pub struct Got {
    /// How many bytes.
    pub bytes: usize,
    /// By how many writes, those that failed with them.
    pub writes: usize,
}

/// A sink that keeps and counts what it takes.
#[derive(Drop)]
pub struct Tap<'c> {
    got: &'c Cell<Got>,
    bytes: Vec<u8>,
    /// Which write fails, counted from 1.
    failing: usize,
    /// How many bytes a write takes at most.
    most: usize,
    faults: u64,
}

impl<'c> Tap<'c> {
    /// Nothing was written.
    pub fn new(alloc: Global, got: &'c Cell<Got>, failing: usize, most: usize) -> Tap<'c> {
        Tap {
            got,
            bytes: Vec::new(alloc),
            failing,
            most,
            faults: 0,
        }
    }

    /// What was written.
    pub fn bytes(&self) -> &[u8] {
        &self.bytes
    }
}

impl<'c> Sink for Tap<'c> {
    ghost written = { λ _. None };

    ghost faults = { λ t. t.faults };

    ghost same = { λ _ _. Unit {0} };

    ghost same_on = { λ _ _ _ _ _. tt };

    fn write(&mut self, piece: &[u8]) -> Result<usize, Failed> {
        let Got { bytes, writes } = self.got.get();
        let writes = writes.saturating_add(1);
        self.got.set(Got { bytes, writes });
        let size = piece.len().min(self.most.max(1));
        if writes == self.failing || self.bytes.extend_from_slice(&piece[..size]).is_err() {
            self.faults = self.faults.saturating_add(1);
            return Err(Failed);
        }
        let bytes = bytes.saturating_add(size);
        self.got.set(Got { bytes, writes });
        Ok(size)
    }
}

/// A source of two pieces. The client sends the second once it has so many bytes; read before, it fails.
#[derive(Drop)]
pub struct Supply<'c> {
    got: &'c Cell<Got>,
    bytes: Octets,
    /// Where the second piece begins.
    cut: usize,
    least: usize,
    place: usize,
    faults: u64,
}

impl<'c> Supply<'c> {
    /// Nothing was sent.
    pub fn new(got: &'c Cell<Got>, bytes: Octets, cut: usize, least: usize) -> Supply<'c> {
        Supply {
            got,
            bytes,
            cut,
            least,
            place: 0,
            faults: 0,
        }
    }
}

impl<'c> Source for Supply<'c> {
    ghost left = { λ _. None };

    ghost faults = { λ s. s.faults };

    ghost same = { λ _ _. Unit {0} };

    ghost same_on = { λ _ _ _ _ _. tt };

    fn read(&mut self, into: &mut [u8]) -> Result<usize, Failed> {
        let bytes = self.bytes.as_slice();
        let is_second = self.place >= self.cut;
        if is_second && self.got.get().bytes < self.least {
            self.faults = self.faults.saturating_add(1);
            return Err(Failed);
        }
        let end = if is_second {
            bytes.len()
        } else {
            self.cut.min(bytes.len())
        };
        let place = self.place.min(end);
        let size = (end - place).min(into.len());
        into[..size].copy_from_slice(&bytes[place..place + size]);
        self.place = place + size;
        Ok(size)
    }
}
