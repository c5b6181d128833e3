//! Sessions that overlap: the first one waits inside until the second one has left.

ghost use Rattle.std.specs.Prelude.{Some};

use std::sync::atomic::{AtomicU64, Ordering};
use td_accept::{ClientSource, ClientWire, Gate};
use td_out::{Failed, MemSource, Source};
use td_wire::{MemWire, Wire};

/// How two sessions overlap: session 2 goes in once session 1 waits within, and session 1 goes on once session 2 has
/// left. Without this order one lock round each session isn't noticed, since session 2 may then come first.
#[derive(Drop)]
pub struct Overlap {
    /// How often each looks whether it may go on.
    looks: u64,
    /// Session 1 has come to where it waits.
    waits: AtomicU64,
    /// Session 2 has left.
    has_left: AtomicU64,
    /// One of them waited in vain.
    tired: AtomicU64,
}

impl Overlap {
    pub fn new(looks: u64) -> Overlap {
        Overlap {
            looks,
            waits: AtomicU64::new(0),
            has_left: AtomicU64::new(0),
            tired: AtomicU64::new(0),
        }
    }

    fn wait_for(&self, flag: &AtomicU64) {
        for _ in 0..self.looks {
            if flag.load(Ordering::SeqCst) == 1 {
                return;
            }
            std::thread::yield_now();
        }
        self.tired.store(1, Ordering::SeqCst);
    }

    /// Session 1 waits until session 2 has left.
    pub fn wait(&self) {
        self.waits.store(1, Ordering::SeqCst);
        self.wait_for(&self.has_left);
    }

    /// Whether session 2 has left while session 1 waited.
    pub fn came_through(&self) -> bool {
        self.has_left.load(Ordering::SeqCst) == 1 && self.tired.load(Ordering::SeqCst) == 0
    }
}

impl Gate for Overlap {
    fn enter(&self, session: u64) {
        if session == 2 {
            self.wait_for(&self.waits);
        }
    }

    fn leave(&self, session: u64) {
        if session == 2 {
            self.has_left.store(1, Ordering::SeqCst);
        }
    }
}

/// A source or a wire in memory. Session 1 waits at each read of it, if it is one that waits.
#[derive(Drop)]
pub struct Waiting<'a, T> {
    pub inner: T,
    pub waits: bool,
    pub overlap: &'a Overlap,
}

impl<'a> Source for Waiting<'a, MemSource> {
    ghost left = { λ s. Some s.inner.left };

    ghost faults = { λ s. s.inner.calls.faults };

    ghost same = { λ _ _. Unit {0} };

    ghost same_on = { λ _ _ _ _ _. tt };

    fn read(&mut self, into: &mut [u8]) -> Result<usize, Failed> {
        if self.waits {
            self.overlap.wait();
        }
        self.inner.read(into)
    }
}

impl<'a> ClientSource for Waiting<'a, MemSource> {
    ghost limited = { λ _. Unit {0} };

    fn limit(&mut self) {}
}

impl<'a> Wire for Waiting<'a, MemWire> {
    ghost content = { λ w. Some w.inner.traffic };

    ghost faults = { λ w. w.inner.calls.faults };

    ghost same = { λ _ _. Unit {0} };

    ghost same_self = { λ _. tt };

    ghost same_on = { λ _ _ _ _ _. tt };

    fn connect(&mut self, host: &[u8], port: u16) -> Result<(), Failed> {
        self.inner.connect(host, port)
    }

    fn read(&mut self, into: &mut [u8]) -> Result<usize, Failed> {
        if self.waits {
            self.overlap.wait();
        }
        self.inner.read(into)
    }

    fn write(&mut self, piece: &[u8]) -> Result<usize, Failed> {
        self.inner.write(piece)
    }

    fn finish(&mut self, whole: bool) {
        self.inner.finish(whole)
    }
}

impl<'a> ClientWire for Waiting<'a, MemWire> {
    ghost refuses = { λ _. Unit {0} };

    fn refuse(&mut self) {}
}
