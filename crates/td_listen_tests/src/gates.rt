//! Gates that hold sessions up.

use std::sync::atomic::{AtomicU64, Ordering};
use td_accept::Gate;

/// A gate that holds some sessions up until another one has left.
#[derive(Drop)]
pub struct Held {
    /// The first of those that are held up.
    first: u64,
    /// The last of them.
    last: u64,
    /// The session that they wait for.
    until: u64,
    /// How often each looks whether it has left.
    looks: u64,
    has_left: AtomicU64,
    /// One of them waited in vain.
    tired: AtomicU64,
}

impl Held {
    pub fn new(first: u64, last: u64, until: u64, looks: u64) -> Held {
        Held {
            first,
            last,
            until,
            looks,
            has_left: AtomicU64::new(0),
            tired: AtomicU64::new(0),
        }
    }

    /// Whether the session that they wait for has left, and none of them waited in vain.
    pub fn came_through(&self) -> bool {
        self.has_left.load(Ordering::SeqCst) == 1 && self.tired.load(Ordering::SeqCst) == 0
    }
}

impl Gate for Held {
    fn enter(&self, session: u64) {
        if session < self.first || self.last < session {
            return;
        }
        for _ in 0..self.looks {
            if self.has_left.load(Ordering::SeqCst) == 1 {
                return;
            }
            std::thread::yield_now();
        }
        self.tired.store(1, Ordering::SeqCst);
    }

    fn leave(&self, session: u64) {
        if session == self.until {
            self.has_left.store(1, Ordering::SeqCst);
        }
    }
}

/// How often session 65 lets others go first.
const LINGERS: u64 = 1_000;

/// A gate that holds the first 64 sessions up until session 66 has left. Session 65 lingers in it.
#[derive(Drop)]
pub struct Crowded {
    held: Held,
    /// Session 65 is in.
    lingers: AtomicU64,
    /// Session 66 came in while it was.
    early: AtomicU64,
}

impl Crowded {
    pub fn new(looks: u64) -> Crowded {
        Crowded {
            held: Held::new(1, 64, 66, looks),
            lingers: AtomicU64::new(0),
            early: AtomicU64::new(0),
        }
    }

    /// Whether session 66 came in once session 65 had left, and left while the first 64 were held up.
    pub fn came_through(&self) -> bool {
        self.held.came_through() && self.early.load(Ordering::SeqCst) == 0
    }
}

impl Gate for Crowded {
    fn enter(&self, session: u64) {
        if session == 65 {
            self.lingers.store(1, Ordering::SeqCst);
            for _ in 0..LINGERS {
                std::thread::yield_now();
            }
        }
        if session == 66 {
            self.early
                .store(self.lingers.load(Ordering::SeqCst), Ordering::SeqCst);
        }
        self.held.enter(session);
    }

    fn leave(&self, session: u64) {
        if session == 65 {
            self.lingers.store(0, Ordering::SeqCst);
        }
        self.held.leave(session);
    }
}
