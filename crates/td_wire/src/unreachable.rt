//! The peers that couldn't be reached just now.

use crate::tcp_connection::Peer;
use std::alloc::Global;
use std::rt::Clock;
use std::sync::atomic::{AtomicU64, Ordering};
use std::sync::{RwLock, RwLockWriteGuard};
use std::thread::yield_now;
use std::time::{Duration, Instant};
use td_cdr::Memory;

/// How long a peer that couldn't be reached isn't called again, in seconds.
const PAUSE: u64 = 5;

/// How many such peers are remembered.
const MOST_PEERS: usize = 256;

/// How often a call tries to get hold of the list for a change.
const TRIES: u8 = 100;

/// What is known of a peer before it is called.
#[derive(Clone, Copy, PartialEq, Eq)]
pub(crate) enum Reach {
    /// Nothing speaks against a call.
    Open,
    /// It couldn't be reached, and this call tries it again.
    Retry,
    /// It couldn't be reached: a call fails at once.
    Refused,
}

/// A peer that couldn't be reached.
#[derive(Drop)]
struct UnreachablePeer {
    peer: Peer,
    /// When it was last called in vain, or tried again.
    since: Instant,
}

impl UnreachablePeer {
    /// Whether it may be tried again.
    fn is_due(&self, now: Instant) -> bool {
        now.duration_since(self.since) >= Duration::from_secs(PAUSE)
    }
}

/// The peers that couldn't be reached: at most 256, of which the oldest is forgotten first. No one waits for the list:
/// a call that can't see it goes on as if nothing were known.
#[derive(Drop)]
pub(crate) struct UnreachablePeers {
    peers: RwLock<Vec<UnreachablePeer>>,
    /// How many they are: where there are none, as mostly, a call looks at this alone.
    count: AtomicU64,
}

impl UnreachablePeers {
    /// No peer yet, and room for all.
    ///
    /// # Errors
    ///
    /// `Memory` only when out of memory.
    pub(crate) fn new(alloc: Global) -> Result<UnreachablePeers, Memory> {
        let peers = Vec::with_capacity(alloc, MOST_PEERS)?;
        Ok(UnreachablePeers {
            peers: RwLock::new(peers),
            count: AtomicU64::new(0),
        })
    }

    /// What is known of the peer of this host and port. Of the calls that come when its pause is over, one tries it
    /// again; for the others a pause begins anew.
    pub(crate) fn reach<C: Clock>(&self, clock: &C, host: &[u8], port: u16) -> Reach {
        if self.count.load(Ordering::SeqCst) == 0 {
            return Reach::Open;
        }
        let Ok(now) = Instant::now(clock) else {
            return Reach::Open;
        };
        match self.is_due(host, port, now) {
            None => Reach::Open,
            Some(false) => Reach::Refused,
            Some(true) => self.retry(host, port, now),
        }
    }

    /// Whether the peer of this host and port may be tried again; none where it isn't among these.
    fn is_due(&self, host: &[u8], port: u16, now: Instant) -> Option<bool> {
        let peers = self.peers.try_read()?;
        let known = peers.iter().find(|known| known.peer.is_at(host, port))?;
        Some(known.is_due(now))
    }

    /// Has this call try the peer again, where no other call does so already.
    fn retry(&self, host: &[u8], port: u16, now: Instant) -> Reach {
        match self.lock() {
            None => Reach::Refused,
            Some(mut peers) => {
                let renewed = renew(&mut peers, host, port, now);
                drop(peers);
                if renewed {
                    Reach::Retry
                } else {
                    Reach::Refused
                }
            }
        }
    }

    /// Remembers a peer, or that it couldn't be reached once more.
    pub(crate) fn put<C: Clock>(&self, clock: &C, peer: Peer) {
        match (Instant::now(clock), self.lock()) {
            (Ok(since), Some(mut peers)) => {
                put_into(&mut peers, UnreachablePeer { peer, since });
                self.count.store(peers.len() as u64, Ordering::SeqCst);
            }
            _ => drop(peer),
        }
    }

    /// Forgets a peer, which was reached.
    pub(crate) fn remove(&self, peer: &Peer) {
        match self.lock() {
            None => {}
            Some(mut peers) => {
                peers.retain(|known| !known.peer.is(peer));
                self.count.store(peers.len() as u64, Ordering::SeqCst);
            }
        }
    }

    /// The list for a change; none where others had it at each of some tries.
    fn lock(&self) -> Option<RwLockWriteGuard<'_, Vec<UnreachablePeer>>> {
        for _ in 0..TRIES {
            match self.peers.try_write() {
                Some(peers) => return Some(peers),
                None => yield_now(),
            }
        }
        None
    }
}

/// Begins the pause of a peer anew, where it may be tried again.
fn renew(peers: &mut Vec<UnreachablePeer>, host: &[u8], port: u16, now: Instant) -> bool {
    for known in peers.iter_mut() {
        if known.peer.is_at(host, port) && known.is_due(now) {
            known.since = now;
            return true;
        }
    }
    false
}

/// Puts a peer in place of what was known of it, or behind the others; where they are too many, in place of the oldest.
fn put_into(peers: &mut Vec<UnreachablePeer>, new: UnreachablePeer) {
    let same = peers.iter().position(|known| known.peer.is(&new.peer));
    let place = match same {
        Some(place) => Some(place),
        None if peers.len() < MOST_PEERS => None,
        None => oldest_place(peers),
    };
    match place.and_then(|place| peers.get_mut(place)) {
        Some(known) => *known = new,
        None => drop(peers.push(new)),
    }
}

/// Where the peer stands that was called in vain the longest time ago.
fn oldest_place(peers: &Vec<UnreachablePeer>) -> Option<usize> {
    let (place, _) = peers
        .iter()
        .enumerate()
        .min_by_key(|(_, known)| known.since)?;
    Some(place)
}
