//! What the wires of a process share: connections to peers that are kept from one call to the next, and which peers
//! can't be reached just now.

use crate::tcp_connection::{Peer, TcpConnection, is_quiet, peer_hash};
use crate::unreachable::{Reach, UnreachablePeers};
use std::alloc::Global;
use std::net::OpenStream;
use std::rt::Clock;
use std::sync::Mutex;
use std::sync::atomic::{AtomicU64, Ordering};
use td_cdr::{Memory, Text};

/// The most connections that are kept in all.
const MOST_KEPT: usize = 64;

/// The most connections that are kept to one peer.
const MOST_TO_ONE_PEER: usize = 32;

/// The longest host that a peer is known under, in bytes: a name in the Domain Name System is shorter.
const LONGEST_HOST: usize = 255;

/// How many calls are made over one connection at most.
const MOST_CALLS: u32 = 1000;

/// A connection ends when the third round begins behind the one in which its last call was done.
const IDLE_ROUNDS: u64 = 3;

/// A place for a connection. It is locked for moments alone, and no one waits for it: whoever finds it locked passes
/// it over.
type Place<S> = Mutex<Option<TcpConnection<S>>>;

/// Which connections are taken out.
#[derive(Clone, Copy)]
enum Wanted<'a> {
    /// Those to this host and port.
    To(&'a [u8], u16),
    /// Those to the peer of this hash.
    OfHash(u64),
    /// Those that no call has used for two whole rounds when this one begins.
    IdleIn(u64),
}

/// Whether a connection is one of these.
fn is_one<S>(connection: &TcpConnection<S>, wanted: Wanted<'_>) -> bool {
    match wanted {
        Wanted::To(host, port) => connection.goes_to(host, port),
        Wanted::OfHash(hash) => connection.hash() == hash,
        Wanted::IdleIn(round) => round.wrapping_sub(connection.round) >= IDLE_ROUNDS,
    }
}

/// The connections to peers that no call uses just now, shared by all sessions of a process: at most 32 to one peer, a
/// host as it was named with a port, and 64 in all. Where all places are taken, a connection takes the place of
/// another, which ends. At most 1,000 calls are made over one connection.
///
/// Time goes by rounds, which whoever owns the pool begins: a connection that no call has used for two whole rounds
/// ends when the next one begins. With rounds of a second it ends two to three seconds behind its last call. All of
/// them end with the pool.
///
/// Beside that it remembers which peers couldn't be reached: those with which no connection could be made, and those
/// that took longer than a call may. For 5 seconds each further call of such a peer fails at once, and of those that
/// come then one tries it again, and the others fail at once until it is done, or for 5 seconds more. At most 256 such
/// peers are remembered, and the oldest is forgotten first.
#[derive(Drop)]
pub struct ConnectionPool<S> {
    alloc: Global,
    /// The hash of the peer of each place, 0 where the place is free: a search locks no place of another peer.
    hashes: Vec<AtomicU64>,
    places: Vec<Place<S>>,
    rounds: AtomicU64,
    /// The place that is given away next where all are taken.
    turn: AtomicU64,
    unreachable: UnreachablePeers,
}

impl<S: OpenStream + Drop> ConnectionPool<S> {
    /// A pool in which no connection is kept yet, and no peer is known that can't be reached.
    ///
    /// # Errors
    ///
    /// `Memory` only when out of memory.
    pub fn new(alloc: Global) -> Result<ConnectionPool<S>, Memory> {
        let mut hashes = Vec::with_capacity(alloc, MOST_KEPT)?;
        let mut places = Vec::with_capacity(alloc, MOST_KEPT)?;
        for _ in 0..MOST_KEPT {
            hashes.push(AtomicU64::new(0))?;
            places.push(Mutex::new(None))?;
        }
        Ok(ConnectionPool {
            alloc,
            hashes,
            places,
            rounds: AtomicU64::new(0),
            turn: AtomicU64::new(0),
            unreachable: UnreachablePeers::new(alloc)?,
        })
    }

    /// Begins the next round, and ends the connections that no call has used for two whole rounds.
    pub fn begin_round(&self) {
        let now = self.rounds.fetch_add(1, Ordering::SeqCst).wrapping_add(1);
        for (hash, place) in self.hashes.iter().zip(self.places.iter()) {
            if hash.load(Ordering::SeqCst) != 0 {
                drop(take_from(hash, place, Wanted::IdleIn(now)));
            }
        }
    }

    /// The peer of this host and port; none where the host's name is too long, and when out of memory.
    pub(crate) fn peer(&self, host: &[u8], port: u16) -> Option<Peer> {
        if host.len() > LONGEST_HOST {
            return None;
        }
        match Text::from_slice(self.alloc, host) {
            Ok(host) => Some(Peer::new(host, port)),
            Err(_) => None,
        }
    }

    /// What is known of the peer of this host and port.
    pub(crate) fn reach<C: Clock>(&self, clock: &C, host: &[u8], port: u16) -> Reach {
        self.unreachable.reach(clock, host, port)
    }

    /// Remembers a peer that couldn't be reached, where it is known.
    pub(crate) fn put_unreachable<C: Clock>(&self, clock: &C, peer: Option<Peer>) {
        match peer {
            Some(peer) => self.unreachable.put(clock, peer),
            None => {}
        }
    }

    /// Forgets a peer that could be reached again over this connection.
    pub(crate) fn remove_unreachable(&self, connection: &TcpConnection<S>) {
        match &connection.peer {
            Some(peer) => self.unreachable.remove(peer),
            None => {}
        }
    }

    /// Takes out a connection to this host and port that hasn't ended, and over which nothing came that wasn't read.
    pub(crate) fn take(&self, host: &[u8], port: u16) -> Option<TcpConnection<S>> {
        let wanted = peer_hash(host, port);
        for (hash, place) in self.hashes.iter().zip(self.places.iter()) {
            if hash.load(Ordering::SeqCst) == wanted {
                if let Some(connection) = take_from(hash, place, Wanted::To(host, port)) {
                    if is_quiet(&connection.stream) {
                        return Some(connection);
                    }
                    drop(connection);
                }
            }
        }
        None
    }

    /// Keeps a connection over which one call more is done, or ends it.
    pub(crate) fn put(&self, connection: TcpConnection<S>) {
        let mut connection = connection;
        connection.calls = connection.calls.saturating_add(1);
        connection.round = self.rounds.load(Ordering::SeqCst);
        let hash = connection.hash();
        if hash == 0 || connection.calls >= MOST_CALLS || self.count(hash) >= MOST_TO_ONE_PEER {
            drop(connection);
            return;
        }
        self.keep(hash, connection);
        // where several threads put theirs at once, each of them sees one too many, or the one behind it does
        if self.count(hash) > MOST_TO_ONE_PEER {
            drop(self.take_one(hash));
        }
    }

    /// How many connections are kept to the peer of this hash.
    fn count(&self, hash: u64) -> usize {
        self.hashes
            .iter()
            .filter(|other| other.load(Ordering::SeqCst) == hash)
            .count()
    }

    /// Takes out a connection to the peer of this hash.
    fn take_one(&self, wanted: u64) -> Option<TcpConnection<S>> {
        for (hash, place) in self.hashes.iter().zip(self.places.iter()) {
            if hash.load(Ordering::SeqCst) == wanted {
                if let Some(connection) = take_from(hash, place, Wanted::OfHash(wanted)) {
                    return Some(connection);
                }
            }
        }
        None
    }

    /// Puts a connection into the first place that is free; where none is, into the place of another.
    fn keep(&self, peer: u64, connection: TcpConnection<S>) {
        let mut connection = connection;
        for (hash, place) in self.hashes.iter().zip(self.places.iter()) {
            if hash.load(Ordering::SeqCst) == 0 {
                match put_into(hash, place, peer, connection) {
                    None => return,
                    Some(back) => connection = back,
                }
            }
        }
        self.put_in_turn(peer, connection);
    }

    /// Puts a connection into the place of another, which ends.
    fn put_in_turn(&self, peer: u64, connection: TcpConnection<S>) {
        let turn = self.turn.fetch_add(1, Ordering::SeqCst) % MOST_KEPT as u64;
        let mut places = self.hashes.iter().zip(self.places.iter());
        match places.nth(turn as usize) {
            None => drop(connection),
            Some((hash, place)) => drop(put_over(hash, place, peer, connection)),
        }
    }
}

/// Puts a connection into a place, and gives it back where the place isn't free.
fn put_into<S: Drop>(
    hash: &AtomicU64,
    place: &Place<S>,
    peer: u64,
    connection: TcpConnection<S>,
) -> Option<TcpConnection<S>> {
    match place.try_lock() {
        None => Some(connection),
        Some(mut held) => {
            if held.is_some() {
                return Some(connection);
            }
            *held = Some(connection);
            hash.store(peer, Ordering::SeqCst);
            None
        }
    }
}

/// Puts a connection into a place, and gives out what was in it; the connection itself, where another looks at the
/// place.
fn put_over<S: Drop>(
    hash: &AtomicU64,
    place: &Place<S>,
    peer: u64,
    connection: TcpConnection<S>,
) -> Option<TcpConnection<S>> {
    match place.try_lock() {
        None => Some(connection),
        Some(mut held) => {
            hash.store(peer, Ordering::SeqCst);
            held.replace(connection)
        }
    }
}

/// Takes the connection out of a place, where it is one of these.
fn take_from<S: Drop>(
    hash: &AtomicU64,
    place: &Place<S>,
    wanted: Wanted<'_>,
) -> Option<TcpConnection<S>> {
    let mut held = place.try_lock()?;
    let is_wanted = match &*held {
        Some(connection) => is_one(connection, wanted),
        None => false,
    };
    if !is_wanted {
        return None;
    }
    hash.store(0, Ordering::SeqCst);
    held.take()
}
