//! A connection of a wire over TCP, how it is made, and the peer that it goes to.

use crate::tcp_call::Deadline;
use std::hash::{BuildHasher, BuildHasherDefault, FoldHasher};
use std::io::ErrorKind;
use std::net::{Net, OpenStream, SocketAddr, TcpStream, ToSocketAddrs};
use std::rt::Clock;
use std::time::Duration;
use td_cdr::Text;
use td_out::Failed;

/// How long the connection to one address may take to be made, in seconds.
const CONNECT_LIMIT: u64 = 10;

/// By how much one read or write may last longer than it should, in milliseconds.
pub(crate) const LATEST: u64 = 1_000;

/// How much longer than it should one read or write may last when the system is told its limit, in milliseconds.
const MARGIN: u64 = 500;

/// Where a connection goes: the host as it was named, and the port.
#[derive(Drop)]
pub(crate) struct Peer {
    host: Text,
    port: u16,
    /// The hash of both, by which peers are told apart before their names are compared.
    hash: u64,
}

impl Peer {
    /// The peer of this host and port.
    pub(crate) fn new(host: Text, port: u16) -> Peer {
        let hash = peer_hash(host.as_slice(), port);
        Peer { host, port, hash }
    }

    /// Whether both are the same peer.
    pub(crate) fn is(&self, other: &Peer) -> bool {
        self.is_at(other.host.as_slice(), other.port)
    }

    /// Whether it is the peer of this host and port.
    pub(crate) fn is_at(&self, host: &[u8], port: u16) -> bool {
        self.port == port && self.host.as_slice() == host
    }
}

/// A hash of a host and a port, which is never 0.
pub(crate) fn peer_hash(host: &[u8], port: u16) -> u64 {
    BuildHasherDefault::<FoldHasher>::new()
        .hash_one((host, port))
        .max(1)
}

/// A connection to a peer.
#[derive(Drop)]
pub(crate) struct TcpConnection<S> {
    /// The peer; none where the connection can't be kept behind its call.
    pub(crate) peer: Option<Peer>,
    pub(crate) stream: S,
    /// How many calls were made over it.
    pub(crate) calls: u32,
    /// The round of the pool in which its last call was done.
    pub(crate) round: u64,
    /// How long one read of the stream may take, as the system was told last.
    read_limit: Option<Duration>,
    /// How long one write to the stream may take, as the system was told last.
    write_limit: Option<Duration>,
}

impl<S> TcpConnection<S> {
    /// A connection over which no call was made yet.
    pub(crate) fn new(peer: Option<Peer>, stream: S) -> TcpConnection<S> {
        TcpConnection {
            peer,
            stream,
            calls: 0,
            round: 0,
            read_limit: None,
            write_limit: None,
        }
    }

    /// The peer, where it can be kept. The connection ends.
    pub(crate) fn into_peer(self) -> Option<Peer>
    where
        S: Drop,
    {
        self.peer
    }

    /// The hash of its peer; 0 where it can't be kept.
    pub(crate) fn hash(&self) -> u64 {
        match &self.peer {
            Some(peer) => peer.hash,
            None => 0,
        }
    }

    /// Whether it can be kept, and goes to this host and port.
    pub(crate) fn goes_to(&self, host: &[u8], port: u16) -> bool {
        match &self.peer {
            Some(peer) => peer.is_at(host, port),
            None => false,
        }
    }
}

impl<S: OpenStream> TcpConnection<S> {
    /// Has one read of the stream take no longer than this, or `LATEST` more. Answers whether it does.
    pub(crate) fn limit_read(&mut self, rest: Duration) -> bool {
        if is_near(self.read_limit, rest) {
            return true;
        }
        self.read_limit = rest.checked_add(Duration::from_millis(MARGIN));
        self.read_limit.is_some() && self.stream.set_read_timeout(self.read_limit).is_ok()
    }

    /// Has one write to the stream take no longer than this, or `LATEST` more. Answers whether it does.
    pub(crate) fn limit_write(&mut self, rest: Duration) -> bool {
        if is_near(self.write_limit, rest) {
            return true;
        }
        self.write_limit = rest.checked_add(Duration::from_millis(MARGIN));
        self.write_limit.is_some() && self.stream.set_write_timeout(self.write_limit).is_ok()
    }
}

/// Whether what lasts as long as this limit lasts no shorter than the rest, and at most `LATEST` longer. (So the system
/// is told a limit about twice a second, and not at each read and write.)
fn is_near(limit: Option<Duration>, rest: Duration) -> bool {
    let Some(limit) = limit else {
        return false;
    };
    match limit.checked_sub(rest) {
        Some(longer) => longer <= Duration::from_millis(LATEST),
        None => false,
    }
}

/// Whether a stream hasn't ended and nothing came over it that wasn't read, by a look that doesn't wait: only that it
/// would have to wait says so.
pub(crate) fn is_quiet<S: OpenStream>(stream: &S) -> bool {
    if stream.set_nonblocking(true).is_err() {
        return false;
    }
    let mut one = [0u8; 1];
    let waits = match stream.peek(&mut one) {
        Ok(_) => false,
        Err(e) => e.kind() == ErrorKind::WouldBlock,
    };
    stream.set_nonblocking(false).is_ok() && waits
}

/// Makes a connection to the first of the host's addresses at which one can be made.
pub(crate) fn open<R: Net + Clock>(
    rt: &R,
    deadline: Deadline,
    host: &[u8],
    port: u16,
) -> Result<R::Stream, Failed> {
    let Ok(host) = std::str::from_utf8(host) else {
        return Err(Failed);
    };
    let Ok(addresses) = (host, port).to_socket_addrs(rt) else {
        return Err(Failed);
    };
    for address in addresses {
        match open_at(rt, deadline, &address) {
            Ok(stream) => return Ok(stream),
            Err(_) => {}
        }
    }
    Err(Failed)
}

/// Makes a connection to this address, over which a piece goes out at once, where the system can do so.
fn open_at<R: Net + Clock>(
    rt: &R,
    deadline: Deadline,
    address: &SocketAddr,
) -> Result<R::Stream, Failed> {
    let Some(rest) = deadline.rest(rt) else {
        return Err(Failed);
    };
    let limit = rest.min(Duration::from_secs(CONNECT_LIMIT));
    match TcpStream::connect_timeout(rt, address, limit) {
        Ok(stream) => {
            let _ = stream.set_nodelay(true);
            Ok(stream)
        }
        Err(_) => Err(Failed),
    }
}
