//! A client's sink over TCP.

ghost use Rattle.std.specs.Prelude.{◌≡◌, ◌≤◌, None, true, false, is_some, OnOk};
ghost use Rattle.std.specs.Io.KnownBytes.{WriteAppends};
ghost use Rattle.td_out.specs.Causes.{next_count, HasCause, TakesPiece};

use crate::client_sink::ClientSink;
use crate::session_limit::SessionLimit;
use std::io::{Read, Write};
use std::marker::Model;
use std::net::{OpenStream, Shutdown};
use std::rt::Clock;
use std::time::{Duration, Instant};
use td_out::{Failed, Sink, read_some, write_some};

/// For how long a connection is read on that is closed, in milliseconds.
const LINGER_LIMIT: u64 = 1_000;

/// The same of a sink that was limited, which reads away what has come.
const SHORT_LINGER_LIMIT: u64 = 200;

/// How many bytes are read of a connection that is closed, at most: 16 MiB, and less than `READ_SIZE` more.
const REST_LIMIT: usize = 16_777_216;

/// How many bytes are read at once.
const READ_SIZE: usize = 16_384;

/// A client's sink over a TCP stream. It holds nothing back, and tells nothing of its content.
///
/// It is closed so that what was written arrives, also where the client has sent on: the end of the stream goes out,
/// and what the client sends is read away until it ends its side too, for a second at most and 16 MiB. Only then the
/// stream ends for reading as well. (A TCP connection that is closed while bytes of it are unread is reset, and the
/// client may lose what it hasn't read.) The sink lets go of the stream then; a write behind that is a fault.
///
/// Once it is limited, a write that isn't done a second and a half after is a fault. Behind each write no read of the
/// connection waits, over any of its handles, until one has taken bytes: so a session ends where its client has sent no
/// more before it had the reply. A close reads away only what has come, for a fifth of a second at most.
#[derive(Drop)]
pub struct TcpSink<'a, R, S> {
    rt: &'a R,
    stream: Option<S>,
    limit: Option<SessionLimit>,
    faults: u64,
}

impl<'a, R, S> Model for TcpSink<'a, R, S> {
    ghost use Rattle.std.specs.Prelude.{is_some};
    ghost use Rattle.td_accept.specs.Listening.{TcpSinkState};

    ghost Value = { TcpSinkState };

    ghost view = { λ s. record {
      connected = is_some s.stream;
      limited = is_some s.limit;
      faults = s.faults;
    } };
}

impl<'a, R, S> TcpSink<'a, R, S> {
    /// A sink that writes to this stream. No fault was counted yet.
    pub fn new(rt: &'a R, stream: S) -> TcpSink<'a, R, S>
        ensures { result ≡ record { connected = true; limited = false; faults = 0 } }
    {
        TcpSink {
            rt,
            stream: Some(stream),
            limit: None,
            faults: 0,
        }
    }

    /// Counts a fault. The count stands still at 2^64 - 1.
    fn count_fault(&mut self)
        ensures after { self.new ≡ record self.old { faults = next_count self.old.faults } }
        ensures later { self.old.faults ≤ self.new.faults }
    {
        self.faults = self.faults.saturating_add(1);
    }
}

impl<'a, R: Clock, S: Write + OpenStream> Sink for TcpSink<'a, R, S> {
    ghost written = { λ _. None };

    ghost faults = { λ s. s.faults };

    ghost same = { λ _ _. Unit {0} };

    ghost same_on = { λ _ _ _ _ _. tt };

    /// A write that takes nothing of a piece that isn't empty is a fault, and so is one to a sink that was closed.
    fn write(&mut self, piece: &[u8]) -> Result<usize, Failed>
        ensures same { Unit {0} }
        ensures some { TakesPiece result piece.now }
        ensures bytes { WriteAppends None None result piece.now }
        ensures cause { HasCause self.old.faults self.new.faults result }
        ensures connected { self.new.connected ≡ self.old.connected }
        ensures closed { OnOk result (self.old.connected ≡ true) }
        ensures limited { self.new.limited ≡ self.old.limited }
    {
        match write_to(self.rt, &mut self.stream, self.limit, piece) {
            Ok(size) => Ok(size),
            Err(fault) => {
                self.count_fault();
                Err(fault)
            }
        }
    }
}

impl<'a, R: Clock, S: Read + Write + OpenStream + Drop> ClientSink for TcpSink<'a, R, S> {
    ghost closed = { λ s. s.connected ≡ false };

    ghost limited = { λ s. s.limited ≡ true };

    fn close(&mut self) {
        if let Some(stream) = self.stream.take() {
            let linger = match self.limit {
                Some(_) => {
                    let _ = stream.set_nonblocking(true);
                    SHORT_LINGER_LIMIT
                }
                None => LINGER_LIMIT,
            };
            end(self.rt, stream, Duration::from_millis(linger));
        }
    }

    fn limit(&mut self) {
        self.limit = Some(SessionLimit::new(self.rt));
    }
}

/// One write to the stream, within the limit where there is one. Where no stream stands, it fails.
fn write_to<R: Clock, S: Write + OpenStream>(
    rt: &R,
    stream: &mut Option<S>,
    limit: Option<SessionLimit>,
    piece: &[u8],
) -> Result<usize, Failed>
    ensures some { TakesPiece result piece.now }
    ensures stays { is_some stream.new ≡ is_some stream.old }
    ensures connected { OnOk result (is_some stream.old ≡ true) }
{
    match stream {
        Some(stream) => write_within(rt, stream, limit, piece),
        None => Err(Failed),
    }
}

/// One write to the stream. Where there is a limit it takes no longer than what is left of the session, and reads
/// behind it don't wait.
fn write_within<R: Clock, S: Write + OpenStream>(
    rt: &R,
    stream: &mut S,
    limit: Option<SessionLimit>,
    piece: &[u8],
) -> Result<usize, Failed>
    ensures some { TakesPiece result piece.now }
{
    let Some(limit) = limit else {
        return write_some(stream, piece);
    };
    let Some(rest) = limit.rest(rt) else {
        return Err(Failed);
    };
    if stream.set_write_timeout(Some(rest)).is_err() {
        return Err(Failed);
    }
    let _ = stream.set_nonblocking(false);
    let size = write_some(stream, piece);
    let _ = stream.set_nonblocking(true);
    size
}

/// Ends a stream for writing, reads its rest away, and ends it for reading. Other handles of the stream may stand.
fn end<R: Clock, S: Read + OpenStream + Drop>(rt: &R, stream: S, linger: Duration) {
    let mut stream = stream;
    if stream.shutdown(Shutdown::Write).is_ok() {
        read_away(rt, &mut stream, linger);
    }
    let _ = stream.shutdown(Shutdown::Both);
}

/// Reads what still comes, for so long and within the limit of bytes.
fn read_away<R: Clock, S: Read + OpenStream>(rt: &R, stream: &mut S, linger: Duration) {
    let Ok(start) = Instant::now(rt) else {
        return;
    };
    let mut room = [0u8; READ_SIZE];
    let mut taken = 0usize;
    for _ in 0..REST_LIMIT {
        if taken >= REST_LIMIT || !is_in_time(rt, start, linger, stream) {
            return;
        }
        match read_some(stream, &mut room) {
            Ok(0) => return,
            Ok(size) => taken = taken.saturating_add(size),
            Err(_) => return,
        }
    }
}

/// Whether there is time left of so much since then. The next read of the stream takes no longer.
fn is_in_time<R: Clock, S: OpenStream>(
    rt: &R,
    start: Instant,
    linger: Duration,
    stream: &S,
) -> bool {
    let Ok(passed) = start.elapsed(rt) else {
        return false;
    };
    match linger.checked_sub(passed) {
        Some(left) => stream.set_read_timeout(Some(left)).is_ok(),
        None => false,
    }
}
