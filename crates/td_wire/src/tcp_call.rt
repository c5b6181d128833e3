//! One call over TCP: its connection, and how much of time and bytes it may still take.

ghost use Rattle.std.specs.Io.{ReadsAtMost};
ghost use Rattle.td_out.specs.Causes.{TakesPiece};

use crate::tcp_connection::{LATEST, TcpConnection};
use std::io::{Read, Write};
use std::net::OpenStream;
use std::rt::Clock;
use std::time::{Duration, Instant};
use td_out::{Failed, read_some, write_some};

/// How long a call may take, in milliseconds, from before its connection is made to its last byte.
const CALL_LIMIT: u64 = 60_000;

/// How many bytes a call may read: 256 MiB.
const READ_LIMIT: usize = 256 * 1024 * 1024;

/// A rest of time that counts as none, in milliseconds: the system's timers may go off so much too early.
const NO_TIME: u64 = 20;

/// When no read or write of a call begins any more: what has begun is over `LATEST` behind that.
#[derive(Clone, Copy)]
pub(crate) struct Deadline(Instant);

impl Deadline {
    /// The deadline of a call that begins now; none where the clock tells no time.
    pub(crate) fn of_call<C: Clock>(clock: &C) -> Option<Deadline> {
        let now = Instant::now(clock).ok()?;
        Some(Deadline(now.checked_add(Duration::from_millis(CALL_LIMIT - LATEST))?))
    }

    /// How much time is left; none where the deadline is past, or the clock tells no time.
    pub(crate) fn rest<C: Clock>(&self, clock: &C) -> Option<Duration> {
        let now = Instant::now(clock).ok()?;
        let rest = self.0.duration_since(now);
        if rest > Duration::from_millis(NO_TIME) {
            Some(rest)
        } else {
            None
        }
    }
}

/// A call over a connection.
#[derive(Drop)]
pub(crate) struct TcpCall<S> {
    pub(crate) connection: TcpConnection<S>,
    pub(crate) deadline: Deadline,
    /// How many bytes it may still read.
    pub(crate) left: usize,
    /// Whether it tries a peer again that couldn't be reached.
    pub(crate) is_retry: bool,
}

impl<S> TcpCall<S> {
    /// A call that has read nothing yet.
    pub(crate) fn new(
        connection: TcpConnection<S>,
        deadline: Deadline,
        is_retry: bool,
    ) -> TcpCall<S> {
        TcpCall {
            connection,
            deadline,
            left: READ_LIMIT,
            is_retry,
        }
    }
}

impl<S: OpenStream + Read + Write> TcpCall<S> {
    /// One read of the stream, which takes no longer than the call may.
    pub(crate) fn read<C: Clock>(&mut self, clock: &C, into: &mut [u8]) -> Result<usize, Failed>
        ensures bound { ReadsAtMost result into.new }
    {
        let room = into.len().min(self.left);
        if room == 0 && !into.is_empty() {
            return Err(Failed);
        }
        let Some(rest) = self.deadline.rest(clock) else {
            return Err(Failed);
        };
        if !self.connection.limit_read(rest) {
            return Err(Failed);
        }
        let size = read_some(&mut self.connection.stream, &mut into[..room])?;
        self.left = self.left.saturating_sub(size);
        Ok(size)
    }

    /// One write to the stream, which takes no longer than the call may.
    pub(crate) fn write<C: Clock>(&mut self, clock: &C, piece: &[u8]) -> Result<usize, Failed>
        ensures some { TakesPiece result piece.now }
    {
        let Some(rest) = self.deadline.rest(clock) else {
            return Err(Failed);
        };
        if !self.connection.limit_write(rest) {
            return Err(Failed);
        }
        write_some(&mut self.connection.stream, piece)
    }
}
