//! A client's source over TCP.

ghost use Rattle.std.specs.Prelude.{◌≡◌, ◌≤◌, None, true, false};
ghost use Rattle.std.specs.Io.{ReadsAtMost};
ghost use Rattle.std.specs.Io.KnownBytes.{ReadConsumes};
ghost use Rattle.td_out.specs.Causes.{next_count, HasCause};

use crate::client_source::ClientSource;
use crate::session_limit::SessionLimit;
use std::io::Read;
use std::marker::Model;
use std::net::OpenStream;
use std::rt::Clock;
use std::time::Duration;
use td_out::{Failed, Source, read_some};

/// How long the first read of a limited source waits for bytes, in milliseconds.
const FIRST_WAIT: u64 = 1_000;

/// How long each further one waits where no reply was written since the one before, in milliseconds.
const NEXT_WAIT: u64 = 200;

/// A client's source over a TCP stream. It tells nothing of its content.
///
/// It waits for bytes as long as the client likes, until it is limited: from then on its first read waits for a second
/// at most and each further one for a fifth of a second, and none begins after a second and a half in all. Behind a
/// write of the limited sink of the same connection a read waits for nothing (`TcpSink`). What would wait longer is a
/// fault.
#[derive(Drop)]
pub struct TcpSource<'a, R, S> {
    rt: &'a R,
    stream: S,
    limit: Option<SessionLimit>,
    /// How long the next read waits where it is limited.
    wait: Duration,
    faults: u64,
}

impl<'a, R, S> Model for TcpSource<'a, R, S> {
    ghost use Rattle.std.specs.Prelude.{is_some};
    ghost use Rattle.td_accept.specs.Listening.{TcpSourceState};

    ghost Value = { TcpSourceState };

    ghost view = { λ s. record { limited = is_some s.limit; faults = s.faults } };
}

impl<'a, R, S> TcpSource<'a, R, S> {
    /// A source that reads from this stream. No fault was counted yet.
    pub fn new(rt: &'a R, stream: S) -> TcpSource<'a, R, S>
        ensures { result ≡ record { limited = false; faults = 0 } }
    {
        TcpSource {
            rt,
            stream,
            limit: None,
            wait: Duration::from_millis(FIRST_WAIT),
            faults: 0,
        }
    }

    /// Counts a fault. The count stands still at 2^64 - 1.
    fn count_fault(&mut self)
        ensures after { self.new ≡ record self.old { faults = next_count self.old.faults } }
        ensures later { self.old.faults ≤ self.new.faults }
    {
        self.faults = self.faults.saturating_add(1);
    }
}

impl<'a, R: Clock, S: Read + OpenStream> Source for TcpSource<'a, R, S> {
    ghost left = { λ _. None };

    ghost faults = { λ s. s.faults };

    ghost same = { λ _ _. Unit {0} };

    ghost same_on = { λ _ _ _ _ _. tt };

    fn read(&mut self, into: &mut [u8]) -> Result<usize, Failed>
        ensures same { Unit {0} }
        ensures bound { ReadsAtMost result into.new }
        ensures bytes { ReadConsumes None None result into.new }
        ensures cause { HasCause self.old.faults self.new.faults result }
        ensures limited { self.new.limited ≡ self.old.limited }
    {
        let wait = self.wait;
        self.wait = Duration::from_millis(NEXT_WAIT);
        match read_within(self.rt, &mut self.stream, self.limit, wait, into) {
            Ok(size) => Ok(size),
            Err(fault) => {
                self.count_fault();
                Err(fault)
            }
        }
    }
}

impl<'a, R: Clock, S: Read + OpenStream> ClientSource for TcpSource<'a, R, S> {
    ghost limited = { λ s. s.limited ≡ true };

    fn limit(&mut self) {
        self.wait = Duration::from_millis(FIRST_WAIT);
        self.limit = Some(SessionLimit::new(self.rt));
    }
}

/// One read of the stream. Where there is a limit it takes no longer than this, nor than what is left of the session.
fn read_within<R: Clock, S: Read + OpenStream>(
    rt: &R,
    stream: &mut S,
    limit: Option<SessionLimit>,
    wait: Duration,
    into: &mut [u8],
) -> Result<usize, Failed>
    ensures bound { ReadsAtMost result into.new }
{
    if let Some(limit) = limit {
        let Some(rest) = limit.rest(rt) else {
            return Err(Failed);
        };
        let wait = if wait < rest { wait } else { rest };
        if stream.set_read_timeout(Some(wait)).is_err() {
            return Err(Failed);
        }
    }
    let size = read_some(stream, into);
    if limit.is_some() {
        // A message may have begun behind a reply: its rest is waited for.
        let _ = stream.set_nonblocking(false);
    }
    size
}
