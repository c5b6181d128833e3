//! How a listener's next connection is taken.

ghost use Rattle.std.specs.Prelude.{◌≡◌, ◌+◌, ◌-◌, if◌then◌else◌};

use crate::accept_fault::AcceptFault;
use std::io;
use std::net::{OpenListener, OpenStream};
use std::rt::Clock;
use std::time::Duration;
use td_out::Failed;

/// How long one write to a client may take that takes nothing, in seconds.
const WRITE_LIMIT: u64 = 60;

/// How long is waited at once where the system is short of something, in milliseconds.
const PAUSE: u64 = 100;

/// How often is waited so for one connection: for 30 seconds in all.
const MOST_PAUSES: u32 = 300;

/// The pauses that are left until a connection was taken.
#[derive(Drop)]
struct Pauses<'a, R> {
    rt: &'a R,
    left: u32,
}

impl<'a, R: Clock> Pauses<'a, R> {
    /// Waits a little, unless that was done often enough. Answers whether it did.
    fn wait(&mut self) -> bool
        ensures waited { self.old.left ≡ (if result then self.new.left + 1 else 0) }
        ensures left { self.new.left ≡ self.old.left - 1 }
    {
        if self.left == 0 {
            return false;
        }
        self.left -= 1;
        self.rt.sleep(Duration::from_millis(PAUSE));
        true
    }

    /// Whether it may be tried again after this error. Where the system is short of something, it waits before.
    fn pass(&mut self, error: &io::Error) -> bool {
        match AcceptFault::new(error.kind(), error.raw_os_error()) {
            AcceptFault::Connection => true,
            AcceptFault::Resources => self.wait(),
            AcceptFault::Listener => false,
        }
    }
}

/// The next connection, for reading and for writing. One over which the network failed before it was taken is passed
/// over, and one that can't be prepared is let go. Where the system is short of descriptors, buffers or memory, it is
/// tried again for 30 seconds in all.
pub(crate) fn next_connection<R: Clock, L: OpenListener>(
    rt: &R,
    listener: &L,
) -> Result<(L::Stream, L::Stream), Failed>
where
    L::Stream: OpenStream,
{
    let mut pauses = Pauses {
        rt,
        left: MOST_PAUSES,
    };
    for _ in 0..u64::MAX {
        match listener.accept() {
            Ok((stream, _peer)) => {
                if let Some(ends) = split(&mut pauses, stream) {
                    return Ok(ends);
                }
            }
            Err(error) => {
                if !pauses.pass(&error) {
                    return Err(Failed);
                }
            }
        }
    }
    Err(Failed)
}

/// Both ends of a connection, over which small pieces go out at once where the system can do so. None where it can't be
/// prepared.
fn split<'a, R: Clock, S: OpenStream + Drop>(
    pauses: &mut Pauses<'a, R>,
    stream: S,
) -> Option<(S, S)> {
    let _ = stream.set_nodelay(true);
    let limit = Duration::from_secs(WRITE_LIMIT);
    if stream.set_write_timeout(Some(limit)).is_err() {
        return None;
    }
    for _ in 0..u64::MAX {
        match stream.try_clone() {
            Ok(twin) => return Some((stream, twin)),
            Err(error) => {
                if !pauses.pass(&error) {
                    return None;
                }
            }
        }
    }
    None
}
