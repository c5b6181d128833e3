//! A runtime whose clock a test puts forward.

use std::io;
use std::net::{Net, SocketAddr};
use std::rt::Clock;
use std::sync::atomic::{AtomicU64, Ordering};
use std::time::Duration;

/// The network of a runtime, and its clock put forward by so many milliseconds.
#[derive(Drop)]
pub struct LaterClock<'a, R> {
    rt: &'a R,
    ahead: AtomicU64,
}

impl<'a, R> LaterClock<'a, R> {
    /// The clock of this runtime.
    pub fn new(rt: &'a R) -> LaterClock<'a, R> {
        LaterClock {
            rt,
            ahead: AtomicU64::new(0),
        }
    }

    /// Puts the clock forward by so many milliseconds.
    pub fn put_forward(&self, millis: u64) {
        self.ahead.fetch_add(millis, Ordering::SeqCst);
    }
}

impl<'a, R: Clock> Clock for LaterClock<'a, R> {
    fn monotonic(&self) -> io::Result<Duration> {
        let ahead = Duration::from_millis(self.ahead.load(Ordering::SeqCst));
        Ok(self.rt.monotonic()?.saturating_add(ahead))
    }

    fn since_1970(&self) -> io::Result<Duration> {
        self.rt.since_1970()
    }
}

impl<'a, R: Net> Net for LaterClock<'a, R> {
    type Stream = R::Stream;

    type Listener = R::Listener;

    fn bind(&self, addr: SocketAddr) -> io::Result<R::Listener> {
        self.rt.bind(addr)
    }

    fn connect(&self, addr: SocketAddr) -> io::Result<R::Stream> {
        self.rt.connect(addr)
    }

    fn connect_timeout(&self, addr: SocketAddr, timeout: Duration) -> io::Result<R::Stream> {
        self.rt.connect_timeout(addr, timeout)
    }

    fn lookup_host(&self, host: &str, port: u16, found: &mut [SocketAddr]) -> io::Result<usize> {
        self.rt.lookup_host(host, port, found)
    }
}
