//! A network and a clock of the test's own, which say what was done with them.

ghost use Rattle.std.specs.Prelude.{None};

use std::io::{self, ErrorKind};
use std::net::{Ipv4Addr, Net, OpenListener, OpenStream, Shutdown, SocketAddr};
use std::os::fd::{AsRawFd, RawFd};
use std::rt::Clock;
use std::sync::atomic::{AtomicU64, Ordering};
use std::time::Duration;

/// What a fake network does.
#[derive(Clone, Copy)]
pub struct Plan {
    /// The error numbers with which the first calls of `accept` fail. 0 gives a connection.
    pub accepts: &'static [i32],
    /// The error number with which each further call of `accept` fails, or 0.
    pub last: i32,
    /// With which error number so many first calls of `try_clone` fail.
    pub clones_failing: u64,
    pub clone_error: i32,
    /// How many bytes each read gives at most.
    pub read_size: usize,
    /// How many reads give bytes. Behind them nothing comes, and the stream doesn't end.
    pub most_reads: u64,
    /// How many milliseconds the clock goes on with each reading of it.
    pub tick: u64,
}

/// A network where all goes well at once: each read gives a byte, without end, and the clock stands still.
pub const PLAIN: Plan = Plan {
    accepts: &[],
    last: 0,
    clones_failing: 0,
    clone_error: 0,
    read_size: 1,
    most_reads: u64::MAX,
    tick: 0,
};

/// What was done so far.
#[derive(Drop)]
pub struct FakeNet {
    plan: Plan,
    accepts: AtomicU64,
    clones: AtomicU64,
    reads: AtomicU64,
    /// Whether a read or a write waits: 1 where it doesn't.
    nonblocking: AtomicU64,
    /// How many writes there were that wait for no client.
    hasty_writes: AtomicU64,
    /// How often a stream was ended for writing, and for both.
    shuts: AtomicU64,
    closes: AtomicU64,
    /// The limits of time of reads and of writes, in milliseconds. 0 is none yet.
    read_limit: AtomicU64,
    write_limit: AtomicU64,
    connects: AtomicU64,
    /// The time, in milliseconds.
    time: AtomicU64,
    slept: AtomicU64,
}

/// One more.
fn count(number: &AtomicU64) -> u64 {
    number.fetch_add(1, Ordering::SeqCst)
}

/// A duration in milliseconds.
fn millis(duration: Duration) -> u64 {
    u64::try_from(duration.as_millis()).unwrap_or(u64::MAX)
}

fn unsupported() -> io::Error {
    io::Error::from(ErrorKind::Unsupported)
}

impl FakeNet {
    pub fn new(plan: Plan) -> FakeNet {
        FakeNet {
            plan,
            accepts: AtomicU64::new(0),
            clones: AtomicU64::new(0),
            reads: AtomicU64::new(0),
            nonblocking: AtomicU64::new(0),
            hasty_writes: AtomicU64::new(0),
            shuts: AtomicU64::new(0),
            closes: AtomicU64::new(0),
            read_limit: AtomicU64::new(0),
            write_limit: AtomicU64::new(0),
            connects: AtomicU64::new(0),
            time: AtomicU64::new(0),
            slept: AtomicU64::new(0),
        }
    }

    /// How often `accept` was called.
    pub fn accepts(&self) -> u64 {
        self.accepts.load(Ordering::SeqCst)
    }

    /// How many reads there were.
    pub fn reads(&self) -> u64 {
        self.reads.load(Ordering::SeqCst)
    }

    /// Whether a read waits where nothing has come.
    pub fn read_waits(&self) -> bool {
        self.nonblocking.load(Ordering::SeqCst) == 0
    }

    /// How many writes there were that wait for no client.
    pub fn hasty_writes(&self) -> u64 {
        self.hasty_writes.load(Ordering::SeqCst)
    }

    /// How often a stream was ended for writing, and for both.
    pub fn ends(&self) -> (u64, u64) {
        (
            self.shuts.load(Ordering::SeqCst),
            self.closes.load(Ordering::SeqCst),
        )
    }

    /// The limit of time of reads, in milliseconds. 0 is none yet.
    pub fn read_limit(&self) -> u64 {
        self.read_limit.load(Ordering::SeqCst)
    }

    /// The limit of time of writes, in milliseconds. 0 is none yet.
    pub fn write_limit(&self) -> u64 {
        self.write_limit.load(Ordering::SeqCst)
    }

    /// How often it was to connect to a peer.
    pub fn connects(&self) -> u64 {
        self.connects.load(Ordering::SeqCst)
    }

    /// Puts the clock forward, by milliseconds.
    pub fn put_forward(&self, time: u64) {
        self.time.fetch_add(time, Ordering::SeqCst);
    }

    /// The time, in milliseconds.
    pub fn time(&self) -> u64 {
        self.time.load(Ordering::SeqCst)
    }

    /// How long was slept, in milliseconds.
    pub fn slept(&self) -> u64 {
        self.slept.load(Ordering::SeqCst)
    }
}

impl<'n> Clock for &'n FakeNet {
    fn monotonic(&self) -> io::Result<Duration> {
        let time = self.time.fetch_add(self.plan.tick, Ordering::SeqCst);
        Ok(Duration::from_millis(time))
    }

    fn since_1970(&self) -> io::Result<Duration> {
        Err(unsupported())
    }

    fn sleep(&self, duration: Duration) {
        self.slept.fetch_add(millis(duration), Ordering::SeqCst);
    }
}

/// A stream over which bytes come by the plan. A read that waits in vain puts the clock forward by its limit of time.
#[derive(Drop)]
pub struct FakeStream<'n> {
    net: &'n FakeNet,
}

impl<'n> FakeStream<'n> {
    pub fn new(net: &'n FakeNet) -> FakeStream<'n> {
        FakeStream { net }
    }
}

impl<'n> io::Read for FakeStream<'n> {
    fn read(&mut self, buf: &mut [u8]) -> io::Result<usize> {
        if count(&self.net.reads) < self.net.plan.most_reads {
            return Ok(buf.len().min(self.net.plan.read_size));
        }
        if self.net.read_waits() {
            self.net.put_forward(self.net.read_limit());
        }
        Err(io::Error::from(ErrorKind::WouldBlock))
    }
}

impl<'n> io::Write for FakeStream<'n> {
    fn write(&mut self, buf: &[u8]) -> io::Result<usize> {
        if !self.net.read_waits() {
            count(&self.net.hasty_writes);
        }
        Ok(buf.len())
    }

    fn flush(&mut self) -> io::Result<()> {
        Ok(())
    }
}

impl<'n> AsRawFd for FakeStream<'n> {
    fn as_raw_fd(&self) -> RawFd {
        -1
    }
}

impl<'n> OpenStream for FakeStream<'n> {
    fn shutdown(&self, how: Shutdown) -> io::Result<()> {
        match how {
            Shutdown::Write => count(&self.net.shuts),
            Shutdown::Both => count(&self.net.closes),
            Shutdown::Read => 0,
        };
        Ok(())
    }

    fn set_nonblocking(&self, nonblocking: bool) -> io::Result<()> {
        let held = u64::from(nonblocking);
        self.net.nonblocking.store(held, Ordering::SeqCst);
        Ok(())
    }

    fn set_read_timeout(&self, dur: Option<Duration>) -> io::Result<()> {
        match dur {
            Some(dur) if !dur.is_zero() => {
                self.net.read_limit.store(millis(dur), Ordering::SeqCst);
                Ok(())
            }
            _ => Err(unsupported()),
        }
    }

    fn set_write_timeout(&self, dur: Option<Duration>) -> io::Result<()> {
        match dur {
            Some(dur) => {
                self.net.write_limit.store(millis(dur), Ordering::SeqCst);
                Ok(())
            }
            None => Err(unsupported()),
        }
    }

    fn try_clone(&self) -> io::Result<FakeStream<'n>> {
        if count(&self.net.clones) < self.net.plan.clones_failing {
            return Err(io::Error::from_raw_os_error(self.net.plan.clone_error));
        }
        Ok(FakeStream { net: self.net })
    }
}

/// A listener whose calls end by the plan.
#[derive(Drop)]
pub struct FakeListener<'n> {
    net: &'n FakeNet,
}

impl<'n> AsRawFd for FakeListener<'n> {
    fn as_raw_fd(&self) -> RawFd {
        -1
    }
}

impl<'n> OpenListener for FakeListener<'n> {
    type Stream = FakeStream<'n>;

    fn accept(&self) -> io::Result<(FakeStream<'n>, SocketAddr)> {
        let net = self.net;
        let call = count(&net.accepts) as usize;
        let plan = net.plan;
        let error = match plan.accepts.get(call) {
            Some(error) => *error,
            None => plan.last,
        };
        if error != 0 {
            return Err(io::Error::from_raw_os_error(error));
        }
        let peer = SocketAddr::from((Ipv4Addr::LOCALHOST, 0));
        Ok((FakeStream { net }, peer))
    }
}

impl<'n> Net for &'n FakeNet {
    type Stream = FakeStream<'n>;

    type Listener = FakeListener<'n>;

    fn bind(&self, _addr: SocketAddr) -> io::Result<FakeListener<'n>> {
        Ok(FakeListener { net: *self })
    }

    fn connect(&self, _addr: SocketAddr) -> io::Result<FakeStream<'n>> {
        count(&self.connects);
        Err(unsupported())
    }

    fn connect_timeout(&self, addr: SocketAddr, _limit: Duration) -> io::Result<FakeStream<'n>> {
        self.connect(addr)
    }
}
