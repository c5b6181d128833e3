//! A network whose every peer gives zeros without end, and a clock that stands.

use std::io::{self, ErrorKind, Read, Write};
use std::net::{Net, OpenListener, OpenStream, SocketAddr};
use std::os::fd::{AsRawFd, RawFd};
use std::rt::Clock;
use std::time::Duration;

/// The network.
pub struct EndlessNet;

/// A connection that gives zeros, and takes whatever is written.
#[derive(Drop)]
pub struct Zeros;

/// A listener, of which there is none.
#[derive(Drop)]
pub struct NoListener;

fn unsupported() -> io::Error {
    io::Error::from(ErrorKind::Unsupported)
}

impl Read for Zeros {
    fn read(&mut self, buf: &mut [u8]) -> io::Result<usize> {
        Ok(buf.len())
    }
}

impl Write for Zeros {
    fn write(&mut self, buf: &[u8]) -> io::Result<usize> {
        Ok(buf.len())
    }

    fn flush(&mut self) -> io::Result<()> {
        Ok(())
    }
}

impl OpenStream for Zeros {
    fn set_read_timeout(&self, _dur: Option<Duration>) -> io::Result<()> {
        Ok(())
    }
}

impl AsRawFd for Zeros {
    fn as_raw_fd(&self) -> RawFd {
        -1
    }
}

impl AsRawFd for NoListener {
    fn as_raw_fd(&self) -> RawFd {
        -1
    }
}

impl OpenListener for NoListener {
    type Stream = Zeros;

    fn accept(&self) -> io::Result<(Zeros, SocketAddr)> {
        Err(unsupported())
    }
}

impl Net for EndlessNet {
    type Stream = Zeros;

    type Listener = NoListener;

    fn bind(&self, _addr: SocketAddr) -> io::Result<NoListener> {
        Err(unsupported())
    }

    fn connect(&self, _addr: SocketAddr) -> io::Result<Zeros> {
        Ok(Zeros)
    }

    fn connect_timeout(&self, _addr: SocketAddr, _timeout: Duration) -> io::Result<Zeros> {
        Ok(Zeros)
    }
}

impl Clock for EndlessNet {
    fn monotonic(&self) -> io::Result<Duration> {
        Ok(Duration::from_secs(1))
    }

    fn since_1970(&self) -> io::Result<Duration> {
        Ok(Duration::from_secs(1))
    }
}
