//! What several tests ask.

use std::io::{Read, Write};
use std::net::{Ipv4Addr, Net, SocketAddr, TcpListener, TcpStream};
use std::test::Fail;
use std::time::Duration;

/// A value that may go to another thread.
pub fn goes_along<T: Send>(_value: &T) {}

/// A port of loopback that was free just now.
pub fn free_port<R: Net<Listener = TcpListener, Stream = TcpStream>>(rt: &R) -> Result<u16, Fail> {
    let listener = TcpListener::bind(rt, SocketAddr::from((Ipv4Addr::LOCALHOST, 0)))?;
    Ok(listener.local_addr()?.port())
}

/// A client of an acceptor that is bound to this port of loopback, with a limit of time of its own.
pub fn client<R: Net<Listener = TcpListener, Stream = TcpStream>>(
    rt: &R,
    port: u16,
) -> Result<TcpStream, Fail> {
    let stream = TcpStream::connect(rt, SocketAddr::from((Ipv4Addr::LOCALHOST, port)))?;
    stream.set_read_timeout(Some(Duration::from_secs(10)))?;
    Ok(stream)
}

/// Whether the client can send so many bytes, and reads then what was told and the end.
pub fn hears(mut stream: TcpStream, size: usize) -> bool {
    let piece = [0u8; 4096];
    for _ in 0..size / 4096 {
        if stream.write_all(&piece).is_err() {
            return false;
        }
    }
    let mut content = [0; 4];
    if stream.read_exact(&mut content).is_err() || content != *b"told" {
        return false;
    }
    matches!(stream.read(&mut content), Ok(0))
}
