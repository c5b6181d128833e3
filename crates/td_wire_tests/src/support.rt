//! What the tests of wires and of the outside all ask.

use std::net::{Ipv4Addr, Net, SocketAddr, TcpListener, TcpStream};
use std::test::Fail;

/// A listener of loopback, and its port.
pub fn listens<R: Net<Listener = TcpListener, Stream = TcpStream>>(
    rt: &R,
) -> Result<(TcpListener, u16), Fail> {
    let listener = TcpListener::bind(rt, SocketAddr::from((Ipv4Addr::LOCALHOST, 0)))?;
    let port = listener.local_addr()?.port();
    Ok((listener, port))
}

/// A value that may go to another thread.
pub fn goes_along<T: Send>(_value: &T) {}
