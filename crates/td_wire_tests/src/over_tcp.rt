//! A wire over TCP: one request over loopback to a listener of the test, and a peer that isn't there.

use crate::support::goes_along;
use std::io::{Read, Write};
use std::net::{Ipv4Addr, Net, SocketAddr, TcpListener, TcpStream};
use std::test::Fail;
use td_out::Failed;
use td_wire::{TcpWire, Wire};

/// A wire over the system's sockets may go to another thread.
fn wire_goes_along<R: Net<Listener = TcpListener, Stream = TcpStream> + Sync>(
    wire: &TcpWire<'_, R>,
) {
    goes_along(wire);
}

/// Whether the listener's side of the connection reads these four bytes, and answers with their reverse.
fn serves(listener: &TcpListener, request: [u8; 4]) -> bool {
    match listener.accept() {
        Ok((stream, _peer)) => answers(stream, request),
        Err(_) => false,
    }
}

/// The same of a connection that was accepted, which then ends.
fn answers(mut stream: TcpStream, request: [u8; 4]) -> bool {
    let mut came = [0; 4];
    if stream.read_exact(&mut came).is_err() {
        return false;
    }
    let [a, b, c, d] = came;
    stream.write_all(&[d, c, b, a]).is_ok() && came == request
}

/// Whether the wire gives these four bytes, and then its end.
fn gives<L: Wire>(wire: &mut L, answer: [u8; 4]) -> bool {
    let mut room = [0; 4];
    if wire.read(&mut room) != Ok(4) || room != answer {
        return false;
    }
    wire.read(&mut room) == Ok(0)
}

/// Whether a request goes over the connection and its answer comes back.
fn asks<L: Wire>(wire: &mut L, listener: &TcpListener, host: &[u8], port: u16) -> bool {
    wire.connect(host, port) == Ok(())
        && wire.write(&[1, 2, 3, 4]) == Ok(4)
        && serves(listener, [1, 2, 3, 4])
        && gives(wire, [4, 3, 2, 1])
}

#[test]
fn a_request_goes_over_loopback(rt: HostRuntime) -> Result<(), Fail> {
    let listener = TcpListener::bind(&rt, SocketAddr::from((Ipv4Addr::LOCALHOST, 0)))?;
    let port = listener.local_addr()?.port();
    let mut wire = TcpWire::new(&rt);
    wire_goes_along(&wire);
    let mut good = asks(&mut wire, &listener, b"127.0.0.1", port);
    good &= asks(&mut wire, &listener, b"localhost", port);
    assert!(rt; good);
    Ok(())
}

/// Whether none of the calls of a wire without a connection is done.
fn is_cut<L: Wire>(wire: &mut L) -> bool {
    wire.write(&[1]) == Err(Failed) && wire.read(&mut [0u8]) == Err(Failed)
}

#[test]
fn a_peer_that_is_not_there_is_a_fault(rt: HostRuntime) -> Result<(), Fail> {
    let listener = TcpListener::bind(&rt, SocketAddr::from((Ipv4Addr::LOCALHOST, 0)))?;
    let port = listener.local_addr()?.port();
    drop(listener);
    let mut wire = TcpWire::new(&rt);
    let mut good = wire.connect(b"127.0.0.1", port) == Err(Failed);
    good &= wire.connect(b"\xff", port) == Err(Failed);
    good &= is_cut(&mut wire);
    assert!(rt; good);
    Ok(())
}
