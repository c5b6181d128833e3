//! An acceptor over TCP: two connections over loopback from wires of the test, and addresses that can't be bound.

ghost use Rattle.std.specs.Prelude.{◌≡◌, true};

use crate::support::{free_port, goes_along};
use std::net::{Ipv4Addr, SocketAddr, TcpListener};
use std::test::Fail;
use td_accept::{Accept, TcpAccept, Visitor};
use td_out::{ChaChaWords, Sink, Source, Words};
use td_wire::{TcpWire, Wire};

/// Whether the wire's bytes come to the visitor, and the reply to them goes back.
fn talks<S: Source, K: Sink, L, W: Words, C: Wire>(
    visitor: &mut Visitor<S, K, L, W>,
    wire: &mut C,
) -> bool {
    let mut room = [0; 8];
    let mut good = wire.write(&[1, 2, 3]) == Ok(3);
    good &= visitor.source.read(&mut room) == Ok(3) && room == [1, 2, 3, 0, 0, 0, 0, 0];
    good &= visitor.sink.write(&[4, 5]) == Ok(2);
    good &= wire.read(&mut room) == Ok(2) && room == [4, 5, 3, 0, 0, 0, 0, 0];
    good &= visitor.words.next() == ChaChaWords::new().next();
    good
}

/// Whether a connection over this wire is a visitor, with whom it ends.
fn comes<A: Accept, C: Wire>(accept: &mut A, wire: &mut C, port: u16) -> bool
    requires { A.bound accept.old ≡ true }
    ensures { A.bound accept.new ≡ true }
{
    if wire.connect(b"127.0.0.1", port).is_err() {
        return false;
    }
    match accept.next() {
        Ok(Some(mut visitor)) => {
            goes_along(&visitor);
            let good = talks(&mut visitor, wire);
            drop(visitor);
            good && wire.read(&mut [0u8]) == Ok(0)
        }
        _ => false,
    }
}

/// Whether two connections are two visitors.
fn two_come<A: Accept, C: Wire>(accept: &mut A, wire: &mut C, port: u16) -> bool {
    if accept.bind(b"127.0.0.1", port).is_err() {
        return false;
    }
    comes(accept, wire, port) && comes(accept, wire, port)
}

#[test]
fn connections_are_visitors(rt: HostRuntime) -> Result<(), Fail> {
    let port = free_port(&rt)?;
    let mut accept = TcpAccept::new(&rt, None);
    let mut wire = TcpWire::new(&rt);
    assert!(rt; two_come(&mut accept, &mut wire, port));
    Ok(())
}

#[test]
fn an_address_of_another_can_not_be_bound(rt: HostRuntime) -> Result<(), Fail> {
    let listener = TcpListener::bind(&rt, SocketAddr::from((Ipv4Addr::LOCALHOST, 0)))?;
    let port = listener.local_addr()?.port();
    let mut accept = TcpAccept::new(&rt, None);
    let mut good = accept.bind(b"127.0.0.1", port).is_err();
    good &= accept.bind(b"\xff", 0).is_err();
    drop(listener);
    assert!(rt; good);
    Ok(())
}
