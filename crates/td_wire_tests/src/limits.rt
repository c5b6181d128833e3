//! How long calls over TCP last and how much they read, and peers that can't be reached.

use crate::endless_net::EndlessNet;
use crate::later_clock::LaterClock;
use crate::support::listens;
use std::io::Write;
use std::net::{Ipv4Addr, Net, SocketAddr, TcpListener, TcpStream};
use std::test::Fail;
use td_out::Failed;
use td_wire::{ConnectionPool, TcpWire, Wire};

/// Whether a connection to this port is made.
fn goes<L: Wire>(wire: &mut L, port: u16) -> bool {
    wire.connect(b"127.0.0.1", port) == Ok(())
}

/// A port of loopback at which nobody listens.
fn closed_port<R: Net<Listener = TcpListener, Stream = TcpStream>>(rt: &R) -> Result<u16, Fail> {
    let (listener, port) = listens(rt)?;
    drop(listener);
    Ok(port)
}

/// Whether the peer fails at once, and one call tries it when 5 seconds are over, behind which it is called as before.
fn comes_back<L: Wire, R>(
    clock: &LaterClock<'_, R>,
    one: &mut L,
    other: &mut L,
    port: u16,
) -> bool {
    let mut good = !goes(one, port) && !goes(other, port);
    clock.put_forward(4_000);
    good &= !goes(other, port);
    clock.put_forward(1_000);
    good &= goes(one, port) && !goes(other, port);
    one.finish(true);
    good && goes(other, port)
}

#[test]
fn a_peer_that_was_not_there_is_tried_again_after_5_seconds(rt: HostRuntime) -> Result<(), Fail> {
    let port = closed_port(&rt)?;
    let clock = LaterClock::new(&rt);
    let pool = ConnectionPool::new(rt.alloc())?;
    let mut one = TcpWire::with_pool(&clock, Some(&pool));
    let mut other = TcpWire::with_pool(&clock, Some(&pool));
    let mut alone = TcpWire::new(&clock);
    let mut good = !goes(&mut one, port) && !goes(&mut alone, port);
    let listener = TcpListener::bind(&rt, SocketAddr::from((Ipv4Addr::LOCALHOST, port)))?;
    good &= goes(&mut alone, port);
    good &= comes_back(&clock, &mut one, &mut other, port);
    drop(listener);
    assert!(rt; good);
    Ok(())
}

/// Whether the peer writes a byte and the wire reads it.
fn drips<L: Wire>(wire: &mut L, peer: &mut TcpStream) -> bool {
    let mut room = [0u8; 8];
    peer.write_all(&[7]).is_ok() && wire.read(&mut room) == Ok(1)
}

/// Whether a call whose peer drips bytes ends when 60 seconds are over, and the peer isn't called for 5 seconds.
fn is_cut_off<L: Wire, R>(
    clock: &LaterClock<'_, R>,
    wire: &mut L,
    peer: &mut TcpStream,
    port: u16,
) -> bool {
    let mut good = drips(wire, peer);
    clock.put_forward(30_000);
    good &= drips(wire, peer);
    clock.put_forward(28_500);
    good &= drips(wire, peer) && wire.read(&mut [0u8]) == Err(Failed);
    good &= !drips(wire, peer) && wire.write(&[1]) == Err(Failed);
    wire.finish(false);
    good &= !goes(wire, port);
    clock.put_forward(5_000);
    good &= goes(wire, port);
    wire.finish(false);
    good && goes(wire, port)
}

#[test]
fn a_call_lasts_60_seconds(rt: HostRuntime) -> Result<(), Fail> {
    let (listener, port) = listens(&rt)?;
    let clock = LaterClock::new(&rt);
    let pool = ConnectionPool::new(rt.alloc())?;
    let mut wire = TcpWire::with_pool(&clock, Some(&pool));
    let mut good = goes(&mut wire, port);
    let (mut peer, _) = listener.accept()?;
    good &= is_cut_off(&clock, &mut wire, &mut peer, port);
    assert!(rt; good);
    Ok(())
}

/// Reads so many times 4 KiB, each at once.
fn reads_pages<L: Wire>(wire: &mut L, count: u32) -> bool {
    let mut room = [0u8; 4_096];
    let mut good = true;
    for _ in 0..count {
        good &= wire.read(&mut room) == Ok(4_096);
    }
    good
}

#[test]
fn a_call_reads_256_mib(rt: HostRuntime) -> Result<(), Fail> {
    let mut wire = TcpWire::new(&EndlessNet);
    let mut good = goes(&mut wire, 1) && wire.read(&mut [0u8; 96]) == Ok(96);
    good &= reads_pages(&mut wire, 65_535) && wire.read(&mut [0u8; 4_096]) == Ok(4_000);
    good &= wire.read(&mut []) == Ok(0) && wire.read(&mut [0u8]) == Err(Failed);
    good &= goes(&mut wire, 1) && reads_pages(&mut wire, 1);
    assert!(rt; good);
    Ok(())
}

/// Whether no connection is made to hosts that are no text, at so many ports from there on.
fn fails_at<L: Wire>(wire: &mut L, first: u16, count: u16) -> bool {
    let mut good = true;
    for port in (first..u16::MAX).take(usize::from(count)) {
        good &= wire.connect(b"\xff", port) == Err(Failed);
    }
    good
}

#[test]
fn the_oldest_of_257_peers_is_forgotten(rt: HostRuntime) -> Result<(), Fail> {
    let port = closed_port(&rt)?;
    let pool = ConnectionPool::new(rt.alloc())?;
    let mut wire = TcpWire::with_pool(&rt, Some(&pool));
    let mut good = !goes(&mut wire, port) && fails_at(&mut wire, 1, 255);
    let listener = TcpListener::bind(&rt, SocketAddr::from((Ipv4Addr::LOCALHOST, port)))?;
    good &= !goes(&mut wire, port) && fails_at(&mut wire, 256, 1);
    good &= goes(&mut wire, port);
    drop(listener);
    assert!(rt; good);
    Ok(())
}
