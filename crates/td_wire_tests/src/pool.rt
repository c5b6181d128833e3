//! Connections that wires over TCP keep from one call to the next.

use crate::support::listens;
use std::alloc::AllocError;
use std::io::{Read, Write};
use std::net::{Net, TcpListener, TcpStream};
use std::rt::Clock;
use std::test::Fail;
use std::thread;
use std::time::Duration;
use td_wire::{ConnectionPool, TcpWire, Wire};

/// Whether one byte goes over the wire's connection to the peer's end of it, and comes back.
fn talks<L: Wire>(wire: &mut L, peer: &mut TcpStream) -> bool {
    let mut room = [0u8; 1];
    wire.write(&[7]) == Ok(1)
        && peer.read_exact(&mut room).is_ok()
        && peer.write_all(&room).is_ok()
        && wire.read(&mut room) == Ok(1)
        && room == [7]
}

/// Whether the peer's end of a connection comes to its end.
fn ends(peer: &mut TcpStream) -> bool {
    let mut room = [0u8; 1];
    match peer.read(&mut room) {
        Ok(count) => count == 0,
        Err(_) => false,
    }
}

/// Connects to there.
fn goes<L: Wire>(wire: &mut L, port: u16) -> bool {
    wire.connect(b"127.0.0.1", port) == Ok(())
}

/// Whether calls that are done whole go over one connection, and one that isn't ends it.
fn keeps<L: Wire>(wire: &mut L, port: u16, peer: &mut TcpStream) -> bool {
    let mut good = talks(wire, peer);
    wire.finish(true);
    good &= wire.write(&[1]).is_err();
    good &= goes(wire, port) && talks(wire, peer);
    wire.finish(true);
    good &= goes(wire, port) && talks(wire, peer);
    wire.finish(false);
    good && ends(peer)
}

#[test]
fn a_call_goes_over_the_connection_of_an_earlier_one(rt: HostRuntime) -> Result<(), Fail> {
    let (listener, port) = listens(&rt)?;
    let pool = ConnectionPool::new(rt.alloc())?;
    let mut wire = TcpWire::with_pool(&rt, Some(&pool));
    let mut good = goes(&mut wire, port);
    let (mut peer, _) = listener.accept()?;
    good &= keeps(&mut wire, port, &mut peer);
    assert!(rt; good);
    Ok(())
}

#[test]
fn a_connection_that_ended_or_gave_more_is_not_used_again(rt: HostRuntime) -> Result<(), Fail> {
    let (listener, port) = listens(&rt)?;
    let pool = ConnectionPool::new(rt.alloc())?;
    let mut wire = TcpWire::with_pool(&rt, Some(&pool));
    let mut good = goes(&mut wire, port);
    let (mut first, _) = listener.accept()?;
    good &= talks(&mut wire, &mut first);
    wire.finish(true);
    drop(first);
    good &= goes(&mut wire, port);
    let (mut second, _) = listener.accept()?;
    good &= talks(&mut wire, &mut second);
    wire.finish(true);
    good &= second.write_all(&[9]).is_ok() && goes(&mut wire, port);
    let (mut third, _) = listener.accept()?;
    good &= talks(&mut wire, &mut third);
    assert!(rt; good);
    Ok(())
}

/// Whether a call goes over the connection to that peer, and leaves it in the pool.
fn is_used<L: Wire>(wire: &mut L, port: u16, peer: &mut TcpStream) -> bool {
    let good = goes(wire, port) && talks(wire, peer);
    wire.finish(true);
    good
}

#[test]
fn a_connection_is_used_for_its_host_and_port_alone(rt: HostRuntime) -> Result<(), Fail> {
    let (listener, port) = listens(&rt)?;
    let (other, other_port) = listens(&rt)?;
    let pool = ConnectionPool::new(rt.alloc())?;
    let mut wire = TcpWire::with_pool(&rt, Some(&pool));
    let mut good = goes(&mut wire, port);
    let (mut first, _) = listener.accept()?;
    wire.finish(true);
    good &= goes(&mut wire, other_port);
    let (mut second, _) = other.accept()?;
    wire.finish(true);
    good &= wire.connect(b"localhost", port) == Ok(());
    let (mut third, _) = listener.accept()?;
    good &= talks(&mut wire, &mut third);
    wire.finish(true);
    good &= is_used(&mut wire, port, &mut first) && is_used(&mut wire, other_port, &mut second);
    drop(wire);
    drop(pool);
    good &= ends(&mut first) && ends(&mut second) && ends(&mut third);
    assert!(rt; good);
    Ok(())
}

/// Begins two rounds behind each of two calls, of which the connection outlasts the first, and then one more, in which
/// it ends.
fn outlasts_two_rounds<L: Wire>(
    pool: &ConnectionPool<TcpStream>,
    wire: &mut L,
    port: u16,
    peer: &mut TcpStream,
) -> bool {
    wire.finish(true);
    pool.begin_round();
    pool.begin_round();
    let good = is_used(wire, port, peer);
    pool.begin_round();
    pool.begin_round();
    pool.begin_round();
    good && ends(peer)
}

#[test]
fn a_connection_ends_when_the_third_round_begins(rt: HostRuntime) -> Result<(), Fail> {
    let (listener, port) = listens(&rt)?;
    let pool = ConnectionPool::new(rt.alloc())?;
    let mut wire = TcpWire::with_pool(&rt, Some(&pool));
    let mut good = goes(&mut wire, port);
    let (mut peer, _) = listener.accept()?;
    good &= outlasts_two_rounds(&pool, &mut wire, port, &mut peer);
    assert!(rt; good);
    Ok(())
}

/// Takes all connections that wait at the listeners, and answers how many they are.
fn accept_all(
    clock: &impl Clock,
    listeners: &[TcpListener],
    peers: &mut Vec<TcpStream>,
) -> Result<usize, Fail> {
    let before = peers.len();
    thread::sleep(clock, Duration::from_millis(50));
    for listener in listeners.iter() {
        listener.set_nonblocking(true)?;
        accept_each(listener, peers)?;
    }
    Ok(peers.len().saturating_sub(before))
}

/// Takes all connections that wait at a listener.
fn accept_each(listener: &TcpListener, peers: &mut Vec<TcpStream>) -> Result<(), AllocError> {
    for _ in 0..100u8 {
        match listener.accept() {
            Ok((peer, _)) => peers.push(peer)?,
            Err(_) => return Ok(()),
        }
    }
    Ok(())
}

/// Makes so many calls, one behind the other.
fn calls<L: Wire>(wire: &mut L, port: u16, count: u16) -> bool {
    let mut good = true;
    for _ in 0..count {
        good &= goes(wire, port);
        wire.finish(true);
    }
    good
}

#[test]
fn a_connection_carries_1000_calls(rt: HostRuntime) -> Result<(), Fail> {
    let (listener, port) = listens(&rt)?;
    let listeners = [listener];
    let mut peers = Vec::new(rt.alloc());
    let pool = ConnectionPool::new(rt.alloc())?;
    let mut wire = TcpWire::with_pool(&rt, Some(&pool));
    let mut good = calls(&mut wire, port, 1000);
    good &= accept_all(&rt, &listeners, &mut peers)? == 1;
    good &= calls(&mut wire, port, 1);
    good &= accept_all(&rt, &listeners, &mut peers)? == 1;
    assert!(rt; good);
    Ok(())
}

/// Makes calls at the same time, one over each wire, to these ports in order.
fn calls_at_once<L: Wire>(wires: &mut Vec<L>, ports: &[u16]) -> bool {
    let mut good = true;
    for (wire, port) in wires.iter_mut().zip(ports.iter()) {
        good &= goes(wire, *port);
    }
    for wire in wires.iter_mut() {
        wire.finish(true);
    }
    good
}

/// So many wires that share a pool.
fn wires_over<'a, R: Net + AllocGlobal>(
    rt: &'a R,
    pool: &'a ConnectionPool<R::Stream>,
    count: usize,
) -> Result<Vec<TcpWire<'a, R>>, AllocError> {
    let mut wires = Vec::with_capacity(rt.alloc(), count)?;
    for _ in 0..count {
        wires.push(TcpWire::with_pool(rt, Some(pool)))?;
    }
    Ok(wires)
}

/// How many connections come to the listeners where these ports are called at the same time, and how many come where
/// they are all called once more.
fn first_and_new<R: Net<Listener = TcpListener, Stream = TcpStream> + Clock + AllocGlobal>(
    rt: &R,
    listeners: &[TcpListener],
    ports: &[u16],
) -> Result<(usize, usize), Fail> {
    let pool = ConnectionPool::new(rt.alloc())?;
    let mut wires = wires_over(rt, &pool, ports.len())?;
    let mut peers = Vec::new(rt.alloc());
    let mut good = calls_at_once(&mut wires, ports);
    let first = accept_all(rt, listeners, &mut peers)?;
    good &= calls_at_once(&mut wires, ports);
    let new = accept_all(rt, listeners, &mut peers)?;
    Ok(if good { (first, new) } else { (0, 0) })
}

#[test]
fn at_most_32_connections_to_one_peer_are_kept(rt: HostRuntime) -> Result<(), Fail> {
    let (listener, port) = listens(&rt)?;
    let ports = vec![in rt.alloc(); port; 33]?;
    let (first, new) = first_and_new(&rt, &[listener], ports.as_slice())?;
    assert!(rt; first == 33 && new == 1);
    Ok(())
}

#[test]
fn at_most_64_connections_are_kept(rt: HostRuntime) -> Result<(), Fail> {
    let (a, port_a) = listens(&rt)?;
    let (b, port_b) = listens(&rt)?;
    let (c, port_c) = listens(&rt)?;
    let mut ports = vec![in rt.alloc(); port_a; 32]?;
    for _ in 0..32u8 {
        ports.push(port_b)?;
    }
    ports.push(port_c)?;
    let (first, new) = first_and_new(&rt, &[a, b, c], ports.as_slice())?;
    assert!(rt; first == 65 && new == 1);
    Ok(())
}
