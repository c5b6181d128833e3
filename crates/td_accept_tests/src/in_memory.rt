//! An acceptor in memory: its visitors come in order, and calls fail where they are set to.

ghost use Rattle.std.specs.Prelude.{◌≡◌, true};

use crate::support::goes_along;
use std::alloc::Global;
use std::test::Fail;
use td_accept::{Accept, Gate, MemAccept, NoGate, Visitor};
use td_cdr::{List, Memory, Octets};
use td_out::{Failed, MemSink, MemSource, MemWords, Sink, Source, Words};
use td_wire::MemWire;

/// A visitor that lies in memory.
type Guest = Visitor<MemSource, MemSink, MemWire, MemWords>;

/// A visitor who says this byte alone, and whose words begin with it.
fn guest(alloc: Global, byte: u8) -> Result<Guest, Memory> {
    let bytes = Octets::from_slice(alloc, &[byte])?;
    let words = List::from_slice(alloc, &[u64::from(byte)])?;
    Ok(Visitor {
        source: MemSource::new(bytes, List::new(alloc), List::new(alloc)),
        sink: MemSink::new(alloc, List::new(alloc)),
        wire: MemWire::new(alloc, List::new(alloc), List::new(alloc)),
        words: MemWords::new(words),
    })
}

/// Two visitors, who say 1 and 2; these calls fail.
fn two_guests(
    alloc: Global,
    failing: &[u64],
) -> Result<MemAccept<MemSource, MemSink, MemWire, MemWords>, Fail> {
    let mut guests = List::new(alloc);
    guests.push(guest(alloc, 1)?)?;
    guests.push(guest(alloc, 2)?)?;
    Ok(MemAccept::new(alloc, guests, List::from_slice(alloc, failing)?))
}

/// Whether the visitor says this byte and no more, takes a reply, and has the byte for a word.
fn says<S: Source, K: Sink, L, W: Words>(visitor: &mut Visitor<S, K, L, W>, byte: u8) -> bool {
    let mut room = [0; 4];
    visitor.source.read(&mut room) == Ok(1)
        && room == [byte, 0, 0, 0]
        && visitor.source.read(&mut room) == Ok(0)
        && visitor.sink.write(&[9]) == Ok(1)
        && visitor.words.next() == u64::from(byte)
}

/// Whether the next visitor says this byte.
fn comes<A: Accept>(accept: &mut A, byte: u8) -> bool
    requires { A.bound accept.old ≡ true }
    ensures { A.bound accept.new ≡ true }
{
    match accept.next() {
        Ok(Some(mut visitor)) => {
            goes_along(&visitor);
            says(&mut visitor, byte)
        }
        _ => false,
    }
}

/// Whether no visitor is left.
fn none_comes<A: Accept>(accept: &mut A) -> bool
    requires { A.bound accept.old ≡ true }
    ensures { A.bound accept.new ≡ true }
{
    match accept.next() {
        Ok(None) => true,
        _ => false,
    }
}

/// Whether the call fails.
fn fails<A: Accept>(accept: &mut A) -> bool
    requires { A.bound accept.old ≡ true }
    ensures { A.bound accept.new ≡ true }
{
    match accept.next() {
        Err(Failed) => true,
        _ => false,
    }
}

/// Whether both come in order, and then none, as often as it is asked.
fn gives_both<A: Accept>(accept: &mut A) -> bool {
    if accept.bind(b"h", 9).is_err() {
        return false;
    }
    comes(accept, 1) && comes(accept, 2) && none_comes(accept) && none_comes(accept)
}

/// Whether it was bound to this one address.
fn is_at(
    accept: &MemAccept<MemSource, MemSink, MemWire, MemWords>,
    host: &[u8],
    port: u16,
) -> bool {
    match accept.addresses() {
        [address] => address.host.as_slice() == host && address.port == port,
        _ => false,
    }
}

#[test]
fn visitors_come_in_order(rt: HostRuntime) -> Result<(), Fail> {
    let mut accept = two_guests(rt.alloc(), &[])?;
    let mut good = accept.addresses().is_empty();
    good &= gives_both(&mut accept);
    good &= is_at(&accept, b"h", 9);
    assert!(rt; good);
    Ok(())
}

/// Whether the first and the third call fail, and take no visitor.
fn fails_where_set<A: Accept>(accept: &mut A) -> bool {
    if accept.bind(b"h", 9).is_ok() {
        return false;
    }
    if accept.bind(b"i", 10).is_err() {
        return false;
    }
    fails(accept) && comes(accept, 1) && comes(accept, 2) && none_comes(accept)
}

#[test]
fn calls_fail_where_they_are_set_to(rt: HostRuntime) -> Result<(), Fail> {
    let mut accept = two_guests(rt.alloc(), &[1, 3])?;
    let mut good = fails_where_set(&mut accept);
    good &= is_at(&accept, b"i", 10);
    assert!(rt; good);
    Ok(())
}

/// Goes through a gate and out of it.
fn passes<G: Gate>(gate: &G) {
    gate.enter(1);
    gate.leave(1);
}

#[test]
fn the_open_gate_lets_a_session_through(_rt: HostRuntime) -> Result<(), Fail> {
    passes(&NoGate);
    Ok(())
}
