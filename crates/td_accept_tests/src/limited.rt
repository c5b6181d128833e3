//! Visitors that were limited: how long is waited for what they send and take, and that nobody is called for them.

use crate::fake_net::{FakeNet, FakeStream, PLAIN, Plan};
use std::alloc::Global;
use std::test::Fail;
use td_accept::{
    Accept, ClientSink, ClientSource, ClientWire, RefusableWire, TcpAccept, TcpSink, TcpSource,
    Visitor,
};
use td_cdr::{List, Memory, Octets};
use td_out::{Failed, MemSink, MemSource, MemWords, Sink, Source, Words};
use td_wire::{ConnectionPool, MemWire, Wire};

/// What a peer in memory answers.
const ANSWER: &[u8] = b"answer";

/// Whether a read gives a byte.
fn reads<S: Source>(source: &mut S) -> bool {
    source.read(&mut [0; 4]) == Ok(1)
}

/// Whether a source waits as long as it likes before it is limited, and then for a second, a fifth of one, and what is
/// left of a second and a half.
fn waits_less(net: &FakeNet) -> bool {
    let mut source = TcpSource::new(&net, FakeStream::new(net));
    let mut good = reads(&mut source) && reads(&mut source) && net.read_limit() == 0;
    source.limit();
    good &= reads(&mut source) && net.read_limit() == 1_000;
    good &= reads(&mut source) && net.read_limit() == 200;
    net.put_forward(1_400);
    good &= reads(&mut source) && net.read_limit() == 100;
    net.put_forward(100);
    good && !reads(&mut source) && net.reads() == 5
}

#[test]
fn limited_sources_wait_less_and_end(rt: HostRuntime) {
    let net = FakeNet::new(PLAIN);
    let good = waits_less(&net);
    assert!(rt; good);
}

/// A server that has done other things for a second waits half a second for the first bytes.
#[test]
fn limited_sources_wait_no_longer_than_their_session(rt: HostRuntime) {
    let net = FakeNet::new(PLAIN);
    let fake = &net;
    let mut source = TcpSource::new(&fake, FakeStream::new(fake));
    source.limit();
    net.put_forward(1_000);
    let good = reads(&mut source) && net.read_limit() == 500;
    drop(source);
    assert!(rt; good);
}

/// Whether a write goes through.
fn writes<K: Sink>(sink: &mut K) -> bool {
    sink.write(ANSWER) == Ok(ANSWER.len())
}

/// Whether a sink is limited by what is left of a second and a half.
fn writes_in_time(net: &FakeNet) -> bool {
    let mut sink = TcpSink::new(&net, FakeStream::new(net));
    let mut good = writes(&mut sink) && net.write_limit() == 0;
    sink.limit();
    good &= writes(&mut sink) && net.write_limit() == 1_500;
    net.put_forward(1_490);
    good &= writes(&mut sink) && net.write_limit() == 10;
    net.put_forward(10);
    good && sink.write(ANSWER) == Err(Failed)
}

#[test]
fn limited_sinks_write_for_a_second_and_a_half(rt: HostRuntime) {
    let net = FakeNet::new(PLAIN);
    let good = writes_in_time(&net);
    assert!(rt; good);
}

/// Whether nothing is waited for behind a reply, and nothing when the connection is closed.
fn ends_behind_its_reply(net: &FakeNet) -> bool {
    let mut source = TcpSource::new(&net, FakeStream::new(net));
    let mut sink = TcpSink::new(&net, FakeStream::new(net));
    source.limit();
    sink.limit();
    let mut good = reads(&mut source) && net.read_waits();
    good &= writes(&mut sink) && !reads(&mut source);
    sink.close();
    good && net.reads() == 3 && net.ends() == (1, 1) && net.time() == 0
}

#[test]
fn limited_visitors_are_sent_away_behind_their_reply(rt: HostRuntime) {
    let net = FakeNet::new(Plan {
        most_reads: 1,
        ..PLAIN
    });
    let good = ends_behind_its_reply(&net);
    assert!(rt; good);
}

/// Whether bytes that had come before a reply are taken behind it, and the rest of their message is waited for.
fn takes_what_has_come(net: &FakeNet) -> bool {
    let mut source = TcpSource::new(&net, FakeStream::new(net));
    let mut sink = TcpSink::new(&net, FakeStream::new(net));
    source.limit();
    sink.limit();
    let mut good = reads(&mut source) && writes(&mut sink);
    good &= reads(&mut source) && net.time() == 0;
    good && !reads(&mut source) && net.time() == 200
}

#[test]
fn limited_visitors_have_what_they_sent_before_taken(rt: HostRuntime) {
    let net = FakeNet::new(Plan {
        most_reads: 2,
        ..PLAIN
    });
    let good = takes_what_has_come(&net);
    assert!(rt; good);
}

/// A reply may take several writes, each of which waits for the client.
#[test]
fn limited_sinks_wait_for_their_client(rt: HostRuntime) {
    let net = FakeNet::new(PLAIN);
    let fake = &net;
    let mut sink = TcpSink::new(&fake, FakeStream::new(fake));
    sink.limit();
    let good = writes(&mut sink) && writes(&mut sink) && net.hasty_writes() == 0;
    drop(sink);
    assert!(rt; good);
}

/// Without a reply before.
#[test]
fn limited_sinks_read_away_what_has_come(rt: HostRuntime) {
    let net = FakeNet::new(Plan {
        most_reads: 3,
        ..PLAIN
    });
    let fake = &net;
    let mut sink = TcpSink::new(&fake, FakeStream::new(fake));
    sink.limit();
    sink.close();
    drop(sink);
    assert!(rt; net.reads() == 4 && net.time() == 0);
}

/// The clock goes on by ten milliseconds a read, and bytes come without end.
#[test]
fn limited_sinks_read_away_for_a_fifth_of_a_second(rt: HostRuntime) {
    let net = FakeNet::new(Plan { tick: 10, ..PLAIN });
    let fake = &net;
    let mut sink = TcpSink::new(&fake, FakeStream::new(fake));
    sink.limit();
    sink.close();
    drop(sink);
    assert_eq!(rt; net.reads(), 19);
}

/// Whether the wire connects before it is told to refuse, and to nobody afterwards.
fn refuses<L: ClientWire>(wire: &mut L) -> bool {
    let mut room = [0; 6];
    let mut good = wire.connect(b"h", 1).is_ok() && wire.read(&mut room) == Ok(6);
    wire.finish(true);
    wire.refuse();
    good &= wire.connect(b"h", 1) == Err(Failed) && wire.read(&mut room) == Err(Failed);
    good
}

fn peer(alloc: Global) -> Result<MemWire, Memory> {
    let mut answers = List::new(alloc);
    answers.push(Octets::from_slice(alloc, ANSWER)?)?;
    answers.push(Octets::from_slice(alloc, ANSWER)?)?;
    Ok(MemWire::new(alloc, answers, List::new(alloc)))
}

fn is_refused(alloc: Global) -> bool {
    match peer(alloc) {
        Ok(wire) => {
            let mut wire = RefusableWire::new(wire);
            refuses(&mut wire)
        }
        Err(_) => false,
    }
}

#[test]
fn wires_that_refuse_connect_to_nobody(rt: HostRuntime) {
    assert!(rt; is_refused(rt.alloc()));
}

/// Tries a peer, limits the visitor, and tries another one. Nobody is reached.
fn tries_two<S: ClientSource, K: ClientSink, L: ClientWire, W>(
    visitor: &mut Visitor<S, K, L, W>,
) -> bool {
    let mut good = visitor.wire.connect(b"127.0.0.1", 9) == Err(Failed);
    let _limited = visitor.limit();
    good &= visitor.wire.connect(b"127.0.0.2", 9) == Err(Failed);
    good && reads(&mut visitor.source) && writes(&mut visitor.sink)
}

/// Whether a visitor comes whose wire tries a peer, and none once its visitor is limited.
fn is_limited<A: Accept>(accept: &mut A) -> bool {
    if accept.bind(b"127.0.0.1", 9).is_err() {
        return false;
    }
    match accept.next() {
        Ok(Some(mut visitor)) => tries_two(&mut visitor),
        _ => false,
    }
}

/// Whether a visitor comes whose wire tries in vain the peer that wasn't called.
fn tries_again<A: Accept>(accept: &mut A) -> bool {
    if accept.bind(b"127.0.0.1", 9).is_err() {
        return false;
    }
    match accept.next() {
        Ok(Some(mut visitor)) => visitor.wire.connect(b"127.0.0.2", 9) == Err(Failed),
        _ => false,
    }
}

/// Whether a visitor over TCP is limited in all its parts. The peer that wasn't called isn't taken for one that can't
/// be reached.
fn limits(alloc: Global, net: &FakeNet) -> Result<bool, Memory> {
    let pool = ConnectionPool::new(alloc)?;
    let mut accept = TcpAccept::new(&net, Some(&pool));
    let mut good = is_limited(&mut accept);
    good &= net.connects() == 1 && net.read_limit() == 1_000 && net.write_limit() == 1_500;
    good &= tries_again(&mut accept) && net.connects() == 2;
    drop(accept);
    drop(pool);
    Ok(good)
}

#[test]
fn visitors_over_tcp_are_limited_in_all_parts(rt: HostRuntime) {
    let net = FakeNet::new(PLAIN);
    let good = limits(rt.alloc(), &net) == Ok(true);
    assert!(rt; good);
}

fn guest(alloc: Global) -> Result<Visitor<MemSource, MemSink, MemWire, MemWords>, Memory> {
    Ok(Visitor {
        source: MemSource::new(
            Octets::from_slice(alloc, ANSWER)?,
            List::new(alloc),
            List::new(alloc),
        ),
        sink: MemSink::new(alloc, List::new(alloc)),
        wire: peer(alloc)?,
        words: MemWords::new(List::from_slice(alloc, &[7])?),
    })
}

/// Whether a limited visitor in memory is what it was.
fn stays<S: ClientSource, K: ClientSink, L: ClientWire, W: Words>(
    visitor: &mut Visitor<S, K, L, W>,
) -> bool {
    let _limited = visitor.limit();
    let mut good = visitor.source.read(&mut [0; 6]) == Ok(6) && visitor.sink.write(ANSWER) == Ok(6);
    good &= visitor.wire.connect(b"h", 1).is_ok();
    good && visitor.words.next() == 7
}

#[test]
fn visitors_in_memory_stay_what_they_were(rt: HostRuntime) {
    let good = match guest(rt.alloc()) {
        Ok(mut visitor) => stays(&mut visitor),
        Err(_) => false,
    };
    assert!(rt; good);
}
