//! Sinks of clients over TCP: what a close does, and how long it takes.

use crate::fake_net::{FakeNet, FakeStream, PLAIN, Plan};
use crate::support::{client, free_port, hears};
use std::io::Write;
use std::net::{Net, TcpListener, TcpStream};
use std::rt::Clock;
use std::sync::Wait;
use std::test::Fail;
use std::thread::{self, Threads};
use std::time::Instant;
use td_accept::{Accept, ClientSink, TcpAccept, TcpSink, Visitor};
use td_cdr::List;
use td_out::{Failed, MemSink, Sink, Source};

/// What the server writes.
const TOLD: &[u8] = b"told";

/// How much a client sends behind what is read of it.
const REST: usize = 1_048_576;

/// How many reads there are where a sink over such a network is closed twice.
fn reads_of_close(plan: Plan) -> u64 {
    let net = FakeNet::new(plan);
    let fake = &net;
    let mut sink = TcpSink::new(&fake, FakeStream::new(fake));
    let mut good = sink.write(TOLD) == Ok(TOLD.len());
    sink.close();
    good &= sink.write(TOLD) == Err(Failed);
    sink.close();
    drop(sink);
    if good && net.ends() == (1, 1) {
        net.reads()
    } else {
        0
    }
}

/// The clock goes on by ten milliseconds a read.
#[test]
fn a_client_that_drips_is_read_for_a_second(rt: HostRuntime) {
    let plan = Plan { tick: 10, ..PLAIN };
    assert_eq!(rt; reads_of_close(plan), 99);
}

/// The clock stands still, and each read gives 16 KiB.
#[test]
fn a_client_that_sends_on_is_read_for_16_mib(rt: HostRuntime) {
    let plan = Plan {
        read_size: 1_000_000,
        ..PLAIN
    };
    assert_eq!(rt; reads_of_close(plan), 1024);
}

#[test]
fn a_client_that_has_ended_is_not_read_again(rt: HostRuntime) {
    let plan = Plan {
        read_size: 0,
        ..PLAIN
    };
    assert_eq!(rt; reads_of_close(plan), 1);
}

#[test]
fn a_sink_in_memory_keeps_what_was_written(rt: HostRuntime) {
    let alloc = rt.alloc();
    let mut sink = MemSink::new(alloc, List::new(alloc));
    let mut good = sink.write(TOLD) == Ok(TOLD.len());
    sink.close();
    good &= sink.write(TOLD) == Ok(TOLD.len());
    good &= sink.written() == b"toldtold".as_slice();
    assert!(rt; good);
}

/// Reads once, tells, and closes.
fn tells<S: Source, K: ClientSink, L, W>(visitor: &mut Visitor<S, K, L, W>) -> bool {
    let mut room = [0; 12];
    let good = visitor.source.read(&mut room).is_ok() && visitor.sink.write(TOLD) == Ok(4);
    visitor.sink.close();
    good
}

/// How many milliseconds it takes to tell a visitor.
fn time_to_tell<S: Source, K: ClientSink, L, W, R: Clock>(
    rt: &R,
    visitor: &mut Visitor<S, K, L, W>,
) -> Option<u128> {
    let Ok(start) = Instant::now(rt) else {
        return None;
    };
    if !tells(visitor) {
        return None;
    }
    match start.elapsed(rt) {
        Ok(passed) => Some(passed.as_millis()),
        Err(_) => None,
    }
}

/// Whether a client on a thread of its own hears what it is told, although it has sent so many bytes before it reads.
fn is_heard<S: Source, K: ClientSink, L, W, R: Threads + Wait>(
    rt: &R,
    visitor: &mut Visitor<S, K, L, W>,
    stream: TcpStream,
    size: usize,
) -> bool {
    thread::scope(thread::scope_env(), rt, move |scope| {
        match scope.spawn(move || hears(stream, size)) {
            Err(_) => false,
            Ok(handle) => {
                let content = tells(visitor);
                handle.join(rt) && content
            }
        }
    })
}

/// The same of the next visitor of an acceptor that is bound to this port before.
fn hears_at<A: Accept, R: Net<Listener = TcpListener, Stream = TcpStream> + Threads + Wait>(
    rt: &R,
    accept: &mut A,
    port: u16,
) -> Result<bool, Fail> {
    if accept.bind(b"127.0.0.1", port).is_err() {
        return Ok(false);
    }
    let stream = client(rt, port)?;
    match accept.next() {
        Ok(Some(mut visitor)) => {
            let good = is_heard(rt, &mut visitor, stream, REST);
            drop(visitor);
            Ok(good)
        }
        _ => Ok(false),
    }
}

/// A connection that is closed while bytes of it are unread would be reset, and what was told lost.
#[test]
fn a_client_that_has_sent_on_reads_what_was_sent(rt: HostRuntime) -> Result<(), Fail> {
    let port = free_port(&rt)?;
    let mut accept = TcpAccept::new(&rt, None);
    let good = hears_at(&rt, &mut accept, port)?;
    assert!(rt; good);
    Ok(())
}

/// How long it takes to tell a client that stays, in milliseconds, where it reads what it was told, and the end.
fn leaves_at<A: Accept, R: Net<Listener = TcpListener, Stream = TcpStream> + Clock>(
    rt: &R,
    accept: &mut A,
    port: u16,
) -> Result<Option<u128>, Fail> {
    if accept.bind(b"127.0.0.1", port).is_err() {
        return Ok(None);
    }
    let mut stream = client(rt, port)?;
    stream.write_all(b"hello")?;
    match accept.next() {
        Ok(Some(mut visitor)) => {
            let took = time_to_tell(rt, &mut visitor);
            drop(visitor);
            if hears(stream, 0) { Ok(took) } else { Ok(None) }
        }
        _ => Ok(None),
    }
}

#[test]
fn a_client_that_stays_reads_the_end_after_a_second(rt: HostRuntime) -> Result<(), Fail> {
    let port = free_port(&rt)?;
    let mut accept = TcpAccept::new(&rt, None);
    let good = match leaves_at(&rt, &mut accept, port)? {
        Some(took) => 500 < took && took < 3_000,
        None => false,
    };
    assert!(rt; good);
    Ok(())
}
