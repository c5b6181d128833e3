//! Limited visitors over loopback.

use crate::support::{client, free_port, hears};
use std::io::Write;
use std::net::{Net, TcpListener, TcpStream};
use std::rt::Clock;
use std::test::Fail;
use std::time::Instant;
use td_accept::{Accept, ClientSink, ClientSource, ClientWire, TcpAccept, Visitor};
use td_out::{Failed, Sink, Source};

/// How often it is tried, since a busy machine may take longer at times.
const TRIES: u8 = 10;

/// Whether a limited visitor is answered who has sent twice before and sends no more then.
fn answers<S: ClientSource, K: ClientSink, L: ClientWire, W>(
    visitor: &mut Visitor<S, K, L, W>,
) -> bool {
    let mut room = [0; 5];
    let _limited = visitor.limit();
    let mut good = visitor.source.read(&mut room) == Ok(5) && visitor.sink.write(b"to") == Ok(2);
    good &= visitor.source.read(&mut room) == Ok(5) && visitor.sink.write(b"ld") == Ok(2);
    good &= visitor.source.read(&mut room) == Err(Failed);
    visitor.sink.close();
    good
}

/// How many milliseconds it takes to answer a visitor so; none where it isn't answered.
fn time_to_answer<S: ClientSource, K: ClientSink, L: ClientWire, W, R: Clock>(
    rt: &R,
    visitor: &mut Visitor<S, K, L, W>,
) -> Option<u128> {
    let Ok(start) = Instant::now(rt) else {
        return None;
    };
    if !answers(visitor) {
        return None;
    }
    match start.elapsed(rt) {
        Ok(passed) => Some(passed.as_millis()),
        Err(_) => None,
    }
}

/// How long it takes to answer a client that stays, in milliseconds, where it reads what it was told, and the end.
fn answers_at<A: Accept, R: Net<Listener = TcpListener, Stream = TcpStream> + Clock>(
    rt: &R,
    accept: &mut A,
    port: u16,
) -> Result<Option<u128>, Fail> {
    if accept.bind(b"127.0.0.1", port).is_err() {
        return Ok(None);
    }
    let mut stream = client(rt, port)?;
    stream.write_all(b"hellohello")?;
    match accept.next() {
        Ok(Some(mut visitor)) => {
            let took = time_to_answer(rt, &mut visitor);
            drop(visitor);
            if hears(stream, 0) { Ok(took) } else { Ok(None) }
        }
        _ => Ok(None),
    }
}

/// It is answered each time, and at least once within a tenth of a second.
#[test]
fn a_limited_client_that_stays_reads_the_end_at_once(rt: HostRuntime) -> Result<(), Fail> {
    let mut answered = true;
    let mut quick = false;
    for _ in 0..TRIES {
        let port = free_port(&rt)?;
        let mut accept = TcpAccept::new(&rt, None);
        match answers_at(&rt, &mut accept, port)? {
            Some(took) => quick |= took < 100,
            None => answered = false,
        }
        drop(accept);
    }
    assert!(rt; answered && quick);
    Ok(())
}
