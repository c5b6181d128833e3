//! The client's program and a session: what the session writes for the bytes of the client's requests is what the
//! client prints from.

use crate::answering::evaluator;
use crate::cities_file::cities;
use crate::opening::{Server, opened_server};
use crate::serving::{WHOLE, served_noting, sink, source};
use std::alloc::Global;
use std::test::Fail;
use td_cdr::{List, Memory, Octets};
use td_cli_program::client_run;
use td_journal::PastJournal;
use td_out::{MemSink, MemSource};
use td_session::End;
use td_wire::MemWire;

/// The words of a query for lasers that cost less than ten, the cheapest first.
const WORDS: &[&str] = &[
    "query",
    "ref:,h,9,North/L",
    "Laser",
    "Cost < 10",
    "min Cost",
];

/// The same of at most two in the reply, so that the others come by the iterator.
const WORDS_OF_TWO: &[&str] = &[
    "query",
    "--how-many",
    "2",
    "ref:,h,9,North/L",
    "Laser",
    "Cost < 10",
    "min Cost",
];

/// The same, where the server is asked by another name than that of its file.
const WORDS_OF_ANOTHER_NAME: &[&str] = &[
    "query",
    "--how-many",
    "2",
    "ref:,localhost,9,North/L",
    "Laser",
    "Cost < 10",
    "min Cost",
];

/// What is printed: South's laser, and four of North's.
const LINES: &[u8] = b"\
    offer IOR:000000000000000a49444c3a503a312e3000000000000001000000000000001100010000000000026800000900\
    00000173\n\
    \x20 Cost ulong 3\n\
    offer IOR:000000000000000a49444c3a503a312e3000000000000001000000000000001200010000000000026800000900\
    0000027031\n\
    \x20 Cost ulong 6\n\
    \x20 Room string R1\n\
    \x20 Queue ulong 2\n\
    offer IOR:000000000000000a49444c3a503a312e3000000000000001000000000000001400010000000000026800000900\
    00000470313031\n\
    \x20 Cost ulong 6\n\
    \x20 Room string R101\n\
    offer IOR:000000000000000a49444c3a503a312e3000000000000001000000000000001300010000000000026800000900\
    000003703533\n\
    \x20 Cost ulong 8\n\
    \x20 Room string R53\n\
    offer IOR:000000000000000a49444c3a503a312e3000000000000001000000000000001400010000000000026800000900\
    00000470313533\n\
    \x20 Cost ulong 8\n\
    \x20 Room string R153\n\
    limits\n\
    total 5\n";

fn words_of(alloc: Global, words: &[&str]) -> Result<Vec<String>, Memory> {
    let mut all = Vec::new(alloc);
    for word in words {
        all.push(String::from_str(alloc, word)?)?;
    }
    Ok(all)
}

fn copied(alloc: Global, bytes: &[u8]) -> Result<Vec<u8>, Memory> {
    let mut all = Vec::new(alloc);
    all.extend_from_slice(bytes)?;
    Ok(all)
}

/// A wire whose first connection gives the first bytes, and whose second gives the others.
fn wire_of(alloc: Global, gives: &[u8], next: &[u8]) -> Result<MemWire, Memory> {
    let mut answers = List::new(alloc);
    answers.push(Octets::from_slice(alloc, gives)?)?;
    answers.push(Octets::from_slice(alloc, next)?)?;
    Ok(MemWire::new(alloc, answers, List::new(alloc)))
}

/// The status of the client over this wire, with nothing on its faults sink.
fn status_over(
    alloc: Global,
    words: &[String],
    wire: &mut MemWire,
    sink: &mut MemSink,
) -> Option<u8> {
    let mut faults = MemSink::new(alloc, List::new(alloc));
    let status = client_run(alloc, words, wire, sink, &mut faults);
    if faults.written().is_empty() {
        Some(status)
    } else {
        None
    }
}

/// What the client writes over a connection, counted from 0. The first gives these replies, and each then ends.
fn requests(
    alloc: Global,
    words: &[String],
    replies: &[u8],
    connection: usize,
) -> Result<Vec<u8>, Memory> {
    let mut wire = wire_of(alloc, replies, b"")?;
    let mut sink = MemSink::new(alloc, List::new(alloc));
    let status = status_over(alloc, words, &mut wire, &mut sink);
    match wire.written(connection) {
        Some(written) if status == Some(6) => copied(alloc, written),
        _ => Ok(Vec::new(alloc)),
    }
}

/// Whether the session of a server over this source and this sink ends as closed.
fn is_closed(alloc: Global, server: Server, source: &mut MemSource, sink: &mut MemSink) -> bool {
    match served_noting::<PastJournal>(alloc, server, source, sink) {
        Ok((end, room)) => {
            drop(room);
            end == End::Closed
        }
        Err(_) => false,
    }
}

/// What a session of a server writes for these requests.
fn replies_of(alloc: Global, server: Server, requests: Vec<u8>) -> Result<Vec<u8>, Memory> {
    match (source(alloc, requests, &WHOLE), sink(alloc, &WHOLE)) {
        (Ok(mut source), Ok(mut sink)) => {
            if is_closed(alloc, server, &mut source, &mut sink) {
                copied(alloc, sink.written())
            } else {
                Ok(Vec::new(alloc))
            }
        }
        _ => {
            drop(server);
            Err(Memory)
        }
    }
}

/// The same of the server of a file, where the evaluator of a property is there.
fn replies(alloc: Global, file: &[u8], requests: &[u8]) -> Result<Vec<u8>, Memory> {
    let requests = copied(alloc, requests)?;
    match opened_server(alloc, file, evaluator(alloc)?) {
        Ok(server) => replies_of(alloc, server, requests),
        Err(fault) => {
            drop(fault);
            drop(requests);
            Err(Memory)
        }
    }
}

/// Whether the client prints these lines of these replies, and writes these requests.
fn prints(
    alloc: Global,
    words: &[String],
    replies: &[u8],
    requests: &[u8],
    lines: &[u8],
) -> Result<bool, Memory> {
    let mut wire = wire_of(alloc, replies, b"")?;
    let mut sink = MemSink::new(alloc, List::new(alloc));
    let status = status_over(alloc, words, &mut wire, &mut sink);
    Ok(status == Some(0) && sink.written() == lines && wire.written(0) == Some(requests))
}

/// Whether the client prints these lines over so many Requests, each of which a session with the traders of a file
/// answers. The client is run anew, and a session with it, for each further Request.
fn joins(
    alloc: Global,
    file: &[u8],
    words: &[&str],
    count: usize,
    lines: &[u8],
) -> Result<bool, Memory> {
    let words = words_of(alloc, words)?;
    let mut written = Vec::new(alloc);
    let mut given = Vec::new(alloc);
    for _ in 0..count {
        written = requests(alloc, words.as_slice(), given.as_slice(), 0)?;
        given = replies(alloc, file, written.as_slice())?;
    }
    prints(
        alloc,
        words.as_slice(),
        given.as_slice(),
        written.as_slice(),
        lines,
    )
}

#[test]
fn the_client_prints_what_a_session_wrote(rt: HostRuntime) -> Result<(), Fail> {
    let alloc = rt.alloc();
    let file = cities(alloc)?;
    assert!(rt; joins(alloc, file.as_slice(), WORDS, 1, LINES)?);
    Ok(())
}

/// The query, its iterator's next_n and its destroy.
#[test]
fn the_client_drains_the_iterator_of_a_session(rt: HostRuntime) -> Result<(), Fail> {
    let alloc = rt.alloc();
    let file = cities(alloc)?;
    assert!(rt; joins(alloc, file.as_slice(), WORDS_OF_TWO, 3, LINES)?);
    Ok(())
}

/// What the client prints with status 5 where the first connection gives these replies, and the second what a session
/// of its own answers.
fn printed_elsewhere(
    alloc: Global,
    file: &[u8],
    words: &[String],
    found: &[u8],
) -> Result<Vec<u8>, Memory> {
    let next = requests(alloc, words, found, 1)?;
    let gone = replies(alloc, file, next.as_slice())?;
    let mut wire = wire_of(alloc, found, gone.as_slice())?;
    let mut sink = MemSink::new(alloc, List::new(alloc));
    let status = status_over(alloc, words, &mut wire, &mut sink);
    if status == Some(5) && wire.written(1) == Some(next.as_slice()) {
        copied(alloc, sink.written())
    } else {
        Ok(Vec::new(alloc))
    }
}

/// Whether the client prints that the iterator is gone: it is asked at the host of its reference, over a connection
/// whose session has made no iterator.
fn is_gone_elsewhere(alloc: Global, file: &[u8], words: &[&str]) -> Result<bool, Memory> {
    let words = words_of(alloc, words)?;
    let query = requests(alloc, words.as_slice(), b"", 0)?;
    let found = replies(alloc, file, query.as_slice())?;
    let printed = printed_elsewhere(alloc, file, words.as_slice(), found.as_slice())?;
    Ok(printed.as_slice() == b"exception IDL:omg.org/CORBA/OBJECT_NOT_EXIST:1.0\n".as_slice())
}

#[test]
fn by_another_name_the_iterator_is_gone(rt: HostRuntime) -> Result<(), Fail> {
    let alloc = rt.alloc();
    let file = cities(alloc)?;
    assert!(rt; is_gone_elsewhere(alloc, file.as_slice(), WORDS_OF_ANOTHER_NAME)?);
    Ok(())
}
