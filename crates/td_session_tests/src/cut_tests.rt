//! A query in pieces, cut off, often, and with an outside that fails.

ghost use Rattle.std.specs.Prelude.{◌≤◌, length};

use crate::answering::nobody;
use crate::opening::{Server, opened_server};
use crate::serving::{Expected, Outside, WHOLE, is_served};
use crate::story::{PRINTERS, Streams, read_streams};
use std::alloc::Global;
use std::process::Abort;
use std::test::Fail;
use td_cdr::Memory;
use td_file::FileFault;
use td_session::End;

/// A query for the two printers, and its reply.
pub const QUERY: &str = "\
    > 47494f50010000000000004c00000000000000010100000000000003412f4c000000000671756572790000000000000000\
    0000085072696e746572000000000100000000000000010000000000000000000000000000000a\
    < 47494f500100000100000090000000000000000100000000000000020000001049444c3a5072696e7465723a312e300000\
    00000100000000000000120001000000000002680000090000000270310000000000000000001049444c3a5072696e746572\
    3a312e3000000000010000000000000012000100000000000268000009000000027032000000000000000000010000000000\
    00000000000000";

/// A Request that expects no reply, with an empty key and an empty operation.
const SHORT: &str = "> 47494f500100000000000018000000000000000100000000000000000000000000000000";

/// So many bytes of the input that is the same bytes again and again, and how the session ends.
#[derive(Clone, Copy)]
pub struct Often<'a> {
    pub lines: &'a str,
    pub times: usize,
    /// How many bytes at the end are missing.
    pub missing: usize,
    /// How many replies are written.
    pub replies: usize,
    pub end: End,
}

/// So many times the same bytes.
pub fn repeated(alloc: Global, bytes: &[u8], times: usize) -> Result<Vec<u8>, Memory> {
    let mut all = Vec::new(alloc);
    for _ in 0..times {
        all.extend_from_slice(bytes)?;
    }
    Ok(all)
}

/// The input, without the bytes that are missing at its end.
fn input(alloc: Global, bytes: &[u8], often: &Often) -> Result<Vec<u8>, Memory> {
    let mut input = repeated(alloc, bytes, often.times)?;
    input.truncate(input.len().saturating_sub(often.missing));
    Ok(input)
}

pub fn printers(alloc: Global) -> Result<Server, FileFault> {
    opened_server(alloc, PRINTERS.as_bytes(), nobody(alloc))
}

/// Whether a session with this input writes this and ends so.
fn is_so(
    alloc: Global,
    input: Result<Vec<u8>, Memory>,
    written: Result<Vec<u8>, Memory>,
    outside: &Outside,
    end: End,
) -> bool {
    match (printers(alloc), input, written) {
        (Ok(server), Ok(input), Ok(written)) => {
            let expected = Expected {
                written: written.as_slice(),
                journal: None,
                end,
            };
            is_served(alloc, server, input, outside, &expected)
        }
        _ => false,
    }
}

pub fn is_often(alloc: Global, often: &Often, outside: &Outside) -> bool {
    match read_streams(alloc, often.lines) {
        Ok(bytes) => {
            let input = input(alloc, bytes.input.as_slice(), often);
            let written = repeated(alloc, bytes.written.as_slice(), often.replies);
            drop(bytes);
            is_so(alloc, input, written, outside, often.end)
        }
        Err(_) => false,
    }
}

/// Two queries and their replies.
pub const TWICE: Often<'static> = Often {
    lines: QUERY,
    times: 2,
    missing: 0,
    replies: 2,
    end: End::Closed,
};

/// Two queries in one piece, byte by byte, and cut inside the second.
#[test]
fn messages_come_in_pieces(rt: HostRuntime) -> Result<(), Fail> {
    let bytes = Outside {
        pieces: &[1; 176],
        ..WHOLE
    };
    let cut = Outside {
        pieces: &[100],
        ..WHOLE
    };
    assert!(rt; is_often(rt.alloc(), &TWICE, &WHOLE));
    assert!(rt; is_often(rt.alloc(), &TWICE, &bytes));
    assert!(rt; is_often(rt.alloc(), &TWICE, &cut));
    Ok(())
}

/// A query of which so many bytes are missing.
pub const fn without(missing: usize) -> Often<'static> {
    Often {
        times: 1,
        missing,
        replies: 0,
        end: End::Truncated(0),
        ..TWICE
    }
}

/// The stream ends behind 8 and 50 bytes of a query, and a byte before the end of the second.
#[test]
fn streams_are_cut(rt: HostRuntime) -> Result<(), Fail> {
    let second = Often {
        missing: 1,
        replies: 1,
        end: End::Truncated(88),
        ..TWICE
    };
    assert!(rt; is_often(rt.alloc(), &without(80), &WHOLE));
    assert!(rt; is_often(rt.alloc(), &without(38), &WHOLE));
    assert!(rt; is_often(rt.alloc(), &second, &WHOLE));
    Ok(())
}

/// The second read fails behind a query, and the first write at its reply.
#[test]
fn the_outside_fails(rt: HostRuntime) -> Result<(), Fail> {
    let reads = Outside {
        reads_failing: &[2],
        ..WHOLE
    };
    let read = Often {
        times: 1,
        replies: 1,
        end: End::ReadFault,
        ..TWICE
    };
    let writes = Outside {
        writes_failing: &[1],
        ..WHOLE
    };
    let write = Often {
        replies: 0,
        end: End::WriteFault,
        ..TWICE
    };
    assert!(rt; is_often(rt.alloc(), &read, &reads));
    assert!(rt; is_often(rt.alloc(), &write, &writes));
    Ok(())
}

/// 100 queries have 8,800 bytes, more than one read asks for.
#[test]
fn many_messages_are_answered(rt: HostRuntime) -> Result<(), Fail> {
    let many = Often {
        times: 100,
        replies: 100,
        ..TWICE
    };
    assert!(rt; is_often(rt.alloc(), &many, &WHOLE));
    Ok(())
}

/// A million Requests make a session too long.
#[test]
fn a_long_session_is_ended(rt: HostRuntime) -> Result<(), Fail> {
    let long = Often {
        lines: SHORT,
        times: 1000000,
        replies: 1000000,
        end: End::Long,
        ..TWICE
    };
    assert!(rt; is_often(rt.alloc(), &long, &WHOLE));
    Ok(())
}

/// The query in a message whose header tells 16 MiB, with zeros behind it.
fn large(alloc: Global, query: &[u8]) -> Result<Vec<u8>, Memory>
    requires { 12 ≤ length query.now }
{
    let mut input = Vec::from_slice(alloc, &query[..8])?;
    input.extend_from_slice(&[1, 0, 0, 0])?;
    input.extend_from_slice(&query[12..])?;
    input.resize(12 + (16 << 20), 0)?;
    Ok(input)
}

fn is_large_one_served(alloc: Global) -> bool {
    match read_streams(alloc, QUERY) {
        Ok(Streams { input, written }) => {
            let large = if input.len() == 88 {
                large(alloc, input.as_slice())
            } else {
                Err(Memory)
            };
            is_so(alloc, large, Ok(written), &WHOLE, End::Closed)
        }
        Err(_) => false,
    }
}

/// Bytes behind the last parameter are ignored, however many a message may have.
#[test]
fn a_message_of_16_mib(rt: HostRuntime) -> Result<(), Fail> {
    assert!(rt; is_large_one_served(rt.alloc()));
    Ok(())
}
