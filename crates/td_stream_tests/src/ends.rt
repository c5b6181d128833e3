//! How streams end.

use crate::messages::{CLOSE, ERROR, PLAIN, REPLY, REQUEST};
use crate::story::{Story, comes};
use std::test::Fail;
use td_stream::{Cause, End};

#[test]
fn messages_close_a_stream(rt: HostRuntime) -> Result<(), Fail> {
    let alloc = rt.alloc();
    let closes = Story {
        sent: &[REQUEST, CLOSE, REQUEST],
        ..PLAIN
    };
    assert!(rt; comes(alloc, &closes)?, "CloseConnection");
    let fails = Story {
        sent: &[REQUEST, ERROR, REQUEST],
        ..PLAIN
    };
    assert!(rt; comes(alloc, &fails)?, "MessageError");
    Ok(())
}

#[test]
fn input_ends_inside_a_message(rt: HostRuntime) -> Result<(), Fail> {
    let alloc = rt.alloc();
    let header = Story {
        sent: &[REQUEST, b"GIOP\x01"],
        end: End::Truncated(47),
        ..PLAIN
    };
    assert!(rt; comes(alloc, &header)?, "in its header");
    let body = Story {
        sent: &[b"GIOP\x01\x00\x00\x00\x00\x00\x00\x23\x00"],
        end: End::Truncated(0),
        given: &[],
        ..PLAIN
    };
    assert!(rt; comes(alloc, &body)?, "behind its header");
    Ok(())
}

#[test]
fn bad_headers_break_a_stream_off(rt: HostRuntime) -> Result<(), Fail> {
    let alloc = rt.alloc();
    let magic = Story {
        sent: &[REQUEST, b"GIOR\x01\x00\x00\x00\x00\x00\x00\x00", REQUEST],
        end: End::Broken(47, Cause::BadMagic),
        given: &[REPLY, ERROR],
        ..PLAIN
    };
    assert!(rt; comes(alloc, &magic)?, "magic");
    let version = Story {
        sent: &[REQUEST, b"GIOP\x01\x02\x00\x00\x00\x00\x00\x00"],
        end: End::Broken(47, Cause::BadVersion),
        ..magic
    };
    assert!(rt; comes(alloc, &version)?, "version");
    let fragments = Story {
        sent: &[REQUEST, b"GIOP\x01\x01\x02\x07\x00\x00\x00\x00"],
        end: End::Broken(47, Cause::Fragmented),
        ..magic
    };
    assert!(rt; comes(alloc, &fragments)?, "flags before type");
    let kind = Story {
        sent: &[REQUEST, b"GIOP\x01\x00\x00\x07\x00\x00\x00\x00"],
        end: End::Broken(47, Cause::BadType),
        ..magic
    };
    assert!(rt; comes(alloc, &kind)?, "type");
    let size = Story {
        sent: &[REQUEST, b"GIOP\x01\x00\x00\x00\x01\x00\x00\x01"],
        end: End::Broken(47, Cause::TooLarge),
        ..magic
    };
    assert!(rt; comes(alloc, &size)?, "16 MiB and a byte");
    let unsent = Story {
        writes: &[2],
        given: &[REPLY],
        ..magic
    };
    assert!(rt; comes(alloc, &unsent)?, "the error isn't taken");
    Ok(())
}

#[test]
fn messages_break_a_stream_off(rt: HostRuntime) -> Result<(), Fail> {
    let alloc = rt.alloc();
    let reply = Story {
        sent: &[REPLY, REQUEST],
        end: End::Broken(0, Cause::NotForServer),
        given: &[ERROR],
        ..PLAIN
    };
    assert!(rt; comes(alloc, &reply)?, "a Reply");
    let short = Story {
        sent: &[b"GIOP\x01\x00\x00\x02\x00\x00\x00\x02\x00\x00"],
        end: End::Broken(0, Cause::Header(12)),
        ..reply
    };
    assert!(rt; comes(alloc, &short)?, "a CancelRequest without a whole id");
    Ok(())
}

#[test]
fn the_source_fails(rt: HostRuntime) -> Result<(), Fail> {
    let alloc = rt.alloc();
    let first = Story {
        reads: &[1],
        end: End::ReadFault,
        given: &[],
        ..PLAIN
    };
    assert!(rt; comes(alloc, &first)?, "at first");
    let later = Story {
        sent: &[REQUEST, REQUEST],
        pieces: &[50],
        reads: &[2],
        given: &[REPLY],
        ..first
    };
    assert!(rt; comes(alloc, &later)?, "inside a message");
    Ok(())
}

#[test]
fn the_sink_fails(rt: HostRuntime) -> Result<(), Fail> {
    let alloc = rt.alloc();
    let first = Story {
        sent: &[REQUEST, REQUEST],
        writes: &[1],
        end: End::WriteFault,
        given: &[],
        ..PLAIN
    };
    assert!(rt; comes(alloc, &first)?, "at first");
    let second = Story {
        pieces: &[47, 47],
        writes: &[2],
        given: &[REPLY],
        ..first
    };
    assert!(rt; comes(alloc, &second)?, "at the second piece's reply");
    let third = Story {
        writes: &[2],
        end: End::Closed,
        given: &[REPLY, REPLY],
        ..first
    };
    assert!(rt;
        comes(alloc, &third)?,
        "two replies of a piece are one write"
    );
    Ok(())
}
