//! One query with bytes changed, cut at every place, and with each of its reads and writes failing in turn.

ghost use Rattle.std.specs.Prelude.{None};

use crate::cut_tests::{Often, QUERY, TWICE, is_often, printers, repeated, without};
use crate::opening::Server;
use crate::serving::{Outside, WHOLE, comes_true};
use crate::story::{PRINTERS, Story, Streams, read_streams};
use std::alloc::Global;
use std::process::Abort;
use std::test::Fail;
use td_cdr::{List, Memory, Octets};
use td_journal::KeptJournal;
use td_out::{Failed, MemSink, MemSource, MemWords, Sink};
use td_session::{Cause, End, Room, serve_connection};

/// The boolean at place 20, whether a reply is expected, is 2.
const BOOLEAN_OF_TWO: Story = Story {
    file: PRINTERS,
    lines: "\
        > 47494f50010000000000004c00000000000000010200000000000003412f4c0000000006717565727900000000000000000000\
        085072696e746572000000000100000000000000010000000000000000000000000000000a\
        < 47494f500100000600000000",
    journal: "",
    end: End::Broken(0, Cause::Header(20)),
};

/// The object's key, at place 24, tells 4,294,967,295 octets.
const LONG_KEY: Story = Story {
    file: PRINTERS,
    lines: "\
        > 47494f50010000000000004c000000000000000101000000ffffffff412f4c0000000006717565727900000000000000000000\
        085072696e746572000000000100000000000000010000000000000000000000000000000a\
        < 47494f500100000600000000",
    journal: "",
    end: End::Broken(0, Cause::Header(24)),
};

/// The type's name, at place 48, tells a byte more than it has, so that it has a NUL inside.
const NUL_INSIDE: Story = Story {
    file: PRINTERS,
    lines: "\
        > 47494f50010000000000004c00000000000000010100000000000003412f4c0000000006717565727900000000000000000000\
        095072696e746572000000000100000000000000010000000000000000000000000000000a\
        < 47494f5001000001000000380000000000000001000000020000001e49444c3a6f6d672e6f72672f434f5242412f4d41525348\
        414c3a312e300000000000003000000001",
    journal: "-",
    end: End::Closed,
};

/// The type's name ends with another byte than a NUL.
const NO_NUL: Story = Story {
    file: PRINTERS,
    lines: "\
        > 47494f50010000000000004c00000000000000010100000000000003412f4c0000000006717565727900000000000000000000\
        085072696e746572210000000100000000000000010000000000000000000000000000000a\
        < 47494f5001000001000000380000000000000001000000020000001e49444c3a6f6d672e6f72672f434f5242412f4d41525348\
        414c3a312e300000000000003000000001",
    journal: "-",
    end: End::Closed,
};

/// The last parameter, how many offers are wanted, isn't there, and the size tells so.
const NO_LAST_PARAMETER: Story = Story {
    file: PRINTERS,
    lines: "\
        > 47494f50010000000000004800000000000000010100000000000003412f4c0000000006717565727900000000000000000000\
        085072696e74657200000000010000000000000001000000000000000000000000\
        < 47494f5001000001000000380000000000000001000000020000001e49444c3a6f6d672e6f72672f434f5242412f4d41525348\
        414c3a312e300000000000005400000001",
    journal: "-",
    end: End::Closed,
};

/// The list of policies, at place 76, tells 2,147,483,647 of them. The one that can be begun has an empty name and the
/// TypeCode of an octet, whose value would stand at place 88, behind the message's end.
const MANY_POLICIES: Story = Story {
    file: PRINTERS,
    lines: "\
        > 47494f50010000000000004c00000000000000010100000000000003412f4c0000000006717565727900000000000000000000\
        085072696e74657200000000010000000000000001000000007fffffff000000000000000a\
        < 47494f5001000001000000380000000000000001000000020000001e49444c3a6f6d672e6f72672f434f5242412f4d41525348\
        414c3a312e300000000000005800000001",
    journal: "-",
    end: End::Closed,
};

/// The message's type is 7.
const TYPE_OF_SEVEN: Story = Story {
    file: PRINTERS,
    lines: "\
        > 47494f50010000070000004c00000000000000010100000000000003412f4c0000000006717565727900000000000000000000\
        085072696e746572000000000100000000000000010000000000000000000000000000000a\
        < 47494f500100000600000000",
    journal: "",
    end: End::Broken(0, Cause::BadType),
};

/// The version is 1.2.
const VERSION_OF_TWO: Story = Story {
    file: PRINTERS,
    lines: "\
        > 47494f50010200000000004c00000000000000010100000000000003412f4c0000000006717565727900000000000000000000\
        085072696e746572000000000100000000000000010000000000000000000000000000000a\
        < 47494f500100000600000000",
    journal: "",
    end: End::Broken(0, Cause::BadVersion),
};

/// The message's type is that of a LocateReply.
const TYPE_OF_LOCATE_REPLY: Story = Story {
    file: PRINTERS,
    lines: "\
        > 47494f50010000040000004c00000000000000010100000000000003412f4c0000000006717565727900000000000000000000\
        085072696e746572000000000100000000000000010000000000000000000000000000000a\
        < 47494f500100000600000000",
    journal: "",
    end: End::Broken(0, Cause::NotForServer),
};

/// A LocateRequest without a key.
const NO_KEY: Story = Story {
    file: PRINTERS,
    lines: "\
        > 47494f50010000030000000400000001\
        < 47494f500100000600000000",
    journal: "",
    end: End::Broken(0, Cause::Header(16)),
};

/// Each message is answered as its fault wants, and only a fault of its head or its header ends the session.
#[test]
fn bytes_are_changed(rt: HostRuntime) -> Result<(), Fail> {
    let stories = [
        BOOLEAN_OF_TWO,
        LONG_KEY,
        NUL_INSIDE,
        NO_NUL,
        NO_LAST_PARAMETER,
        MANY_POLICIES,
        TYPE_OF_SEVEN,
        VERSION_OF_TWO,
        TYPE_OF_LOCATE_REPLY,
        NO_KEY,
    ];
    for story in &stories {
        assert!(rt; comes_true(rt.alloc(), story));
    }
    Ok(())
}

/// Whether the first bytes of a query, up to each but the last, are answered with nothing.
fn are_beginnings_truncated(alloc: Global) -> bool {
    for missing in 1..88 {
        if !is_often(alloc, &without(missing), &WHOLE) {
            return false;
        }
    }
    true
}

/// Two queries that come byte by byte, and the read behind so many of their bytes fails.
fn fails_behind(alloc: Global, bytes: usize) -> bool {
    let failing = [(bytes as u64).saturating_add(1)];
    let outside = Outside {
        pieces: &[1; 176],
        reads_failing: &failing,
        ..WHOLE
    };
    let often = Often {
        replies: bytes / 88,
        end: End::ReadFault,
        ..TWICE
    };
    is_often(alloc, &often, &outside)
}

/// The last of the reads is the one that would give the input's end.
fn does_each_read_fail(alloc: Global) -> bool {
    for bytes in 0..177 {
        if !fails_behind(alloc, bytes) {
            return false;
        }
    }
    true
}

/// A query is cut at each place, and each read of two queries fails.
#[test]
fn reads_end_early(rt: HostRuntime) -> Result<(), Fail> {
    assert!(rt; are_beginnings_truncated(rt.alloc()));
    assert!(rt; does_each_read_fail(rt.alloc()));
    Ok(())
}

/// A sink that takes at most so many bytes of a piece. Clauses aren't told what was written; the test reads it.
#[derive(Drop)]
struct ShortSink {
    sink: MemSink,
    most: usize,
}

impl Sink for ShortSink {
    ghost written = { λ _. None };

    ghost faults = { λ s. s.sink.calls.faults };

    ghost same = { λ _ _. Unit {0} };

    ghost same_on = { λ _ _ _ _ _. tt };

    fn write(&mut self, piece: &[u8]) -> Result<usize, Failed> {
        let size = piece.len().min(self.most.max(1));
        self.sink.write(&piece[..size])
    }
}

/// A sink in memory, and which of its writes fails, counted from 1.
fn short_sink(alloc: Global, most: usize, failing: u64) -> Result<ShortSink, Memory> {
    let failing = List::from_slice(alloc, &[failing])?;
    Ok(ShortSink {
        sink: MemSink::new(alloc, failing),
        most,
    })
}

/// How a session ends that writes to this sink.
fn end_of(
    alloc: Global,
    server: Server,
    input: Vec<u8>,
    sink: &mut ShortSink,
) -> Result<End, Memory> {
    let Server {
        home,
        mut solo,
        mut peers,
    } = server;
    let mut room = Room::<KeptJournal>::new(alloc, home)?;
    let mut words = MemWords::new(List::new(alloc));
    let mut source = MemSource::new(Octets::from_vec(input), List::new(alloc), List::new(alloc));
    Ok(serve_connection(
        alloc,
        &mut solo,
        &mut room,
        &mut source,
        sink,
        &mut peers,
        &mut words,
    ))
}

/// Two queries, and their replies.
fn twice(alloc: Global) -> Result<Streams, Memory> {
    let Streams { input, written } = read_streams(alloc, QUERY)?;
    match (
        repeated(alloc, input.as_slice(), 2),
        repeated(alloc, written.as_slice(), 2),
    ) {
        (Ok(input), Ok(written)) => Ok(Streams { input, written }),
        _ => Err(Memory),
    }
}

/// How many bytes a write takes at most, which write of two replies fails, and how many bytes are written then.
type Cut = (usize, u64, usize);

/// A reply has 156 bytes, and both are held until they are written.
const CUTS: [Cut; 11] = [
    (1000, 1, 0),
    (1000, 2, 312),
    (1000, 3, 312),
    (1000, 4, 312),
    (100, 1, 0),
    (100, 2, 100),
    (100, 3, 200),
    (100, 4, 300),
    (100, 5, 312),
    (1, 312, 311),
    (1, 313, 312),
];

/// Whether two queries have so many bytes of their replies written. All of them are the reply of a session that is
/// closed, and fewer that of one whose sink failed.
fn is_cut(alloc: Global, cut: &Cut) -> bool {
    let (most, failing, size) = *cut;
    let end = if size == 312 {
        End::Closed
    } else {
        End::WriteFault
    };
    let sink = short_sink(alloc, most, failing);
    match (printers(alloc), twice(alloc), sink) {
        (Ok(server), Ok(Streams { input, written }), Ok(mut sink)) => {
            end_of(alloc, server, input, &mut sink) == Ok(end)
                && written.get(..size) == Some(sink.sink.written())
        }
        _ => false,
    }
}

/// Replies are written in pieces, as the sink takes them, and up to a write that fails.
#[test]
fn writes_are_short_and_fail(rt: HostRuntime) -> Result<(), Fail> {
    for cut in &CUTS {
        assert!(rt; is_cut(rt.alloc(), cut));
    }
    Ok(())
}
