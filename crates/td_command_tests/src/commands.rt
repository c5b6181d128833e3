//! Commands over texts, sources and sinks in memory, with every status but the one when out of memory.

use std::alloc::Global;
use std::process::{Abort, ExitCode};
use std::test::Fail;
use td_cdr::{List, Memory, Octets, Text};
use td_command::{run, run_program};
use td_out::{MemSink, MemSource, MemTexts, MemWords};
use td_wire::MemWire;

/// The file of the worked queries.
const PRINTERS: &[u8] = b"address h 9\ntrader A\ntype Printer IDL:Printer:1.0\n\
    offer Printer ref:IDL:Printer:1.0,h,9,p1\n\
    offer Printer ref:IDL:Printer:1.0,h,9,p2\n";

/// The same without its offers.
const NO_OFFERS: &[u8] = b"address h 9\ntrader A\ntype Printer IDL:Printer:1.0\n";

/// A file whose third line doesn't fit.
const BROKEN: &[u8] = b"address h 9\ntrader A\ntype Printer\n";

/// Files that are refused for each cause, with the line for it.
const REFUSED: [(&[u8], &[u8]); 8] = [
    (BROKEN, b"line 3: words\n"),
    (b"address h 9\ntrader A!\n", b"line 2: name\n"),
    (b"address h x\n", b"line 1: number\n"),
    (b"# a trader\ntrader A\n", b"line 2: place\n"),
    (b"address h 9\naddress h 9\n", b"line 2: twice\n"),
    (b"address h 9\nseed 00\n", b"line 2: value\n"),
    (
        b"address h 9\ntrader A\ntype P -\noffer P x\n",
        b"line 4: reference\n",
    ),
    (
        b"address h 9\ntrader A\ntype P -\ntype P -\n",
        b"line 4: rejected\n",
    ),
];

/// A query for the printers, of at most ten.
pub const QUERY: &[u8] = b"GIOP\x01\0\0\0\0\0\0\x4c\
    \0\0\0\0\0\0\0\x01\
    \x01\0\0\0\0\0\0\x03\
    A/L\0\0\0\0\x06\
    query\0\0\0\0\0\0\0\
    \0\0\0\x08\
    Printer\0\0\0\0\x01\
    \0\0\0\0\0\0\0\x01\
    \0\0\0\0\0\0\0\0\
    \0\0\0\0\0\0\0\x0a";

/// Its reply, with two offers.
const FOUND: &[u8] = b"GIOP\x01\0\0\x01\0\0\0\x90\
    \0\0\0\0\0\0\0\x01\0\0\0\0\
    \0\0\0\x02\
    \0\0\0\x10IDL:Printer:1.0\0\
    \0\0\0\x01\0\0\0\0\
    \0\0\0\x12\0\x01\0\0\0\0\0\x02h\0\0\x09\0\0\0\x02p1\
    \0\0\0\0\0\0\
    \0\0\0\x10IDL:Printer:1.0\0\
    \0\0\0\x01\0\0\0\0\
    \0\0\0\x12\0\x01\0\0\0\0\0\x02h\0\0\x09\0\0\0\x02p2\
    \0\0\0\0\0\0\
    \0\0\0\x01\0\0\0\0\0\0\0\0\
    \0\0\0\0";

/// Its reply, with no offers.
const FOUND_NONE: &[u8] = b"GIOP\x01\0\0\x01\0\0\0\x20\
    \0\0\0\0\0\0\0\x01\0\0\0\0\
    \0\0\0\0\
    \0\0\0\x01\0\0\0\0\0\0\0\0\
    \0\0\0\0";

/// A CloseConnection, a LocateReply, which no client sends, and a MessageError.
const CLOSE_CONNECTION: &[u8] = b"GIOP\x01\0\0\x05\0\0\0\0";

const LOCATE_REPLY: &[u8] = b"GIOP\x01\0\0\x04\0\0\0\x08\0\0\0\x05\0\0\0\x01";

const ERROR: &[u8] = b"GIOP\x01\0\0\x06\0\0\0\0";

/// A Request that expects no reply, with an empty key and an empty operation.
const SHORT_REQUEST: &[u8] = b"GIOP\x01\0\0\0\0\0\0\x18\
    \0\0\0\0\0\0\0\x01\
    \0\0\0\0\0\0\0\0\
    \0\0\0\0\0\0\0\0";

/// A command: its words, its input, and the calls of the source and the sink that fail.
#[derive(Clone, Copy)]
pub struct Command<'a> {
    words: &'a [&'a str],
    input: &'a [u8],
    /// What comes behind it.
    more: &'a [u8],
    reads_failing: &'a [u64],
    pub writes_failing: &'a [u64],
}

/// `pipe` with a file of this name and this input.
pub const fn piped<'a>(words: &'a [&'a str], input: &'a [u8]) -> Command<'a> {
    Command {
        words,
        input,
        more: b"",
        reads_failing: &[],
        writes_failing: &[],
    }
}

/// What a command answers, writes, and leaves on the faults sink.
#[derive(Clone, Copy)]
pub struct Expected<'a> {
    status: u8,
    written: &'a [u8],
    /// What is written behind it.
    pub then: &'a [u8],
    line: &'a [u8],
}

pub const fn ending<'a>(status: u8, written: &'a [u8], line: &'a [u8]) -> Expected<'a> {
    Expected {
        status,
        written,
        then: b"",
        line,
    }
}

fn texts(alloc: Global) -> Result<MemTexts, Memory> {
    let mut files = List::new(alloc);
    for (name, text) in [
        ("printers", PRINTERS),
        ("none", NO_OFFERS),
        ("broken", BROKEN),
    ] {
        let name = Text::from_slice(alloc, name.as_bytes())?;
        files.push((name, Octets::from_slice(alloc, text)?))?;
    }
    Ok(MemTexts::new(files, List::new(alloc)))
}

pub fn words(alloc: Global, words: &[&str]) -> Result<Vec<String>, Memory> {
    let mut all = Vec::new(alloc);
    for word in words {
        all.push(String::from_str(alloc, word)?)?;
    }
    Ok(all)
}

fn source(alloc: Global, command: &Command) -> Result<MemSource, Memory> {
    let failing = List::from_slice(alloc, command.reads_failing)?;
    let mut input = Vec::from_slice(alloc, command.input)?;
    input.extend_from_slice(command.more)?;
    Ok(MemSource::new(Octets::from_vec(input), List::new(alloc), failing))
}

/// Whether a command over these texts does as said. None of them calls anybody.
pub fn does_with(
    alloc: Global,
    files: &mut MemTexts,
    command: &Command,
    expected: &Expected,
) -> Result<bool, Memory> {
    let args = words(alloc, command.words)?;
    let mut source = source(alloc, command)?;
    let mut sink = MemSink::new(alloc, List::from_slice(alloc, command.writes_failing)?);
    let mut faults = MemSink::new(alloc, List::new(alloc));
    let mut wire = MemWire::new(alloc, List::new(alloc), List::new(alloc));
    let mut words = MemWords::new(List::new(alloc));
    let status = run(
        alloc,
        args.as_slice(),
        files,
        &mut source,
        &mut sink,
        &mut faults,
        &mut wire,
        &mut words,
    );
    Ok(
        status == expected.status
            && sink.written().strip_prefix(expected.written) == Some(expected.then)
            && faults.written() == expected.line
            && wire.written(0).is_none(),
    )
}

/// Whether a command does as said.
pub fn does(alloc: Global, command: &Command, expected: &Expected) -> Result<bool, Memory> {
    let mut files = texts(alloc)?;
    does_with(alloc, &mut files, command, expected)
}

fn try_commands(rt: &impl Abort, alloc: Global, cases: &[(Command, Expected)]) -> Result<(), Fail> {
    for (command, expected) in cases {
        assert!(rt; does(alloc, command, expected)?);
    }
    Ok(())
}

#[test]
fn words_and_files(rt: HostRuntime) -> Result<(), Fail> {
    let cases = [
        (piped(&["pipe", "printers"], QUERY), ending(0, FOUND, b"")),
        (piped(&["pipe", "none"], QUERY), ending(0, FOUND_NONE, b"")),
        (piped(&[], QUERY), ending(2, b"", b"usage\n")),
        (piped(&["pipe"], QUERY), ending(2, b"", b"usage\n")),
        (
            piped(&["listen", "printers"], QUERY),
            ending(2, b"", b"usage\n"),
        ),
        (
            piped(&["pipe", "printers", "x"], QUERY),
            ending(2, b"", b"usage\n"),
        ),
        (
            piped(&["pipe", "broken"], QUERY),
            ending(3, b"", b"line 3: words\n"),
        ),
        (
            piped(&["pipe", "absent"], QUERY),
            ending(10, b"", b"status 10\n"),
        ),
    ];
    try_commands(&rt, rt.alloc(), &cases)
}

/// The words for a session with the printers.
pub const PIPE: &[&str] = &["pipe", "printers"];

#[test]
fn sessions(rt: HostRuntime) -> Result<(), Fail> {
    let read_fails = Command {
        reads_failing: &[2],
        ..piped(PIPE, QUERY)
    };
    let write_fails = Command {
        writes_failing: &[1],
        ..piped(PIPE, QUERY)
    };
    let breaks_off = Command {
        more: b"GET / HTTP/1.0\r\n\r\n",
        ..piped(PIPE, QUERY)
    };
    let broken = Expected {
        then: ERROR,
        ..ending(4, FOUND, b"status 4\n")
    };
    let cases = [
        (breaks_off, broken),
        (piped(PIPE, CLOSE_CONNECTION), ending(0, b"", b"")),
        (piped(PIPE, LOCATE_REPLY), ending(4, ERROR, b"status 4\n")),
        (piped(PIPE, &QUERY[..87]), ending(5, b"", b"status 5\n")),
        (read_fails, ending(6, FOUND, b"status 6\n")),
        (write_fails, ending(7, b"", b"status 7\n")),
    ];
    try_commands(&rt, rt.alloc(), &cases)
}

/// So many times the same bytes.
fn repeated(alloc: Global, bytes: &[u8], times: usize) -> Result<Vec<u8>, Memory> {
    let mut all = Vec::new(alloc);
    for _ in 0..times {
        all.extend_from_slice(bytes)?;
    }
    Ok(all)
}

/// A session is too long with a million Requests.
#[test]
fn a_long_session(rt: HostRuntime) -> Result<(), Fail> {
    let input = repeated(rt.alloc(), SHORT_REQUEST, 1000000)?;
    let command = piped(PIPE, input.as_slice());
    assert!(rt; does(rt.alloc(), &command, &ending(8, b"", b"status 8\n"))?);
    Ok(())
}

/// Texts of which the one for `printers` is this.
pub fn named_printers(alloc: Global, text: Octets) -> Result<MemTexts, Memory> {
    let mut named = List::new(alloc);
    named.push((Text::from_slice(alloc, b"printers")?, text))?;
    Ok(MemTexts::new(named, List::new(alloc)))
}

/// Whether a file is refused with this line.
fn is_refused(alloc: Global, text: &[u8], line: &[u8]) -> Result<bool, Memory> {
    let mut files = named_printers(alloc, Octets::from_slice(alloc, text)?)?;
    does_with(
        alloc,
        &mut files,
        &piped(PIPE, QUERY),
        &ending(3, b"", line),
    )
}

#[test]
fn refused_files(rt: HostRuntime) -> Result<(), Fail> {
    for (text, line) in REFUSED {
        assert!(rt; is_refused(rt.alloc(), text, line)?);
    }
    Ok(())
}

/// A file of more than 64 MiB.
fn is_too_long(alloc: Global) -> Result<bool, Fail> {
    let text = Octets::from_vec(vec![in alloc; b'#'; 67108865]?);
    let mut files = named_printers(alloc, text)?;
    let args = words(alloc, PIPE)?;
    let mut source = source(alloc, &piped(PIPE, QUERY))?;
    let mut sink = MemSink::new(alloc, List::new(alloc));
    let mut faults = MemSink::new(alloc, List::new(alloc));
    let mut wire = MemWire::new(alloc, List::new(alloc), List::new(alloc));
    let mut words = MemWords::new(List::new(alloc));
    let status = run_program(
        alloc,
        args.as_slice(),
        &mut files,
        &mut source,
        &mut sink,
        &mut faults,
        &mut wire,
        &mut words,
    );
    Ok(status == ExitCode::from(3) && faults.written() == b"too long\n".as_slice())
}

#[test]
fn a_long_file(rt: HostRuntime) -> Result<(), Fail> {
    assert!(rt; is_too_long(rt.alloc())?);
    Ok(())
}
