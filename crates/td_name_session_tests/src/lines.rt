//! Lines of messages, and the session that they make.

use std::alloc::Global;
use std::test::Fail;
use td_cdr::{List, Memory, Octets, Text};
use td_name_session::{End, NameRoom, serve_names};
use td_naming::Naming;
use td_out::{MemSink, MemSource};

/// The first word of a line, and what stands behind it.
pub(crate) fn cut(line: &str) -> (&str, &str) {
    line.split_once(' ').unwrap_or((line, ""))
}

/// Puts the bytes of hexadecimal digits behind the others, where a dash is none.
fn put_bytes(alloc: Global, all: &mut Vec<u8>, digits: &str) -> Result<(), Fail> {
    if digits != "-" {
        let bytes = hex::decode(alloc, digits.as_bytes())?;
        all.extend_from_slice(bytes.as_slice())?;
    }
    Ok(())
}

/// What a client sends, what it is answered with, and the points that are noted.
#[derive(Drop)]
pub(crate) struct Reported {
    pub sent: Vec<u8>,
    pub given: Vec<u8>,
    pub points: Vec<u64>,
}

/// No messages yet.
pub(crate) fn nothing_content(alloc: Global) -> Reported {
    Reported {
        sent: Vec::new(alloc),
        given: Vec::new(alloc),
        points: Vec::new(alloc),
    }
}

/// The messages of lines, with their replies and points. A dash notes none.
pub(crate) fn session_of(alloc: Global, lines: &str) -> Result<Reported, Fail> {
    let mut content = nothing_content(alloc);
    for line in lines.lines() {
        put_line(alloc, &mut content, line)?;
    }
    Ok(content)
}

/// A line: a message, its reply, and its point. `MESSAGE*COUNT` comes so often.
pub(crate) fn put_line(alloc: Global, content: &mut Reported, line: &str) -> Result<(), Fail> {
    let (word, rest) = cut(line);
    let (reply, point) = cut(rest);
    let (message, count) = word.split_once('*').unwrap_or((word, "1"));
    for _ in 0..count.parse::<u32>().unwrap_or(0) {
        put_bytes(alloc, &mut content.sent, message)?;
        put_bytes(alloc, &mut content.given, reply)?;
        if let Ok(point) = point.parse::<u64>() {
            content.points.push(point)?;
        }
    }
    Ok(())
}

/// Whether a session with a new naming store at `here`, port 1, answers so and is closed, where the bytes come in
/// pieces of this size.
pub(crate) fn answers(alloc: Global, content: &Reported, piece: usize) -> Result<bool, Memory> {
    ends(alloc, content, piece, End::Closed)
}

/// Whether it answers so and ends so.
pub(crate) fn ends(
    alloc: Global,
    content: &Reported,
    piece: usize,
    wanted: End,
) -> Result<bool, Memory> {
    let host = Text::from_slice(alloc, b"here")?;
    let mut names = Naming::new(alloc, host, 1)?;
    let mut room = NameRoom::new(alloc)?;
    let sent = Octets::from_slice(alloc, content.sent.as_slice())?;
    let pieces = List::from_slice(alloc, &[piece; 64])?;
    let mut source = MemSource::new(sent, pieces, List::new(alloc));
    let mut sink = MemSink::new(alloc, List::new(alloc));
    let end = serve_names(alloc, &mut names, &mut room, &mut source, &mut sink);
    Ok(
        end == wanted
            && sink.written() == content.given.as_slice()
            && room.journal() == content.points.as_slice(),
    )
}
