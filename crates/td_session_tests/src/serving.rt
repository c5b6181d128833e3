//! Sessions over a source and a sink in memory.

use crate::answering::nobody;
use crate::journal::is_noted;
use crate::opening::{Server, opened_server};
use crate::story::{Story, Streams, read_streams};
use std::alloc::Global;
use td_cdr::{List, Memory, Octets};
use td_file::FileFault;
use td_journal::{Journal, KeptJournal};
use td_out::{MemSink, MemSource, MemWords};
use td_session::{End, Room, serve_connection};

/// The greatest sizes of a session's reads, and which of its reads and writes fail.
#[derive(Clone, Copy)]
pub struct Outside<'a> {
    pub pieces: &'a [usize],
    pub reads_failing: &'a [u64],
    pub writes_failing: &'a [u64],
}

/// All bytes come at once, and nothing fails.
pub const WHOLE: Outside<'static> = Outside {
    pieces: &[],
    reads_failing: &[],
    writes_failing: &[],
};

/// What is to be written, what is to be noted, where that is said, and how the session is to end.
#[derive(Clone, Copy)]
pub struct Expected<'a> {
    pub written: &'a [u8],
    pub journal: Option<&'a str>,
    pub end: End,
}

pub fn source(alloc: Global, input: Vec<u8>, outside: &Outside) -> Result<MemSource, Memory> {
    let pieces = List::from_slice(alloc, outside.pieces)?;
    let failing = List::from_slice(alloc, outside.reads_failing)?;
    Ok(MemSource::new(Octets::from_vec(input), pieces, failing))
}

pub fn sink(alloc: Global, outside: &Outside) -> Result<MemSink, Memory> {
    let failing = List::from_slice(alloc, outside.writes_failing)?;
    Ok(MemSink::new(alloc, failing))
}

/// How a session ends, and what is noted of it in such a journal. The random words are 7 and 4, and then 0.
pub fn served_noting<J: Journal + Drop>(
    alloc: Global,
    server: Server,
    source: &mut MemSource,
    sink: &mut MemSink,
) -> Result<(End, Room<J>), Memory> {
    let Server {
        home,
        mut solo,
        mut peers,
    } = server;
    let mut room = Room::new(alloc, home)?;
    match List::from_slice(alloc, &[7, 4]) {
        Err(memory) => {
            drop(room);
            Err(memory)
        }
        Ok(drawn) => {
            let mut words = MemWords::new(drawn);
            let end = serve_connection(
                alloc, &mut solo, &mut room, source, sink, &mut peers, &mut words,
            );
            Ok((end, room))
        }
    }
}

/// Whether the session ends and notes as said.
fn ends_so(
    alloc: Global,
    server: Server,
    source: &mut MemSource,
    sink: &mut MemSink,
    expected: &Expected,
) -> bool {
    match served_noting(alloc, server, source, sink) {
        Ok((end, room)) => end == expected.end && is_journal(&room, expected.journal),
        Err(_) => false,
    }
}

fn is_journal(room: &Room<KeptJournal>, words: Option<&str>) -> bool {
    match words {
        Some(words) => is_noted(room.journal(), words),
        None => true,
    }
}

/// Whether a session of this server with this input is as said.
pub fn is_served(
    alloc: Global,
    server: Server,
    input: Vec<u8>,
    outside: &Outside,
    expected: &Expected,
) -> bool {
    match (source(alloc, input, outside), sink(alloc, outside)) {
        (Ok(mut source), Ok(mut sink)) => {
            ends_so(alloc, server, &mut source, &mut sink, expected)
                && sink.written() == expected.written
        }
        _ => false,
    }
}

/// Whether a session of this server is as the story says.
pub fn is_content(alloc: Global, server: Result<Server, FileFault>, story: &Story) -> bool {
    match server {
        Ok(server) => is_played(alloc, server, story),
        Err(_) => false,
    }
}

fn is_played(alloc: Global, server: Server, story: &Story) -> bool {
    match read_streams(alloc, story.lines) {
        Ok(Streams { input, written }) => {
            let expected = Expected {
                written: written.as_slice(),
                journal: Some(story.journal),
                end: story.end,
            };
            is_served(alloc, server, input, &WHOLE, &expected)
        }
        Err(_) => false,
    }
}

/// Whether a session with the traders of its own file is as the story says; there are no peers.
pub fn comes_true(alloc: Global, story: &Story) -> bool {
    is_content(
        alloc,
        opened_server(alloc, story.file.as_bytes(), nobody(alloc)),
        story,
    )
}
