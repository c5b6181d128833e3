//! What a client sends, how the outside fails, and what comes of it.

use crate::echo::serve_echo;
use std::alloc::Global;
use td_cdr::{List, Memory, Octets};
use td_out::{MemSink, MemSource};
use td_stream::End;

/// A client's bytes, how they come, and what comes of them.
#[derive(Clone, Copy)]
pub struct Story {
    /// The bytes, part by part.
    pub sent: &'static [&'static [u8]],
    /// The greatest size of each read.
    pub pieces: &'static [usize],
    /// The reads that fail, counted from 1.
    pub reads: &'static [u64],
    /// The writes that fail, counted from 1.
    pub writes: &'static [u64],
    pub end: End,
    /// The bytes that are written, part by part.
    pub given: &'static [&'static [u8]],
}

/// The parts, one after the other.
pub fn joined(alloc: Global, parts: &[&'static [u8]]) -> Result<Vec<u8>, Memory> {
    let mut all = Vec::new(alloc);
    for part in parts {
        all.extend_from_slice(part)?;
    }
    Ok(all)
}

/// Whether it comes so.
pub fn comes(alloc: Global, story: &Story) -> Result<bool, Memory> {
    let sent = Octets::from_vec(joined(alloc, story.sent)?);
    let pieces = List::from_slice(alloc, story.pieces)?;
    let given = joined(alloc, story.given)?;
    runs(alloc, sent, pieces, story, &given)
}

/// Whether these bytes come in these pieces, and then are answered so.
pub fn runs(
    alloc: Global,
    sent: Octets,
    pieces: List<usize>,
    story: &Story,
    given: &[u8],
) -> Result<bool, Memory> {
    let reads = List::from_slice(alloc, story.reads)?;
    let writes = List::from_slice(alloc, story.writes)?;
    let mut source = MemSource::new(sent, pieces, reads);
    let mut sink = MemSink::new(alloc, writes);
    let end = serve_echo(alloc, &mut source, &mut sink);
    Ok(end == story.end && sink.written() == given)
}
