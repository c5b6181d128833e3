//! A use of the program over a wire and sinks in memory.

use crate::wires::{has_written, is_disconnected, is_joined, wire_of};
use std::alloc::Global;
use td_cdr::{List, Memory};
use td_cli_program::client_run;
use td_out::MemSink;
use td_wire::MemWire;

/// A use of the program, and what it leaves. Its connection has ended then.
#[derive(Clone, Copy)]
pub struct Use {
    pub words: &'static [&'static str],
    /// What its connection gives.
    pub given: &'static [u8],
    /// The calls of the wire that fail.
    pub wire_failing: &'static [u64],
    /// The calls of the sink that fail.
    pub sink_failing: &'static [u64],
    pub status: u8,
    /// What is written over its connection; nothing where there is none.
    pub wrote: &'static [&'static [u8]],
    pub printed: &'static [&'static [u8]],
    /// What stands in the faults sink; nothing does where it is empty.
    pub content: &'static str,
}

fn words_of(alloc: Global, words: &[&str]) -> Result<Vec<String>, Memory> {
    let mut all = Vec::new(alloc);
    for word in words {
        all.push(String::from_str(alloc, word)?)?;
    }
    Ok(all)
}

/// Whether a text has this in it, or is empty where this is.
fn has(bytes: &[u8], content: &str) -> bool {
    match str::from_utf8(bytes) {
        Ok(text) => {
            if content.is_empty() {
                text.is_empty()
            } else {
                text.contains(content)
            }
        }
        Err(_) => false,
    }
}

/// Whether the wire and both sinks are left so.
fn is_left(wire: &MemWire, sink: &MemSink, faults: &MemSink, used: &Use) -> bool {
    has_written(wire, used.wrote)
        && is_joined(sink.written(), used.printed)
        && has(faults.written(), used.content)
}

/// Whether a use of the program with these words leaves this.
fn leaves(alloc: Global, words: &[String], used: &Use) -> Result<bool, Memory> {
    let mut wire = wire_of(alloc, &[used.given], used.wire_failing)?;
    let failing = List::from_slice(alloc, used.sink_failing)?;
    let mut sink = MemSink::new(alloc, failing);
    let mut faults = MemSink::new(alloc, List::new(alloc));
    let status = client_run(alloc, words, &mut wire, &mut sink, &mut faults);
    let left = is_left(&wire, &sink, &faults, used);
    Ok(status == used.status && left && is_disconnected(&mut wire))
}

/// Whether a use of the program leaves what it is told to.
pub fn passes(alloc: Global, used: &Use) -> Result<bool, Memory> {
    let words = words_of(alloc, used.words)?;
    leaves(alloc, words.as_slice(), used)
}
