//! Texts on their way to a sink.

ghost use Rattle.td_cli_program.specs.Printing.{PrintsWithStatus, PrintsOutcome, sunk};

use crate::outcome::{Outcome, outcome_status, put_outcome};
use std::alloc::Global;
use td_out::{Sink, write_all};

/// The status where a sink failed.
const SINK_FAILED: u8 = 7;

/// The status where the reply isn't that of the operation.
const NOT_THE_REPLY: u8 = 8;

/// The status when out of memory.
const NO_MEMORY: u8 = 9;

/// Prints a text, and answers this status where all of it is printed.
fn print<K: Sink>(sink: &mut K, text: &[u8], status: u8) -> u8
    ensures { PrintsWithStatus text.now status (sunk (K.written sink.old) (K.faults sink.old))
        (sunk (K.written sink.new) (K.faults sink.new)) result }
{
    match write_all(sink, text) {
        Ok(()) => status,
        Err(_) => SINK_FAILED,
    }
}

/// Prints the lines of an outcome, and answers the status.
pub(crate) fn show<K: Sink>(alloc: Global, outcome: &Outcome, sink: &mut K) -> u8
    ensures { PrintsOutcome outcome.now (sunk (K.written sink.old) (K.faults sink.old))
        (sunk (K.written sink.new) (K.faults sink.new)) result }
{
    let mut lines = Vec::new(alloc);
    match put_outcome(alloc, &mut lines, outcome) {
        Ok(true) => print(sink, lines.as_slice(), outcome_status(outcome)),
        Ok(false) => NOT_THE_REPLY,
        Err(_) => NO_MEMORY,
    }
}
