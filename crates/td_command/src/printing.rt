//! Texts that commands print.

ghost use Rattle.std.specs.Prelude.{◌≡◌, ◌≤◌};
ghost use Rattle.td_command.specs.Printing.{PrintsOrNoMemory, PrintsText, sink_seen};
ghost use Rattle.td_make.specs.Generated.{generated_file};

use crate::ended::Ended;
use std::alloc::Global;
use td_make::make_file;
use td_out::{Sink, write_all};

/// Prints a text.
pub(crate) fn print<K: Sink>(sink: &mut K, text: &[u8]) -> Ended
    ensures { PrintsText text.now result (sink_seen (K.written sink.old) (K.faults sink.old))
        (sink_seen (K.written sink.new) (K.faults sink.new)) }
{
    match write_all(sink, text) {
        Ok(()) => Ended::Printed,
        Err(_) => Ended::PrintFault,
    }
}

/// Prints the file of a ring of so many traders.
pub(crate) fn print_file<K: Sink>(alloc: Global, count: u32, sink: &mut K) -> Ended
    requires least { 1 ≤ count }
    requires most { count ≤ 64 }
    ensures { PrintsOrNoMemory (λ text. text ≡ generated_file count) result
        (sink_seen (K.written sink.old) (K.faults sink.old))
        (sink_seen (K.written sink.new) (K.faults sink.new)) }
{
    match make_file(alloc, count) {
        Ok(text) => print(sink, text.as_slice()),
        Err(_) => Ended::Memory,
    }
}
