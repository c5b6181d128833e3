//! What a file opens, printed.

ghost use Rattle.std.specs.Prelude.{◌≤◌, length};
ghost use Rattle.td_command.specs.Printing.{Checks, PrintsOrNoMemory, PrintsFile, PrintsOf, sink_seen};
ghost use Rattle.td_command.specs.Shelves.{shelves};
ghost use Rattle.td_file.specs.Files.{seen};
ghost use Rattle.td_objects.specs.References.{IsAddress};

use crate::ended::Ended;
use crate::printing::print;
use std::alloc::Global;
use td_check::check_lines;
use td_file::{FileFault, Opened, read_file};
use td_out::{Sink, TextFault, Texts};

/// Prints what the file of this name opens.
pub(crate) fn check_file<F: Texts, K: Sink>(
    alloc: Global,
    name: &str,
    files: &mut F,
    sink: &mut K,
) -> Ended
    ensures prints { PrintsFile Checks (shelves (F.content files.old) (F.faults files.old)
        (F.faults files.new)) name.now result (sink_seen (K.written sink.old) (K.faults sink.old))
        (sink_seen (K.written sink.new) (K.faults sink.new)) }
    ensures later { F.faults files.old ≤ F.faults files.new }
{
    match files.text(alloc, name) {
        Ok(text) => check_text(alloc, text.as_slice(), sink),
        Err(TextFault::Failed) => Ended::Missing,
        Err(TextFault::TooLong) => Ended::TooLong,
        Err(TextFault::Memory) => Ended::Memory,
    }
}

/// Prints what the text of a file opens.
fn check_text<K: Sink>(alloc: Global, text: &[u8], sink: &mut K) -> Ended
    requires { length text.now ≤ 67108864 }
    ensures { PrintsOf Checks text.now result (sink_seen (K.written sink.old) (K.faults sink.old))
        (sink_seen (K.written sink.new) (K.faults sink.new)) }
{
    match read_file(alloc, text) {
        Ok(opened) => check_opened(alloc, opened, sink),
        Err(FileFault::Line(number, cause)) => Ended::Refused(number, cause),
        Err(FileFault::Memory) => Ended::Memory,
    }
}

/// Prints what is opened.
fn check_opened<K: Sink>(alloc: Global, opened: Opened, sink: &mut K) -> Ended
    requires { IsAddress opened.home }
    ensures { PrintsOrNoMemory (Checks (seen opened)) result
        (sink_seen (K.written sink.old) (K.faults sink.old))
        (sink_seen (K.written sink.new) (K.faults sink.new)) }
{
    match check_lines(alloc, &opened) {
        Ok(lines) => print(sink, lines.as_slice()),
        Err(_) => Ended::Memory,
    }
}
