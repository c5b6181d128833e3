//! A drill of a ring of traders, printed.

ghost use Rattle.std.specs.Prelude.{◌≡◌, ◌≤◌, length};
ghost use Rattle.td_command.specs.Printing.{DrillsWith, PrintsOrNoMemory, PrintsOf, sink_seen};
ghost use Rattle.td_file.specs.Files.{seen};
ghost use Rattle.td_make.specs.Generated.{generated_file};

use crate::ended::Ended;
use crate::printing::print;
use std::alloc::Global;
use td_drill::drill;
use td_file::{FileFault, Opened, read_file};
use td_make::make_file;
use td_out::{Sink, Words};

/// How long the text of a file may be, in bytes: 64 MiB.
const LONGEST_TEXT: usize = 67_108_864;

/// Drills the traders of the file of a ring of so many.
pub(crate) fn drill_ring<K: Sink, W: Words>(
    alloc: Global,
    count: u32,
    sink: &mut K,
    words: &mut W,
) -> Ended
    requires least { 1 ≤ count }
    requires most { count ≤ 64 }
    ensures { PrintsOf (DrillsWith (W.word_after words.old)) (generated_file count) result
        (sink_seen (K.written sink.old) (K.faults sink.old))
        (sink_seen (K.written sink.new) (K.faults sink.new)) }
{
    match make_file(alloc, count) {
        Ok(text) => drill_text(alloc, text.as_slice(), sink, words),
        Err(_) => Ended::Memory,
    }
}

/// Drills the traders of this text of a file.
fn drill_text<K: Sink, W: Words>(alloc: Global, text: &[u8], sink: &mut K, words: &mut W) -> Ended
    ensures { PrintsOf (DrillsWith (W.word_after words.old)) text.now result
        (sink_seen (K.written sink.old) (K.faults sink.old))
        (sink_seen (K.written sink.new) (K.faults sink.new)) }
{
    if text.len() > LONGEST_TEXT {
        return Ended::TooLong;
    }
    match read_file(alloc, text) {
        Ok(opened) => drill_opened(alloc, opened, sink, words),
        Err(FileFault::Line(number, cause)) => Ended::Refused(number, cause),
        Err(FileFault::Memory) => Ended::Memory,
    }
}

/// Drills these traders.
fn drill_opened<K: Sink, W: Words>(
    alloc: Global,
    opened: Opened,
    sink: &mut K,
    words: &mut W,
) -> Ended
    requires { length opened.seed ≡ 32 }
    ensures { PrintsOrNoMemory (DrillsWith (W.word_after words.old) (seen opened)) result
        (sink_seen (K.written sink.old) (K.faults sink.old))
        (sink_seen (K.written sink.new) (K.faults sink.new)) }
{
    match drill(alloc, opened, words) {
        Ok(line) => print(sink, line.as_slice()),
        Err(_) => Ended::Memory,
    }
}
