//! The log of the traders of a generated file.

ghost use Rattle.std.specs.Prelude.{◌≤◌};
ghost use Rattle.td_audit_run.specs.Audits.{SaysLog};
ghost use Rattle.td_audit_run.specs.Printing.{PrintsVerdict, PrintsOf};
ghost use Rattle.td_command.specs.Printing.{sink_seen};
ghost use Rattle.td_file.specs.Files.{seen};
ghost use Rattle.td_make.specs.Generated.{generated_file};
ghost use Rattle.td_objects.specs.References.{IsAddress};

use crate::audited::Audited;
use crate::printing::print;
use std::alloc::Global;
use td_audit::make_log;
use td_file::{FileFault, Opened, read_file};
use td_make::make_file;
use td_out::Sink;

/// How long the text of a file may be, in bytes: 64 MiB.
const LONGEST_TEXT: usize = 67_108_864;

/// Prints the log of the traders of the file of a ring of so many.
pub(crate) fn print_log<K: Sink>(alloc: Global, count: u32, sink: &mut K) -> Audited
    requires least { 1 ≤ count }
    requires most { count ≤ 64 }
    ensures { PrintsOf SaysLog (generated_file count) result
        (sink_seen (K.written sink.old) (K.faults sink.old))
        (sink_seen (K.written sink.new) (K.faults sink.new)) }
{
    match make_file(alloc, count) {
        Ok(text) => log_text(alloc, text.as_slice(), sink),
        Err(_) => Audited::Memory,
    }
}

/// Prints the log of the traders of this text of a file.
fn log_text<K: Sink>(alloc: Global, text: &[u8], sink: &mut K) -> Audited
    ensures { PrintsOf SaysLog text.now result (sink_seen (K.written sink.old) (K.faults sink.old))
        (sink_seen (K.written sink.new) (K.faults sink.new)) }
{
    if text.len() > LONGEST_TEXT {
        return Audited::TooLong;
    }
    match read_file(alloc, text) {
        Ok(opened) => log_opened(alloc, opened, sink),
        Err(FileFault::Line(number, cause)) => Audited::Refused(number, cause),
        Err(FileFault::Memory) => Audited::Memory,
    }
}

/// Prints the log of what was opened.
fn log_opened<K: Sink>(alloc: Global, opened: Opened, sink: &mut K) -> Audited
    requires { IsAddress opened.home }
    ensures { PrintsVerdict (SaysLog (seen opened)) result
        (sink_seen (K.written sink.old) (K.faults sink.old))
        (sink_seen (K.written sink.new) (K.faults sink.new)) }
{
    let Opened { home, seed, solo } = opened;
    drop(seed);
    match make_log(alloc, solo, home) {
        Ok(log) => print(sink, log.as_slice()),
        Err(_) => Audited::Memory,
    }
}
