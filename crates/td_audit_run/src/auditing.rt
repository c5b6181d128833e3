//! A log that is audited over the traders of a file.

ghost use Rattle.std.specs.Prelude.{◌≡◌, ◌≤◌, length, IfOk};
ghost use Rattle.td_audit_run.specs.Audits.{AuditsFile, AuditsNamed, AuditsText, SaysVerdict, cause_word, no_line};
ghost use Rattle.td_audit_run.specs.Audits.{yes_line};
ghost use Rattle.td_audit_run.specs.Printing.{PrintsVerdict, PrintsText};
ghost use Rattle.td_audit_run.specs.declared.audited.Audited.TheVariants as audited;
ghost use Rattle.td_command.specs.Printing.{sink_seen};
ghost use Rattle.td_command.specs.Shelves.{shelves};
ghost use Rattle.td_file.specs.Files.{seen};
ghost use Rattle.td_objects.specs.References.{IsAddress};

use crate::audited::Audited;
use crate::printing::{print, print_denial};
use std::alloc::Global;
use td_audit::{Cause, Verdict, audit};
use td_cdr::Memory;
use td_file::{FileFault, Opened, read_file};
use td_forms::{put, put_counted};
use td_out::{Sink, TextFault, Texts};

/// Audits the log of one name over the traders of the file of another, and prints the verdict.
pub(crate) fn audit_file<F: Texts, K: Sink>(
    alloc: Global,
    file: &str,
    log: &str,
    files: &mut F,
    sink: &mut K,
) -> Audited
    ensures { AuditsFile (shelves (F.content files.old) (F.faults files.old) (F.faults files.new))
        file.now log.now result (sink_seen (K.written sink.old) (K.faults sink.old))
        (sink_seen (K.written sink.new) (K.faults sink.new)) }
{
    match files.text(alloc, file) {
        Ok(text) => audit_text(alloc, text.as_slice(), log, files, sink),
        Err(TextFault::Failed) => Audited::Missing,
        Err(TextFault::TooLong) => Audited::TooLong,
        Err(TextFault::Memory) => Audited::Memory,
    }
}

/// Audits the log of a name over the traders of this text of a file.
fn audit_text<F: Texts, K: Sink>(
    alloc: Global,
    text: &[u8],
    log: &str,
    files: &mut F,
    sink: &mut K,
) -> Audited
    requires { length text.now ≤ 67108864 }
    ensures { AuditsText text.now (F.content files.old) log.now (F.faults files.old)
        (F.faults files.new) result (sink_seen (K.written sink.old) (K.faults sink.old))
        (sink_seen (K.written sink.new) (K.faults sink.new)) }
{
    match read_file(alloc, text) {
        Ok(opened) => audit_named(alloc, opened, log, files, sink),
        Err(FileFault::Line(number, cause)) => Audited::Refused(number, cause),
        Err(FileFault::Memory) => Audited::Memory,
    }
}

/// Audits the log of a name over what was opened.
fn audit_named<F: Texts, K: Sink>(
    alloc: Global,
    opened: Opened,
    log: &str,
    files: &mut F,
    sink: &mut K,
) -> Audited
    requires { IsAddress opened.home }
    ensures { AuditsNamed (seen opened) (F.content files.old) log.now (F.faults files.old)
        (F.faults files.new) result (sink_seen (K.written sink.old) (K.faults sink.old))
        (sink_seen (K.written sink.new) (K.faults sink.new)) }
{
    match files.text(alloc, log) {
        Ok(text) => audit_opened(alloc, opened, text.as_slice(), sink),
        Err(TextFault::Failed) => Audited::Missing,
        Err(TextFault::TooLong) => Audited::TooLong,
        Err(TextFault::Memory) => Audited::Memory,
    }
}

/// Audits a log over what was opened, and prints the verdict.
fn audit_opened<K: Sink>(alloc: Global, opened: Opened, log: &[u8], sink: &mut K) -> Audited
    requires home { IsAddress opened.home }
    requires short { length log.now ≤ 67108864 }
    ensures { PrintsVerdict (SaysVerdict log.now (seen opened)) result
        (sink_seen (K.written sink.old) (K.faults sink.old))
        (sink_seen (K.written sink.new) (K.faults sink.new)) }
{
    let Opened { home, seed, solo } = opened;
    drop(seed);
    match audit(alloc, solo, home, log) {
        Verdict::Yes(count) => print_yes(alloc, count, sink),
        Verdict::No(number, cause) => print_no(alloc, number, cause, sink),
        Verdict::Line(number) => Audited::Strange(number),
        Verdict::Memory => Audited::Memory,
    }
}

/// `yes N`.
fn yes_line(alloc: Global, count: u32) -> Result<Vec<u8>, Memory>
    ensures { IfOk result (λ t. t.items ≡ yes_line count) }
{
    let mut text = Vec::new(alloc);
    put_counted(&mut text, b"yes ", count as u64)?;
    put(&mut text, b"\n")?;
    Ok(text)
}

/// `no N CAUSE`.
fn no_line(alloc: Global, number: u32, cause: Cause) -> Result<Vec<u8>, Memory>
    ensures { IfOk result (λ t. t.items ≡ no_line number cause) }
{
    let mut text = Vec::new(alloc);
    put_counted(&mut text, b"no ", number as u64)?;
    put(&mut text, b" ")?;
    put(&mut text, cause_word(cause))?;
    put(&mut text, b"\n")?;
    Ok(text)
}

fn cause_word(cause: Cause) -> &'static [u8]
    ensures { result.now ≡ cause_word cause }
{
    match cause {
        Cause::Net(_) => b"network",
        Cause::Refused => b"refused",
        Cause::Differs => b"differs",
        Cause::NotEnded => b"open",
    }
}

/// Prints that a log is what the network does.
fn print_yes<K: Sink>(alloc: Global, count: u32, sink: &mut K) -> Audited
    ensures { PrintsText audited.Printed (yes_line count) result
        (sink_seen (K.written sink.old) (K.faults sink.old))
        (sink_seen (K.written sink.new) (K.faults sink.new)) }
{
    match yes_line(alloc, count) {
        Ok(line) => print(sink, line.as_slice()),
        Err(_) => Audited::Memory,
    }
}

/// Prints that it isn't, from which line on and why.
fn print_no<K: Sink>(alloc: Global, number: u32, cause: Cause, sink: &mut K) -> Audited
    ensures { PrintsText audited.Denied (no_line number cause) result
        (sink_seen (K.written sink.old) (K.faults sink.old))
        (sink_seen (K.written sink.new) (K.faults sink.new)) }
{
    match no_line(alloc, number, cause) {
        Ok(line) => print_denial(sink, line.as_slice()),
        Err(_) => Audited::Memory,
    }
}
