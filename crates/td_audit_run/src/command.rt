//! A command on logs.

ghost use Rattle.std.specs.Prelude.{◌≡◌, map, string_bytes};
ghost use Rattle.td_audit_run.specs.Audits.{Obeys, RunsAudit};
ghost use Rattle.td_audit_run.specs.Commands.{audit_command, command_of, log_command};
ghost use Rattle.td_command.specs.Printing.{sink_seen};
ghost use Rattle.td_command.specs.Shelves.{Shelves, shelves};

use crate::audited::Audited;
use crate::auditing::audit_file;
use crate::logging::print_log;
use crate::reporting::report;
use std::alloc::Global;
use td_command::count_of;
use td_out::{Sink, Texts};

/// Does what the arguments say.
///
/// - `audit FILE LOG` prints whether a recorded schedule is what the network of a file's traders does: `yes N` for its
///   N lines, or `no N CAUSE` with the first line that fails, CAUSE being `network`, `refused`, `differs` or `open`.
///   LOG is read once FILE is accepted.
/// - `log N` prints the log of the ring of N traders, N from 1 to 64, in which each trader is asked.
///
/// The faults sink gets a line where the status isn't 0: `usage`, `line N: CAUSE` for a refused file, `line N: log` for
/// a line that isn't in the log's table, `too long` or `status N`.
///
/// The status is 0 where `yes` or a log was printed, 2 where the arguments are no such command, 3 where the file is
/// refused, or the file or the log is too long, 7 where the sink failed, 9 when out of memory, 10 where the file or the
/// log can't be had, 12 where `no` was printed, and 13 where a line isn't in the log's table.
pub fn run_log<F: Texts, K: Sink, E: Sink>(
    alloc: Global,
    args: &[String],
    files: &mut F,
    sink: &mut K,
    faults: &mut E,
) -> u8
    ensures { RunsAudit (map string_bytes args.now)
        (shelves (F.content files.old) (F.faults files.old) (F.faults files.new))
        (sink_seen (K.written sink.old) (K.faults sink.old))
        (sink_seen (K.written sink.new) (K.faults sink.new)) (E.written faults.old)
        (E.written faults.new) (E.faults faults.old) (E.faults faults.new) result }
{
    let ended = obey(alloc, args, files, sink);
    report(faults, ended);
    ended.status()
}

/// The same without the report.
fn obey<F: Texts, K: Sink>(alloc: Global, args: &[String], files: &mut F, sink: &mut K) -> Audited
    ensures { Obeys (command_of (map string_bytes args.now))
        (shelves (F.content files.old) (F.faults files.old) (F.faults files.new)) result
        (sink_seen (K.written sink.old) (K.faults sink.old))
        (sink_seen (K.written sink.new) (K.faults sink.new)) }
{
    match args {
        [word, count] => log_counted(alloc, word.as_str(), count.as_str(), sink),
        [word, file, log] => {
            audit_named(
                alloc,
                word.as_str(),
                file.as_str(),
                log.as_str(),
                files,
                sink,
            )
        }
        _ => Audited::Usage,
    }
}

/// `log N`, for which no file is asked.
#[tactic(auto, using(crate::proofs::Obey::by_count, crate::proofs::Obey::by_none))]
fn log_counted<K: Sink>(alloc: Global, word: &str, count: &str, sink: &mut K) -> Audited
    ensures { (texts : Shelves) → texts.after ≡ texts.before
        → Obeys (log_command word.now count.now) texts result
        (sink_seen (K.written sink.old) (K.faults sink.old))
        (sink_seen (K.written sink.new) (K.faults sink.new)) }
{
    if word != "log" {
        return Audited::Usage;
    }
    match count_of(count.as_bytes()) {
        Some(count) => print_log(alloc, count, sink),
        None => Audited::Usage,
    }
}

/// `audit FILE LOG`.
fn audit_named<F: Texts, K: Sink>(
    alloc: Global,
    word: &str,
    file: &str,
    log: &str,
    files: &mut F,
    sink: &mut K,
) -> Audited
    ensures { Obeys (audit_command word.now file.now log.now)
        (shelves (F.content files.old) (F.faults files.old) (F.faults files.new)) result
        (sink_seen (K.written sink.old) (K.faults sink.old))
        (sink_seen (K.written sink.new) (K.faults sink.new)) }
{
    if word == "audit" {
        audit_file(alloc, file, log, files, sink)
    } else {
        Audited::Usage
    }
}
