//! The program over its words and streams.

ghost use Rattle.std.specs.Prelude.{map, string_bytes};
ghost use Rattle.td_name_command.specs.Completeness.{Completes};
ghost use Rattle.td_name_command.specs.Runs.{Obeys, RunsNameServer};
ghost use Rattle.td_name_command.specs.Words.{home_of};
ghost use Rattle.td_stream.specs.Outside.{outside};

use crate::ended::Ended;
use crate::serving::serve_new;
use crate::words::home_of;
use std::alloc::Global;
use std::io::{Read, Write};
use std::process::ExitCode;
use td_out::{Sink, Source, StdSink, StdSource, write_all};

/// Does what the words say: `names HOST PORT` serves one session over the source and the sink, with naming contexts of
/// which there is the root alone, and whose references have this host and port. HOST has at most 1,000 bytes and no
/// NUL, and PORT is from 0 to 65535 in decimal without leading zeros.
///
/// The status is 0 where the session was closed, 2 where the words are no command, 4 where the session broke off, 5
/// where its input ended inside a message, 6 where the source failed, 7 where the sink failed, 8 where the session was
/// too long, and 9 when out of memory. The faults sink gets a line where it isn't 0: `usage` or `status N`. It is 0 or
/// 9 where the words are such, the input is messages to a server, and nothing fails.
pub fn run_names<S: Source, K: Sink, E: Sink>(
    alloc: Global,
    args: &[String],
    source: &mut S,
    sink: &mut K,
    faults: &mut E,
) -> u8
    ensures runs { RunsNameServer (map string_bytes args.now)
        (outside (S.left source.old) (S.faults source.old) (K.written sink.old) (K.faults sink.old))
        (outside (S.left source.new) (S.faults source.new) (K.written sink.new) (K.faults sink.new))
        (E.written faults.old) (E.written faults.new) (E.faults faults.old)
        (E.faults faults.new) result }
    ensures complete { Completes (map string_bytes args.now)
        (outside (S.left source.old) (S.faults source.old) (K.written sink.old) (K.faults sink.old))
        (outside (S.left source.new) (S.faults source.new) (K.written sink.new) (K.faults sink.new))
        result }
{
    let ended = obey(alloc, args, source, sink);
    let _ = write_all(faults, ended.line());
    ended.status()
}

/// The same without the line.
fn obey<S: Source, K: Sink>(alloc: Global, args: &[String], source: &mut S, sink: &mut K) -> Ended
    ensures { Obeys (home_of (map string_bytes args.now)) result
        (outside (S.left source.old) (S.faults source.old) (K.written sink.old) (K.faults sink.old))
        (outside (S.left source.new) (S.faults source.new) (K.written sink.new)
        (K.faults sink.new)) }
{
    match home_of(args) {
        Some((host, port)) => serve_new(alloc, host, port, source, sink),
        None => Ended::Usage,
    }
}

/// The program over these words and streams.
pub fn start_names<I: Read + Drop, O: Write + Drop, E: Write + Drop>(
    alloc: Global,
    args: &[String],
    input: I,
    output: O,
    errors: E,
) -> ExitCode {
    let mut source = StdSource::new(input);
    let mut sink = StdSink::new(output);
    let mut faults = StdSink::new(errors);
    ExitCode::from(run_names(alloc, args, &mut source, &mut sink, &mut faults))
}
