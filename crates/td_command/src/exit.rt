//! The program over a runtime, and the status of its process.

ghost use Rattle.std.specs.Prelude.{◌≡◌, false, map, string_bytes};
ghost use Rattle.std.specs.Process.{exit_status};
ghost use Rattle.td_stream.specs.Outside.{outside};
ghost use Rattle.td_command.specs.Commands.{command_of, is_pipe};
ghost use Rattle.td_command.specs.Completeness.{Completes};
ghost use Rattle.td_command.specs.Reports.{line_of};
ghost use Rattle.td_command.specs.Runs.{RunsServer, shelves};
ghost use Rattle.td_command.specs.Status.{status_of};
ghost use Rattle.td_out.specs.SinkTexts.{GivesText};

use crate::command::run;
use crate::ended::Ended;
use crate::reporting::report;
use std::alloc::Global;
use std::env;
use std::io::{self, ErrorKind, Read, Write};
use std::net::Net;
use std::process::ExitCode;
use std::rt::{Clock, Env, Files};
use td_out::{ChaChaWords, FileTexts, Sink, Source, StdSink, StdSource, Texts, Words};
use td_wire::{TcpWire, Wire};

/// Does what the arguments say, as `run` does, and gives the process its status.
pub fn run_program<F: Texts, S: Source, K: Sink, E: Sink, L: Wire, W: Words>(
    alloc: Global,
    args: &[String],
    files: &mut F,
    source: &mut S,
    sink: &mut K,
    faults: &mut E,
    wire: &mut L,
    words: &mut W,
) -> ExitCode
    ensures runs { RunsServer (map string_bytes args.now)
        (shelves (F.content files.old) (F.faults files.old) (F.faults files.new))
        (W.word_after words.old)
        (outside (S.left source.old) (S.faults source.old) (K.written sink.old) (K.faults sink.old))
        (outside (S.left source.new) (S.faults source.new) (K.written sink.new) (K.faults sink.new))
        (E.written faults.old) (E.written faults.new) (E.faults faults.old) (E.faults faults.new)
        (exit_status result) }
    ensures complete { Completes (map string_bytes args.now)
        (shelves (F.content files.old) (F.faults files.old) (F.faults files.new))
        (W.word_after words.old)
        (outside (S.left source.old) (S.faults source.old) (K.written sink.old) (K.faults sink.old))
        (outside (S.left source.new) (S.faults source.new) (K.written sink.new) (K.faults sink.new))
        (exit_status result) }
    ensures uncalled { is_pipe (command_of (map string_bytes args.now)) ≡ false
        → (L.content wire.new ≡ L.content wire.old) × (L.faults wire.new ≡ L.faults wire.old) }
{
    ExitCode::from(run(alloc, args, files, source, sink, faults, wire, words))
}

/// What the program does whose arguments can't be had: the line and the status for it.
pub fn refuse_arguments<E: Sink>(faults: &mut E, ended: Ended) -> ExitCode
    ensures reported { GivesText (line_of ended) (E.written faults.old) (E.written faults.new)
        (E.faults faults.old) (E.faults faults.new) }
    ensures status { exit_status result ≡ status_of ended }
{
    report(faults, ended);
    ExitCode::from(ended.status())
}

/// The program over the arguments, the files, the network and the clock of this runtime, and these streams, with the
/// random words of ChaCha20.
pub fn start<
    R: Env + Files + Net + Clock + AllocGlobal,
    I: Read + Drop,
    O: Write + Drop,
    E: Write + Drop,
>(rt: &R, input: I, output: O, errors: E) -> ExitCode {
    let mut faults = StdSink::new(errors);
    let args = match arguments(rt) {
        Ok(args) => args,
        Err(e) => return refuse_arguments(&mut faults, without_arguments(&e)),
    };
    let mut files = FileTexts::new(rt);
    let mut source = StdSource::new(input);
    let mut sink = StdSink::new(output);
    let mut wire = TcpWire::new(rt);
    let mut words = ChaChaWords::new();
    run_program(
        rt.alloc(),
        args.as_slice(),
        &mut files,
        &mut source,
        &mut sink,
        &mut faults,
        &mut wire,
        &mut words,
    )
}

/// The words behind the program's name.
///
/// # Errors
///
/// An error of kind `OutOfMemory` when out of memory, and another where one of them isn't text.
pub fn arguments<R: Env + AllocGlobal>(rt: &R) -> io::Result<Vec<String>> {
    let mut args = Vec::new(rt.alloc());
    for word in env::args(rt)?.skip(1) {
        args.push(word)?;
    }
    Ok(args)
}

/// How the program ends that can't have its arguments: when out of memory, or since one isn't text, so that they
/// are no command.
fn without_arguments(e: &io::Error) -> Ended {
    if e.kind() == ErrorKind::OutOfMemory {
        Ended::Memory
    } else {
        Ended::Usage
    }
}
