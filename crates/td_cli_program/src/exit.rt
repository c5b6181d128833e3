//! The program over a runtime, and the status of its process.

ghost use Rattle.std.specs.Prelude.{◌≡◌, codes, map, string_bytes, MatchBool};
ghost use Rattle.std.specs.Process.{exit_status};
ghost use Rattle.td_cli_program.specs.Printing.{sunk};
ghost use Rattle.td_cli_program.specs.Runs.{RunsClient};
ghost use Rattle.td_cli_program.specs.Sending.{line};
ghost use Rattle.td_out.specs.SinkTexts.{GivesText};

use crate::client::client_run;
use std::alloc::Global;
use std::env;
use std::io::{self, ErrorKind, Write};
use std::net::Net;
use std::process::ExitCode;
use std::rt::{Clock, Env};
use td_out::{Sink, StdSink, write_all};
use td_wire::{TcpWire, Wire};

/// Does what the words say, as `client_run` does, and gives the process its status.
pub fn run_client<L: Wire, K: Sink, E: Sink>(
    alloc: Global,
    args: &[String],
    wire: &mut L,
    sink: &mut K,
    faults: &mut E,
) -> ExitCode
    ensures { RunsClient (map string_bytes args.now) (line (L.content wire.old) (L.faults wire.old))
        (line (L.content wire.new) (L.faults wire.new))
        (sunk (K.written sink.old) (K.faults sink.old))
        (sunk (K.written sink.new) (K.faults sink.new))
        (sunk (E.written faults.old) (E.faults faults.old))
        (sunk (E.written faults.new) (E.faults faults.new)) (exit_status result) }
{
    ExitCode::from(client_run(alloc, args, wire, sink, faults))
}

/// The program over the words, the network and the clock of this runtime, and these streams.
pub fn start<R: Env + Net + Clock + AllocGlobal, O: Write + Drop, E: Write + Drop>(
    rt: &R,
    output: O,
    errors: E,
) -> ExitCode {
    let mut faults = StdSink::new(errors);
    let words = match words(rt) {
        Ok(words) => words,
        Err(e) => return ExitCode::from(refuse_words(&mut faults, is_out_of_memory(&e))),
    };
    let mut wire = TcpWire::new(rt);
    let mut sink = StdSink::new(output);
    run_client(
        rt.alloc(),
        words.as_slice(),
        &mut wire,
        &mut sink,
        &mut faults,
    )
}

/// The words behind the program's name.
fn words<R: Env + AllocGlobal>(rt: &R) -> io::Result<Vec<String>> {
    let mut words = Vec::new(rt.alloc());
    for word in env::args(rt)?.skip(1) {
        words.push(word)?;
    }
    Ok(words)
}

/// Whether memory ran out when the words were asked for. Else one isn't text, so that it isn't in its form.
fn is_out_of_memory(e: &io::Error) -> bool {
    e.kind() == ErrorKind::OutOfMemory
}

/// What is done where the words can't be had.
fn refuse_words<E: Sink>(faults: &mut E, is_out_of_memory: bool) -> u8
    ensures { MatchBool is_out_of_memory (result ≡ 9) ((result ≡ 2)
        × GivesText (codes "usage\n") (E.written faults.old) (E.written faults.new)
        (E.faults faults.old) (E.faults faults.new)) }
{
    if is_out_of_memory {
        return 9;
    }
    let _ = write_all(faults, b"usage\n");
    2
}
