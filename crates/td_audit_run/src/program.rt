//! The program over a runtime.

use crate::command::run_log;
use std::io::Write;
use std::process::ExitCode;
use std::rt::Files;
use td_out::{FileTexts, StdSink};

/// The program over these words, the files of this runtime and these streams.
pub fn start_log<R: Files + AllocGlobal, O: Write + Drop, E: Write + Drop>(
    rt: &R,
    args: &[String],
    output: O,
    errors: E,
) -> ExitCode {
    let mut files = FileTexts::new(rt);
    let mut sink = StdSink::new(output);
    let mut faults = StdSink::new(errors);
    ExitCode::from(run_log(rt.alloc(), args, &mut files, &mut sink, &mut faults))
}
