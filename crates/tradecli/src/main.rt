//! A client of traders: each use makes one call, of a trader's Lookup, Register or Link or of its type repository, and
//! prints the lines of what it comes to. `tradecli --help` tells the subcommands.
#![tactic(auto)]

use std::process::ExitCode;
use td_cli_program::start;

fn main(rt: HostRuntime) -> ExitCode {
    start(&rt, rt.stdout(), rt.stderr())
}
