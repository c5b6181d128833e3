//! A trading service. `tradesrv listen FILE` serves the visitors at the address of a server's file over TCP, each on a
//! thread of its own; `tradesrv pipe FILE` serves one session with its traders over standard input and output,
//! `tradesrv check FILE` prints what the file opens, `tradesrv make N` a file of N traders in a ring, and `tradesrv
//! drill N` what queries to each of them come to. `tradesrv names HOST PORT` serves one session of naming contexts over
//! standard input and output. `tradesrv audit FILE LOG` checks a log of a network of a file's traders, and `tradesrv
//! log N` prints one.
#![tactic(auto)]

use std::process::ExitCode;
use td_listen::start;

fn main(rt: HostRuntime) -> ExitCode {
    start(&rt, rt.stdin(), rt.stdout(), rt.stderr())
}
