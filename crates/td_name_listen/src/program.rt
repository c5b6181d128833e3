//! The program over a runtime.

use crate::listen::listen_names;
use std::io::Write;
use std::net::{Net, TcpListener, TcpStream};
use std::process::ExitCode;
use std::rt::Clock;
use std::sync::Wait;
use std::thread::Threads;
use td_accept::{NoGate, TcpAccept};
use td_name_sessions::DropEnded;
use td_out::StdSink;

/// The server over TCP, with these words. No session calls anything outside, so no connection to a peer is kept.
pub fn start_listening<
    R: Net<Listener = TcpListener, Stream = TcpStream>
        + Clock
        + AllocGlobal
        + Threads
        + Wait
        + Sync,
    E: Write + Drop,
>(rt: &R, args: &[String], errors: E) -> ExitCode {
    let mut accept = TcpAccept::new(rt, None);
    let mut faults = StdSink::new(errors);
    let mut ended = DropEnded::new();
    ExitCode::from(listen_names(
        rt,
        rt.alloc(),
        args,
        &mut accept,
        &NoGate,
        &mut faults,
        &mut ended,
    ))
}
