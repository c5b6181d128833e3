//! The program over a runtime.

use crate::listen::serve;
use std::alloc::Global;
use std::io::{ErrorKind, Read, Write};
use std::net::{Net, TcpListener, TcpStream};
use std::process::ExitCode;
use std::rt::{Clock, Env, Files};
use std::sync::Wait;
use std::sync::atomic::{AtomicU64, Ordering};
use std::thread;
use std::thread::Threads;
use std::time::Duration;
use td_accept::{NoGate, TcpAccept};
use td_audit_run::start_log;
use td_command::{Ended, arguments, report};
use td_journal::PastJournal;
use td_name_command::start_names;
use td_name_listen::start_listening;
use td_out::{FileTexts, StdSink};
use td_sessions::DropEnded;
use td_shared::PastSharedJournal;
use td_shared_listen::listen_sharing;
use td_wire::ConnectionPool;

/// The program over the arguments, the files, the network, the clock and the threads of this runtime, and these
/// streams. It listens where its first word is `listen`, with naming contexts where the second of four words is
/// `names`; it serves naming contexts over standard input where the first word is `names`, audits or prints a log where
/// that is `audit` or `log`, and does what `td_command::start` does otherwise. Where its words can't be had when out of
/// memory, that is told here: they might be had a second time, and `listen` is no word of the others.
pub fn start<
    R: Env
        + Files
        + Net<Listener = TcpListener, Stream = TcpStream>
        + Clock
        + AllocGlobal
        + Threads
        + Wait
        + Sync,
    I: Read + Drop,
    O: Write + Drop,
    E: Write + Drop,
>(rt: &R, input: I, output: O, errors: E) -> ExitCode {
    match arguments(rt) {
        Ok(args) if listens_for_names(args.as_slice()) => {
            drop(input);
            drop(output);
            start_listening(rt, args.as_slice(), errors)
        }
        Ok(args) if listens(args.as_slice()) => {
            drop(input);
            drop(output);
            listen(rt, args.as_slice(), errors)
        }
        Ok(args) if names(args.as_slice()) => {
            start_names(rt.alloc(), args.as_slice(), input, output, errors)
        }
        Ok(args) if logs(args.as_slice()) => {
            drop(input);
            start_log(rt, args.as_slice(), output, errors)
        }
        Err(e) if e.kind() == ErrorKind::OutOfMemory => refuse_memory(errors),
        _ => td_command::start(rt, input, output, errors),
    }
}

/// What the program does that has no memory for its arguments.
fn refuse_memory<E: Write + Drop>(errors: E) -> ExitCode {
    report(&mut StdSink::new(errors), Ended::Memory);
    ExitCode::from(Ended::Memory.status())
}

/// Whether the words are `listen`, `names` and two more. With one word more it is a file that has this name.
fn listens_for_names(args: &[String]) -> bool {
    match args {
        [word, what, _, _] => word.as_str() == "listen" && what.as_str() == "names",
        _ => false,
    }
}

/// Whether the words are `listen`, one more and `shared`: a file, with a desk of iterators for all connections.
fn shares(args: &[String]) -> bool {
    match args {
        [word, _, how] => word.as_str() == "listen" && how.as_str() == "shared",
        _ => false,
    }
}

/// Whether the first word is `listen`.
fn listens(args: &[String]) -> bool {
    begins_with(args, "listen")
}

/// Whether the first word is `names`.
fn names(args: &[String]) -> bool {
    begins_with(args, "names")
}

/// Whether the first word is `audit` or `log`.
fn logs(args: &[String]) -> bool {
    begins_with(args, "audit") || begins_with(args, "log")
}

fn begins_with(args: &[String], verb: &str) -> bool {
    match args.first() {
        Some(word) => word.as_str() == verb,
        None => false,
    }
}

/// The server over TCP.
fn listen<
    R: Files
        + Net<Listener = TcpListener, Stream = TcpStream>
        + Clock
        + AllocGlobal
        + Threads
        + Wait
        + Sync,
    E: Write + Drop,
>(rt: &R, args: &[String], errors: E) -> ExitCode {
    match ConnectionPool::new(rt.alloc()) {
        Err(_) => serve_with(rt, args, errors, None),
        Ok(pool) => {
            let over = AtomicU64::new(0);
            listen_with(rt, args, errors, &pool, &over)
        }
    }
}

/// The server over TCP with a pool of connections to peers, whose rounds another thread begins until the server ends.
/// Where no such thread can be started, no connection is kept.
fn listen_with<
    'k,
    R: Files
        + Net<Listener = TcpListener, Stream = TcpStream>
        + Clock
        + AllocGlobal
        + Threads
        + Wait
        + Sync,
    E: Write + Drop,
>(
    rt: &'k R,
    args: &[String],
    errors: E,
    pool: &'k ConnectionPool<TcpStream>,
    over: &'k AtomicU64,
) -> ExitCode {
    thread::scope(thread::scope_env(), rt, move |scope| {
        match scope.spawn(move || begin_rounds(rt, pool, over)) {
            Err(_) => serve_with(rt, args, errors, None),
            Ok(rounds) => {
                let status = serve_with(rt, args, errors, Some(pool));
                over.store(1, Ordering::SeqCst);
                over.wake_all();
                rounds.join(rt);
                status
            }
        }
    })
}

/// Begins a round of the pool each second until the server is over, so that a connection ends two to three seconds
/// behind its last call.
fn begin_rounds<R: Wait>(rt: &R, pool: &ConnectionPool<TcpStream>, over: &AtomicU64) {
    for _ in rt.forever() {
        if over.load(Ordering::SeqCst) != 0 {
            return;
        }
        over.park_timeout(rt, 0, Duration::from_secs(1));
        pool.begin_round();
    }
}

/// The server over TCP, whose connections to peers are kept in the pool, where there is one.
fn serve_with<
    R: Files
        + Net<Listener = TcpListener, Stream = TcpStream>
        + Clock
        + AllocGlobal
        + Threads
        + Wait
        + Sync,
    E: Write + Drop,
>(rt: &R, args: &[String], errors: E, pool: Option<&ConnectionPool<TcpStream>>) -> ExitCode {
    if shares(args) {
        return share_with(rt, args, errors, pool);
    }
    let mut files = FileTexts::new(rt);
    let mut accept = TcpAccept::new(rt, pool);
    let mut faults = StdSink::new(errors);
    let mut ended = DropEnded::<PastJournal>::new();
    ExitCode::from(serve(
        rt,
        rt.alloc(),
        args,
        &mut files,
        &mut accept,
        &NoGate,
        &mut faults,
        &mut ended,
    ))
}

/// The same with a desk of iterators for all connections.
fn share_with<
    R: Files
        + Net<Listener = TcpListener, Stream = TcpStream>
        + Clock
        + AllocGlobal
        + Threads
        + Wait
        + Sync,
    E: Write + Drop,
>(rt: &R, args: &[String], errors: E, pool: Option<&ConnectionPool<TcpStream>>) -> ExitCode {
    let mut files = FileTexts::new(rt);
    let mut accept = TcpAccept::new(rt, pool);
    let mut faults = StdSink::new(errors);
    let mut ended = td_shared_sessions::DropEnded::<PastSharedJournal>::new();
    ExitCode::from(listen_sharing(
        rt,
        rt.alloc(),
        args,
        &mut files,
        &mut accept,
        &NoGate,
        &mut faults,
        &mut ended,
    ))
}
