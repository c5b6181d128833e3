//! A server at the address of its file, whose sessions share a desk of iterators.

ghost use Rattle.std.specs.Prelude.{◌≡◌, ◌≤◌, length, map, string_bytes};
ghost use Rattle.std.specs.Option.{option_map};
ghost use Rattle.td_command.specs.Shelves.{shelves};
ghost use Rattle.td_file.specs.Files.{seen};
ghost use Rattle.td_shared_listen.specs.Listens.{Listens, Obeys, ServesFile, ServesOpening, ServesText, file_named, front};
ghost use Rattle.td_objects.specs.References.{IsAddress};
ghost use Rattle.td_stream.specs.Outside.{outside};

use crate::listened::{Listened, tell};
use std::alloc::Global;
use std::sync::Wait;
use std::thread::Threads;
use td_accept::{Accept, Gate, Visitor};
use td_file::{FileFault, Opened, read_file};
use td_out::{Sink, TextFault, Texts};
use td_shared_sessions::{Ended, serve_sharing};
use td_workers::Stop;

/// Serves the visitors of an acceptor at the address of a server's file, where the arguments are `listen FILE shared`:
/// an iterator that one session has made is live in every other. The acceptor is bound once, to that address. Each
/// visitor is served on a thread of its own as long as fewer than 64 are served so; a visitor beyond them, or one for
/// whom no thread can be started, is served by the thread that accepts. Session `n`, counted from 1, is served between
/// the two calls of the gate with this number, with the random words that come after a seeding with the file's seed and
/// stream `n`. Each session that has ended is handed on with its visitor, and after the last one the traders are. The
/// faults sink gets a line where the status isn't 0: `usage`, `line N: CAUSE`, `too long` or `status N`; ends of
/// sessions print nothing.
///
/// The status is 0 where no visitor was left, 2 where the arguments are no such command, 3 where the file is refused or
/// too long, 9 when out of memory, 10 where the file can't be had, and 11 where the acceptor failed.
pub fn listen_sharing<
    F: Texts,
    A: Accept,
    G: Gate,
    E: Sink,
    N: Ended<Visitor<A::S, A::K, A::L, A::W>>,
    R: Threads + Wait + Sync,
>(
    rt: &R,
    alloc: Global,
    args: &[String],
    files: &mut F,
    accept: &mut A,
    gate: &G,
    faults: &mut E,
    ended: &mut N,
) -> u8
    ensures listens { Listens
        (λ v. outside (A.S.left v.source) (A.S.faults v.source) (A.K.written v.sink)
        (A.K.faults v.sink)) (λ v. A.W.word_after v.words) (map string_bytes args.now)
        (shelves (F.content files.old) (F.faults files.old) (F.faults files.new))
        (front (A.content accept.old) (A.faults accept.old) (N.content ended.old))
        (front (A.content accept.new) (A.faults accept.new) (N.content ended.new))
        (E.written faults.old)
        (E.written faults.new) (E.faults faults.old) (E.faults faults.new) result }
    ensures later { A.faults accept.old ≤ A.faults accept.new }
{
    let listened = obey(rt, alloc, args, files, accept, gate, ended);
    tell(faults, listened);
    listened.status()
}

/// The same without the report.
fn obey<
    F: Texts,
    A: Accept,
    G: Gate,
    N: Ended<Visitor<A::S, A::K, A::L, A::W>>,
    R: Threads + Wait + Sync,
>(
    rt: &R,
    alloc: Global,
    args: &[String],
    files: &mut F,
    accept: &mut A,
    gate: &G,
    ended: &mut N,
) -> Listened
    ensures obeys { Obeys
        (λ v. outside (A.S.left v.source) (A.S.faults v.source) (A.K.written v.sink)
        (A.K.faults v.sink)) (λ v. A.W.word_after v.words) (file_named (map string_bytes args.now))
        (shelves (F.content files.old) (F.faults files.old) (F.faults files.new)) result
        (front (A.content accept.old) (A.faults accept.old) (N.content ended.old))
        (front (A.content accept.new) (A.faults accept.new) (N.content ended.new)) }
    ensures later { A.faults accept.old ≤ A.faults accept.new }
{
    match file_named(args) {
        Some(name) => serve_file(rt, alloc, name, files, accept, gate, ended),
        None => Listened::Usage,
    }
}

/// The name of the file in the command `listen FILE shared`.
fn file_named(args: &[String]) -> Option<&str>
    ensures { option_map (λ name. name.now) result ≡ file_named (map string_bytes args.now) }
{
    match args {
        [word, name, how] => {
            if word.as_str() == "listen" && how.as_str() == "shared" {
                Some(name.as_str())
            } else {
                None
            }
        }
        _ => None,
    }
}

/// Serves the visitors at the address of the file of this name.
#[tactic(auto, using(td_shared_sessions::specs::JobSourceLaws::hands_none))]
fn serve_file<
    F: Texts,
    A: Accept,
    G: Gate,
    N: Ended<Visitor<A::S, A::K, A::L, A::W>>,
    R: Threads + Wait + Sync,
>(
    rt: &R,
    alloc: Global,
    name: &str,
    files: &mut F,
    accept: &mut A,
    gate: &G,
    ended: &mut N,
) -> Listened
    ensures serves { ServesFile
        (λ v. outside (A.S.left v.source) (A.S.faults v.source) (A.K.written v.sink)
        (A.K.faults v.sink)) (λ v. A.W.word_after v.words)
        (shelves (F.content files.old) (F.faults files.old) (F.faults files.new)) name.now result
        (front (A.content accept.old) (A.faults accept.old) (N.content ended.old))
        (front (A.content accept.new) (A.faults accept.new) (N.content ended.new)) }
    ensures texts { F.faults files.old ≤ F.faults files.new }
    ensures later { A.faults accept.old ≤ A.faults accept.new }
{
    match files.text(alloc, name) {
        Ok(text) => serve_text(rt, alloc, text.as_slice(), accept, gate, ended),
        Err(TextFault::Failed) => Listened::Missing,
        Err(TextFault::TooLong) => Listened::TooLong,
        Err(TextFault::Memory) => Listened::Memory,
    }
}

/// Serves the visitors at the address of this text of a file.
#[tactic(auto, using(td_shared_sessions::specs::JobSourceLaws::hands_none))]
fn serve_text<
    A: Accept,
    G: Gate,
    N: Ended<Visitor<A::S, A::K, A::L, A::W>>,
    R: Threads + Wait + Sync,
>(rt: &R, alloc: Global, text: &[u8], accept: &mut A, gate: &G, ended: &mut N) -> Listened
    requires { length text.now ≤ 67108864 }
    ensures serves { ServesText
        (λ v. outside (A.S.left v.source) (A.S.faults v.source) (A.K.written v.sink)
        (A.K.faults v.sink)) (λ v. A.W.word_after v.words) text.now result
        (front (A.content accept.old) (A.faults accept.old) (N.content ended.old))
        (front (A.content accept.new) (A.faults accept.new) (N.content ended.new)) }
    ensures later { A.faults accept.old ≤ A.faults accept.new }
{
    match read_file(alloc, text) {
        Ok(opened) => serve_opening(rt, alloc, opened, accept, gate, ended),
        Err(FileFault::Line(number, cause)) => Listened::Refused(number, cause),
        Err(FileFault::Memory) => Listened::Memory,
    }
}

/// Serves the visitors at this address with these traders.
fn serve_opening<
    A: Accept,
    G: Gate,
    N: Ended<Visitor<A::S, A::K, A::L, A::W>>,
    R: Threads + Wait + Sync,
>(rt: &R, alloc: Global, opened: Opened, accept: &mut A, gate: &G, ended: &mut N) -> Listened
    requires address { IsAddress opened.home }
    requires seed { length opened.seed ≡ 32 }
    ensures serves { ServesOpening
        (λ v. outside (A.S.left v.source) (A.S.faults v.source) (A.K.written v.sink)
        (A.K.faults v.sink)) (λ v. A.W.word_after v.words)
        (seen opened) result (front (A.content accept.old) (A.faults accept.old)
        (N.content ended.old))
        (front (A.content accept.new) (A.faults accept.new) (N.content ended.new)) }
    ensures later { A.faults accept.old ≤ A.faults accept.new }
{
    let Opened { home, seed, solo } = opened;
    let stop = serve_sharing(rt, alloc, &home, &seed, solo, accept, gate, ended);
    drop(home);
    drop(seed);
    match stop {
        Ok(()) => Listened::Over,
        Err(Stop::Failed) => Listened::Unaccepted,
        Err(Stop::Memory) => Listened::Memory,
    }
}
