//! A server of new naming contexts at the address that its words name.

ghost use Rattle.std.specs.Prelude.{◌≡◌, ◌≤◌, [], length, map, string_bytes, IfSome};
ghost use Rattle.std.specs.Option.{option_map};
ghost use Rattle.td_cdr.specs.Text.{HasNoNul};
ghost use Rattle.td_name_command.specs.Words.{home};
ghost use Rattle.td_name_listen.specs.Listens.{Listens, Obeys, ServesAt, ServesNew, front, home_of};
ghost use Rattle.td_naming.specs.Histories.{past};
ghost use Rattle.td_stream.specs.Outside.{outside};

use crate::listened::Listened;
use std::alloc::Global;
use std::sync::Wait;
use std::thread::Threads;
use td_accept::{Accept, Gate, Visitor};
use td_name_command::{home_named, new_naming};
use td_name_sessions::{Ended, serve_naming};
use td_naming::Naming;
use td_out::{Sink, write_all};
use td_workers::Stop;

/// Serves the visitors of an acceptor, where the words are `listen names HOST PORT`, with naming contexts of which
/// there is the root alone at first, and whose references have this host and port. HOST has at most 1,000 bytes and no
/// NUL, and PORT is from 0 to 65535 in decimal without leading zeros. The acceptor is bound once, to that address. Each
/// visitor is served on a thread of its own as long as fewer than 64 are served so; a visitor beyond them, or one for
/// whom no thread can be started, is served by the thread that accepts. Session `n`, counted from 1, is served between
/// the two calls of the gate with this number. Each session that has ended is handed on with its visitor, and after the
/// last one the contexts are.
///
/// The status is 0 where no visitor was left, 2 where the words are no such command, 9 when out of memory, and 11 where
/// the acceptor failed. The faults sink gets a line where it isn't 0: `usage` or `status N`; ends of sessions print
/// nothing.
pub fn listen_names<
    A: Accept,
    G: Gate,
    E: Sink,
    N: Ended<Visitor<A::S, A::K, A::L, A::W>>,
    R: Threads + Wait + Sync,
>(
    rt: &R,
    alloc: Global,
    args: &[String],
    accept: &mut A,
    gate: &G,
    faults: &mut E,
    ended: &mut N,
) -> u8
    ensures listens { Listens
        (λ v. outside (A.S.left v.source) (A.S.faults v.source) (A.K.written v.sink)
        (A.K.faults v.sink)) (λ v. A.W.word_after v.words) (map string_bytes args.now)
        (front (A.content accept.old) (A.faults accept.old) (N.content ended.old))
        (front (A.content accept.new) (A.faults accept.new) (N.content ended.new))
        (E.written faults.old)
        (E.written faults.new) (E.faults faults.old) (E.faults faults.new) result }
    ensures later { A.faults accept.old ≤ A.faults accept.new }
{
    let listened = obey(rt, alloc, args, accept, gate, ended);
    let _ = write_all(faults, listened.line());
    listened.status()
}

/// The same without the line.
fn obey<A: Accept, G: Gate, N: Ended<Visitor<A::S, A::K, A::L, A::W>>, R: Threads + Wait + Sync>(
    rt: &R,
    alloc: Global,
    args: &[String],
    accept: &mut A,
    gate: &G,
    ended: &mut N,
) -> Listened
    ensures obeys { Obeys
        (λ v. outside (A.S.left v.source) (A.S.faults v.source) (A.K.written v.sink)
        (A.K.faults v.sink)) (λ v. A.W.word_after v.words) (home_of (map string_bytes args.now))
        result (front (A.content accept.old) (A.faults accept.old) (N.content ended.old))
        (front (A.content accept.new) (A.faults accept.new) (N.content ended.new)) }
    ensures later { A.faults accept.old ≤ A.faults accept.new }
{
    match home_of(args) {
        Some((host, port)) => serve_at(rt, alloc, host, port, accept, gate, ended),
        None => Listened::Usage,
    }
}

/// The host and the port in the command `listen names HOST PORT`.
fn home_of(args: &[String]) -> Option<(&str, u16)>
    ensures content { option_map (λ h. home h.0.now h.1) result
        ≡ home_of (map string_bytes args.now) }
    ensures plain { IfSome result (λ h. HasNoNul h.0.now) }
    ensures short { IfSome result (λ h. length h.0.now ≤ 1000) }
{
    match args {
        [word, what, host, port] => {
            if word.as_str() == "listen" && what.as_str() == "names" {
                home_named(host.as_str(), port.as_str())
            } else {
                None
            }
        }
        _ => None,
    }
}

/// Serves the visitors at this address.
#[tactic(auto, using(td_name_sessions::specs::JobSourceLaws::hands_none))]
fn serve_at<
    A: Accept,
    G: Gate,
    N: Ended<Visitor<A::S, A::K, A::L, A::W>>,
    R: Threads + Wait + Sync,
>(rt: &R, alloc: Global, host: &str, port: u16, accept: &mut A, gate: &G, ended: &mut N) -> Listened
    requires plain { HasNoNul host.now }
    requires short { length host.now ≤ 1000 }
    ensures serves { ServesAt
        (λ v. outside (A.S.left v.source) (A.S.faults v.source) (A.K.written v.sink)
        (A.K.faults v.sink)) (λ v. A.W.word_after v.words)
        (home host.now port) result (front (A.content accept.old) (A.faults accept.old)
        (N.content ended.old)) (front (A.content accept.new) (A.faults accept.new)
        (N.content ended.new)) }
    ensures later { A.faults accept.old ≤ A.faults accept.new }
{
    match new_naming(alloc, host, port) {
        Ok(contexts) => serve_new(rt, alloc, contexts, accept, gate, ended),
        Err(_) => Listened::Memory,
    }
}

/// Serves the visitors with these contexts, at their address.
fn serve_new<
    A: Accept,
    G: Gate,
    N: Ended<Visitor<A::S, A::K, A::L, A::W>>,
    R: Threads + Wait + Sync,
>(rt: &R, alloc: Global, contexts: Naming, accept: &mut A, gate: &G, ended: &mut N) -> Listened
    ensures serves { ServesNew
        (λ v. outside (A.S.left v.source) (A.S.faults v.source) (A.K.written v.sink)
        (A.K.faults v.sink)) (λ v. A.W.word_after v.words) contexts result
        (front (A.content accept.old) (A.faults accept.old) (N.content ended.old))
        (front (A.content accept.new) (A.faults accept.new) (N.content ended.new)) }
    ensures later { A.faults accept.old ≤ A.faults accept.new }
{
    match serve_naming(rt, alloc, contexts, accept, gate, ended) {
        Ok(()) => Listened::Over,
        Err(Stop::Failed) => Listened::Unaccepted,
        Err(Stop::Memory) => Listened::Memory,
    }
}
