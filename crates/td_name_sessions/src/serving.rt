//! The sessions of all visitors over naming contexts.

ghost use Rattle.std.specs.Prelude.{◌≡◌, ◌≤◌, [], length, true, IfErr, IfOk, OnErr, OnOk};
ghost use Rattle.td_cell.specs.Passes.{knowledge, opened_book};
ghost use Rattle.td_cell.specs.Rules.{all_met};
ghost use Rattle.td_name_sessions.specs.Sessions.{HandsSome};
ghost use Rattle.td_name_sessions.specs.Whole.{HandsOn, ServesSessions, ServesFrom, Whole};
ghost use Rattle.td_server.specs.Sessions.{StopsSo};
ghost use Rattle.td_shared_names.specs.Seeing.{seen_by, view_of};
ghost use Rattle.td_shared_names.specs.Sharing.{IsOpeningOf};
ghost use Rattle.td_stream.specs.Outside.{outside};

use crate::ended::Ended;
use crate::service::NameService;
use std::alloc::Global;
use std::sync::Wait;
use std::thread::Threads;
use td_accept::{Accept, Gate, Visitor};
use td_cdr::{Memory, Octets};
use td_cell::Pass;
use td_naming::Naming;
use td_server::serve_all;
use td_shared_names::{NameBook, SharedNames};
use td_workers::Stop;

/// Binds an acceptor to the address where the naming contexts are reached, and serves each visitor that it gives, on a
/// thread of its own as long as fewer than 64 are served so, until none is left. Session `n`, counted from 1, is served
/// between the two calls of the gate with this number. Each session that has ended is handed on with its visitor, and
/// after the last one the contexts are.
///
/// # Errors
///
/// - `Failed` only where the acceptor's count of faults rose.
/// - `Memory` when out of memory.
///
/// Some sessions may have been handed on before, but no contexts.
#[tactic(auto, using(crate::specs::JobSourceLaws::hands_none))]
pub fn serve_naming<
    A: Accept,
    G: Gate,
    N: Ended<Visitor<A::S, A::K, A::L, A::W>>,
    R: Threads + Wait + Sync,
>(
    rt: &R,
    alloc: Global,
    contexts: Naming,
    accept: &mut A,
    gate: &G,
    ended: &mut N,
) -> Result<(), Stop>
    ensures serves { OnOk result (ServesSessions
        (λ v. outside (A.S.left v.source) (A.S.faults v.source) (A.K.written v.sink)
        (A.K.faults v.sink)) (λ v. A.W.word_after v.words) contexts (A.content accept.old)
        (N.content ended.old) (A.content accept.new) (N.content ended.new)) }
    ensures handed { OnErr result (HandsSome (N.content ended.old) (N.content ended.new)) }
    ensures later { A.faults accept.old ≤ A.faults accept.new }
    ensures stops { IfErr result (λ why. StopsSo why (A.faults accept.old) (A.faults accept.new)) }
{
    let home = contexts.home();
    match accept.bind(home.host.as_slice(), home.port) {
        Ok(()) => serve_bound(rt, alloc, contexts, accept, gate, ended),
        Err(_) => {
            drop(contexts);
            Err(Stop::Failed)
        }
    }
}

/// The same where the acceptor was bound.
#[tactic(auto, using(crate::specs::JobSourceLaws::hands_none))]
fn serve_bound<
    A: Accept,
    G: Gate,
    N: Ended<Visitor<A::S, A::K, A::L, A::W>>,
    R: Threads + Wait + Sync,
>(
    rt: &R,
    alloc: Global,
    contexts: Naming,
    accept: &mut A,
    gate: &G,
    ended: &mut N,
) -> Result<(), Stop>
    requires bound { A.bound accept.old ≡ true }
    ensures serves { OnOk result (ServesFrom
        (λ v. outside (A.S.left v.source) (A.S.faults v.source) (A.K.written v.sink)
        (A.K.faults v.sink)) (λ v. A.W.word_after v.words) contexts (view_of contexts [])
        (A.content accept.old) (N.content ended.old) (A.content accept.new) (N.content ended.new)) }
    ensures handed { OnErr result (HandsSome (N.content ended.old) (N.content ended.new)) }
    ensures later { A.faults accept.old ≤ A.faults accept.new }
    ensures stops { IfErr result (λ why. StopsSo why (A.faults accept.old) (A.faults accept.new)) }
{
    match open_names(alloc, contexts) {
        Ok((seed, names, pass)) => {
            serve_opened(rt, alloc, &seed, names, pass, accept, gate, ended)
        }
        Err(_) => Err(Stop::Memory),
    }
}

/// Opens naming contexts, of which no session goes on, beside a seed. No session of naming contexts draws random words.
fn open_names(
    alloc: Global,
    contexts: Naming,
) -> Result<(Octets, SharedNames, Pass<NameBook>), Memory>
    ensures seed { IfOk result (λ r. length r.0 ≡ 32) }
    ensures opening { IfOk result (λ r. IsOpeningOf r.1.cell r.2) }
    ensures met { IfOk result (λ r. all_met (knowledge r.2).met ≡ true) }
    ensures opened { IfOk result (λ r. opened_book r.1.cell ≡ contexts) }
    ensures seen { IfOk result (λ r. seen_by r.2 ≡ view_of contexts []) }
{
    match zeros(alloc) {
        Ok(seed) => open_with(alloc, seed, contexts),
        Err(memory) => {
            drop(contexts);
            Err(memory)
        }
    }
}

/// The same with this seed.
fn open_with(
    alloc: Global,
    seed: Octets,
    contexts: Naming,
) -> Result<(Octets, SharedNames, Pass<NameBook>), Memory>
    requires { length seed ≡ 32 }
    ensures seed { IfOk result (λ r. length r.0 ≡ 32) }
    ensures opening { IfOk result (λ r. IsOpeningOf r.1.cell r.2) }
    ensures met { IfOk result (λ r. all_met (knowledge r.2).met ≡ true) }
    ensures opened { IfOk result (λ r. opened_book r.1.cell ≡ contexts) }
    ensures seen { IfOk result (λ r. seen_by r.2 ≡ view_of contexts []) }
{
    match SharedNames::open(alloc, contexts) {
        Ok((names, pass)) => Ok((seed, names, pass)),
        Err(memory) => {
            drop(seed);
            Err(memory)
        }
    }
}

/// 32 zeros.
fn zeros(alloc: Global) -> Result<Octets, Memory>
    ensures { IfOk result (λ seed. length seed ≡ 32) }
{
    Octets::from_slice(alloc, &[0; 32])
}

/// The same over contexts that were opened, and of which no session goes on.
fn serve_opened<
    A: Accept,
    G: Gate,
    N: Ended<Visitor<A::S, A::K, A::L, A::W>>,
    R: Threads + Wait + Sync,
>(
    rt: &R,
    alloc: Global,
    seed: &Octets,
    names: SharedNames,
    pass: Pass<NameBook>,
    accept: &mut A,
    gate: &G,
    ended: &mut N,
) -> Result<(), Stop>
    requires opening { IsOpeningOf names.cell pass }
    requires met { all_met (knowledge pass).met ≡ true }
    requires bound { A.bound accept.old ≡ true }
    requires seed { length seed.now ≡ 32 }
    ensures serves { OnOk result (ServesFrom
        (λ v. outside (A.S.left v.source) (A.S.faults v.source) (A.K.written v.sink)
        (A.K.faults v.sink)) (λ v. A.W.word_after v.words) (opened_book names.cell) (seen_by pass)
        (A.content accept.old) (N.content ended.old) (A.content accept.new) (N.content ended.new)) }
    ensures handed { OnErr result (HandsSome (N.content ended.old) (N.content ended.new)) }
    ensures later { A.faults accept.old ≤ A.faults accept.new }
    ensures stops { IfErr result (λ why. StopsSo why (A.faults accept.old) (A.faults accept.new)) }
{
    let service = NameService {
        rt,
        alloc,
        names: &names,
        ended,
        pass,
    };
    let (stop, back) = serve_visitors(rt, alloc, seed, accept, gate, service);
    let NameService { ended, pass, .. } = back;
    match stop {
        Ok(()) => {
            hand_on(names, pass, ended);
            Ok(())
        }
        Err(why) => {
            drop(pass);
            drop(names);
            Err(why)
        }
    }
}

/// Serves each visitor until none is left.
fn serve_visitors<
    'e,
    'g,
    A: Accept,
    G: Gate,
    N: Ended<Visitor<A::S, A::K, A::L, A::W>>,
    R: Threads + Wait + Sync,
>(
    rt: &R,
    alloc: Global,
    seed: &Octets,
    accept: &mut A,
    gate: &G,
    service: NameService<'e, 'g, N, R>,
) -> (Result<(), Stop>, NameService<'e, 'g, N, R>)
    requires opening { IsOpeningOf service.names.now.cell service.pass }
    requires met { all_met (knowledge service.pass).met ≡ true }
    requires bound { A.bound accept.old ≡ true }
    requires seed { length seed.now ≡ 32 }
    ensures same_ended { result.1.ended.ghost_name ≡ service.entry.ended.ghost_name }
    ensures opening { OnOk result.0 (IsOpeningOf service.entry.names.now.cell result.1.pass) }
    ensures met { OnOk result.0 (all_met (knowledge result.1.pass).met ≡ true) }
    ensures whole { OnOk result.0 (Whole
        (λ v. outside (A.S.left v.source) (A.S.faults v.source) (A.K.written v.sink)
        (A.K.faults v.sink)) (λ v. A.W.word_after v.words) (record {
          given = tt;
          seed = seed.now;
          door = A.content accept.old;
          content = N.content service.entry.ended.now;
          world = seen_by service.entry.pass;
        })
        (record {
          given = tt;
          seed = seed.now;
          door = A.content accept.new;
          content = N.content result.1.ended.now;
          world = seen_by result.1.pass;
        })) }
    ensures handed { HandsSome (N.content service.entry.ended.now) (N.content result.1.ended.now) }
    ensures later { A.faults accept.old ≤ A.faults accept.new }
    ensures stops { IfErr result.0 (λ why. StopsSo why (A.faults accept.old)
        (A.faults accept.new)) }
{
    serve_all(rt, alloc, seed, accept, gate, service)
}

/// Takes the contexts out, all of whose sessions have ended, and hands them on.
fn hand_on<V, N: Ended<V>>(names: SharedNames, pass: Pass<NameBook>, ended: &mut N)
    requires opening { IsOpeningOf names.cell pass }
    requires met { all_met (knowledge pass).met ≡ true }
    ensures { HandsOn (opened_book names.cell) (seen_by pass) (N.content ended.old)
        (N.content ended.new) }
{
    match names.close(pass) {
        Ok(contexts) => ended.naming(contexts),
        Err(_) => unreachable!(),
    }
}
