//! The sessions of all visitors over a group of traders.

ghost use Rattle.std.specs.Prelude.{◌≡◌, ◌≤◌, length, map, true, IfErr, IfOk, OnErr, OnOk};
ghost use Rattle.td_cell.specs.Passes.{opened_book};
ghost use Rattle.td_group.specs.Grouping.{AreOpening, are_met};
ghost use Rattle.td_group.specs.Seeing.{seen_by};
ghost use Rattle.td_objects.specs.References.{IsAddress};
ghost use Rattle.td_stream.specs.Outside.{outside};
ghost use Rattle.td_server.specs.Sessions.{StopsSo};
ghost use Rattle.td_sessions.specs.Sessions.{HandsSome};
ghost use Rattle.td_sessions.specs.Whole.{HandsOn, ServesSessions, ServesFrom, Whole, opened_views};

use crate::ended::Ended;
use crate::service::TraderService;
use std::alloc::Global;
use std::sync::Wait;
use std::thread::Threads;
use td_accept::{Accept, Gate, Visitor};
use td_cdr::{Memory, Octets};
use td_cell::Pass;
use td_group::{Group, SharedTrader};
use td_server::serve_all;
use td_trader::Solo;
use td_walk::Address;
use td_workers::Stop;

/// Binds an acceptor to the address where the traders are reached, and serves each visitor that it gives, on a thread
/// of its own as long as fewer than 64 are served so, until none is left. Session `n`, counted from 1, is served
/// between the two calls of the gate with this number, with the random words that come after a seeding with the seed
/// and stream `n`. Each session that has ended is handed on with its visitor, and after the last one the traders are.
///
/// # Errors
///
/// - `Failed` only where the acceptor's count of faults rose.
/// - `Memory` when out of memory.
///
/// Some sessions may have been handed on before, but no traders.
#[tactic(auto, using(crate::specs::JobSourceLaws::hands_none))]
pub fn serve_group<
    A: Accept,
    G: Gate,
    N: Ended<Visitor<A::S, A::K, A::L, A::W>>,
    R: Threads + Wait + Sync,
>(
    rt: &R,
    alloc: Global,
    home: &Address,
    seed: &Octets,
    solo: Solo,
    accept: &mut A,
    gate: &G,
    ended: &mut N,
) -> Result<(), Stop>
    requires address { IsAddress home.now }
    requires seed { length seed.now ≡ 32 }
    ensures serves { OnOk result (ServesSessions
        (λ v. outside (A.S.left v.source) (A.S.faults v.source) (A.K.written v.sink)
        (A.K.faults v.sink)) (λ v. A.W.word_after v.words) home.now seed.now solo.traders.items
        (A.content accept.old) (N.content ended.old) (A.content accept.new) (N.content ended.new)) }
    ensures handed { OnErr result (HandsSome (N.content ended.old) (N.content ended.new)) }
    ensures later { A.faults accept.old ≤ A.faults accept.new }
    ensures stops { IfErr result (λ why. StopsSo why (A.faults accept.old) (A.faults accept.new)) }
{
    match accept.bind(home.host.as_slice(), home.port) {
        Ok(()) => serve_bound(rt, alloc, home, seed, solo, accept, gate, ended),
        Err(_) => {
            drop(solo);
            Err(Stop::Failed)
        }
    }
}

/// The same where the acceptor was bound.
#[tactic(auto, using(crate::specs::JobSourceLaws::hands_none))]
fn serve_bound<
    A: Accept,
    G: Gate,
    N: Ended<Visitor<A::S, A::K, A::L, A::W>>,
    R: Threads + Wait + Sync,
>(
    rt: &R,
    alloc: Global,
    home: &Address,
    seed: &Octets,
    solo: Solo,
    accept: &mut A,
    gate: &G,
    ended: &mut N,
) -> Result<(), Stop>
    requires bound { A.bound accept.old ≡ true }
    requires address { IsAddress home.now }
    requires seed { length seed.now ≡ 32 }
    ensures serves { OnOk result (ServesFrom
        (λ v. outside (A.S.left v.source) (A.S.faults v.source) (A.K.written v.sink)
        (A.K.faults v.sink)) (λ v. A.W.word_after v.words) solo.traders.items (record {
          given = home.now;
          seed = seed.now;
          door = A.content accept.old;
          content = N.content ended.old;
          world = opened_views solo.traders.items;
        })
        (A.content accept.new) (N.content ended.new)) }
    ensures handed { OnErr result (HandsSome (N.content ended.old) (N.content ended.new)) }
    ensures later { A.faults accept.old ≤ A.faults accept.new }
    ensures stops { IfErr result (λ why. StopsSo why (A.faults accept.old) (A.faults accept.new)) }
{
    match open_group(alloc, solo) {
        Ok((group, passes)) => serve_opened(
            rt, alloc, home, seed, group, passes, accept, gate, ended,
        ),
        Err(_) => Err(Stop::Memory),
    }
}

/// Opens a group of traders, of which no session goes on.
fn open_group(alloc: Global, solo: Solo) -> Result<(Group, Vec<Pass<SharedTrader>>), Memory>
    ensures opening { IfOk result (λ r. AreOpening r.0.cells.items r.1.items) }
    ensures met { IfOk result (λ r. are_met r.1.items ≡ true) }
    ensures opened { IfOk result (λ r. map opened_book r.0.cells.items ≡ solo.traders.items) }
    ensures seen { IfOk result (λ r. map seen_by r.1.items ≡ opened_views solo.traders.items) }
{
    match Group::open(alloc, solo) {
        Ok(opened) => Ok(opened),
        Err(memory) => Err(memory),
    }
}

/// The same over a group that was opened, and of which no session goes on.
fn serve_opened<
    A: Accept,
    G: Gate,
    N: Ended<Visitor<A::S, A::K, A::L, A::W>>,
    R: Threads + Wait + Sync,
>(
    rt: &R,
    alloc: Global,
    home: &Address,
    seed: &Octets,
    group: Group,
    passes: Vec<Pass<SharedTrader>>,
    accept: &mut A,
    gate: &G,
    ended: &mut N,
) -> Result<(), Stop>
    requires opening { AreOpening group.cells.items passes.items }
    requires met { are_met passes.items ≡ true }
    requires bound { A.bound accept.old ≡ true }
    requires address { IsAddress home.now }
    requires seed { length seed.now ≡ 32 }
    ensures serves { OnOk result (ServesFrom
        (λ v. outside (A.S.left v.source) (A.S.faults v.source) (A.K.written v.sink)
        (A.K.faults v.sink)) (λ v. A.W.word_after v.words) (map opened_book group.cells.items)
        (record {
          given = home.now;
          seed = seed.now;
          door = A.content accept.old;
          content = N.content ended.old;
          world = map seen_by passes.items;
        })
        (A.content accept.new) (N.content ended.new)) }
    ensures handed { OnErr result (HandsSome (N.content ended.old) (N.content ended.new)) }
    ensures later { A.faults accept.old ≤ A.faults accept.new }
    ensures stops { IfErr result (λ why. StopsSo why (A.faults accept.old) (A.faults accept.new)) }
{
    let service = TraderService {
        rt,
        alloc,
        group: &group,
        home,
        ended,
        passes,
    };
    let (stop, back) = serve_visitors(rt, alloc, seed, accept, gate, service);
    let TraderService { ended, passes, .. } = back;
    match stop {
        Ok(()) => {
            hand_on(group, passes, ended);
            Ok(())
        }
        Err(why) => {
            drop(passes);
            drop(group);
            Err(why)
        }
    }
}

/// Serves each visitor until none is left.
fn serve_visitors<
    'e,
    'g,
    A: Accept,
    G: Gate,
    N: Ended<Visitor<A::S, A::K, A::L, A::W>>,
    R: Threads + Wait + Sync,
>(
    rt: &R,
    alloc: Global,
    seed: &Octets,
    accept: &mut A,
    gate: &G,
    service: TraderService<'e, 'g, N, R>,
) -> (Result<(), Stop>, TraderService<'e, 'g, N, R>)
    requires opening { AreOpening service.group.now.cells.items service.passes.items }
    requires met { are_met service.passes.items ≡ true }
    requires bound { A.bound accept.old ≡ true }
    requires address { IsAddress service.home.now }
    requires seed { length seed.now ≡ 32 }
    ensures same_ended { result.1.ended.ghost_name ≡ service.entry.ended.ghost_name }
    ensures opening { OnOk result.0
        (AreOpening service.entry.group.now.cells.items result.1.passes.items) }
    ensures met { OnOk result.0 (are_met result.1.passes.items ≡ true) }
    ensures whole { OnOk result.0 (Whole
        (λ v. outside (A.S.left v.source) (A.S.faults v.source) (A.K.written v.sink)
        (A.K.faults v.sink)) (λ v. A.W.word_after v.words) (record {
          given = service.entry.home.now;
          seed = seed.now;
          door = A.content accept.old;
          content = N.content service.entry.ended.now;
          world = map seen_by service.entry.passes.items;
        })
        (record {
          given = service.entry.home.now;
          seed = seed.now;
          door = A.content accept.new;
          content = N.content result.1.ended.now;
          world = map seen_by result.1.passes.items;
        })) }
    ensures handed { HandsSome (N.content service.entry.ended.now) (N.content result.1.ended.now) }
    ensures later { A.faults accept.old ≤ A.faults accept.new }
    ensures stops { IfErr result.0 (λ why. StopsSo why (A.faults accept.old)
        (A.faults accept.new)) }
{
    serve_all(rt, alloc, seed, accept, gate, service)
}

/// Takes the traders out of a group all of whose sessions have ended, and hands them on.
fn hand_on<V, N: Ended<V>>(group: Group, passes: Vec<Pass<SharedTrader>>, ended: &mut N)
    requires opening { AreOpening group.cells.items passes.items }
    requires met { are_met passes.items ≡ true }
    ensures { HandsOn (map opened_book group.cells.items) (map seen_by passes.items)
        (N.content ended.old)
        (N.content ended.new) }
{
    match group.close(passes) {
        Ok(solo) => ended.group(solo),
        Err(_) => unreachable!(),
    }
}
