//! The sessions of all visitors over a group of traders and a desk of iterators.

ghost use Rattle.std.specs.Prelude.{◌≡◌, ◌≤◌, length, map, true, IfErr, IfOk, OnErr, OnOk};
ghost use Rattle.td_cell.specs.Passes.{knowledge, opened_book};
ghost use Rattle.td_group.specs.Grouping.{AreOpening, are_met};
ghost use Rattle.td_group.specs.Seeing.{seen_by};
ghost use Rattle.td_objects.specs.References.{IsAddress};
ghost use Rattle.td_server.specs.Sessions.{StopsSo};
ghost use Rattle.td_sessions.specs.Whole.{opened_views};
ghost use Rattle.td_shared.specs.DeskSeen.{desk_seen};
ghost use Rattle.td_shared_sessions.specs.Desks.{OpensDesk};
ghost use Rattle.td_shared_sessions.specs.Sessions.{HandsSome, shared_world};
ghost use Rattle.td_shared_sessions.specs.Whole.{HandsOn, ServesSessions, ServesFrom, Whole, new_desk, opened_world};
ghost use Rattle.td_stream.specs.Outside.{outside};

use crate::ended::Ended;
use crate::service::SharedService;
use std::alloc::Global;
use std::sync::Wait;
use std::thread::Threads;
use td_accept::{Accept, Gate, Visitor};
use td_cdr::{Memory, Octets};
use td_cell::Pass;
use td_desk::{DeskPass, SharedDesk};
use td_group::{Group, SharedTrader};
use td_server::serve_all;
use td_trader::Solo;
use td_walk::Address;
use td_workers::Stop;

/// Binds an acceptor to the address where the traders are reached, and serves each visitor that it gives, on a thread
/// of its own as long as fewer than 64 are served so, until none is left. An iterator that one session has made is live
/// in every other. Session `n`, counted from 1, is served between the two calls of the gate with this number, with the
/// random words that come after a seeding with the seed and stream `n`. Each session that has ended is handed on with
/// its visitor, and after the last one the traders are.
///
/// # Errors
///
/// - `Failed` only where the acceptor's count of faults rose.
/// - `Memory` when out of memory.
///
/// Some sessions may have been handed on before, but no traders.
#[tactic(auto, using(crate::specs::JobSourceLaws::hands_none))]
pub fn serve_sharing<
    A: Accept,
    G: Gate,
    N: Ended<Visitor<A::S, A::K, A::L, A::W>>,
    R: Threads + Wait + Sync,
>(
    rt: &R,
    alloc: Global,
    home: &Address,
    seed: &Octets,
    solo: Solo,
    accept: &mut A,
    gate: &G,
    ended: &mut N,
) -> Result<(), Stop>
    requires address { IsAddress home.now }
    requires seed { length seed.now ≡ 32 }
    ensures serves { OnOk result (ServesSessions
        (λ v. outside (A.S.left v.source) (A.S.faults v.source) (A.K.written v.sink)
        (A.K.faults v.sink)) (λ v. A.W.word_after v.words) home.now seed.now solo.traders.items
        (A.content accept.old) (N.content ended.old) (A.content accept.new) (N.content ended.new)) }
    ensures handed { OnErr result (HandsSome (N.content ended.old) (N.content ended.new)) }
    ensures later { A.faults accept.old ≤ A.faults accept.new }
    ensures stops { IfErr result (λ why. StopsSo why (A.faults accept.old) (A.faults accept.new)) }
{
    match accept.bind(home.host.as_slice(), home.port) {
        Ok(()) => serve_bound(rt, alloc, home, seed, solo, accept, gate, ended),
        Err(_) => {
            drop(solo);
            Err(Stop::Failed)
        }
    }
}

/// The same where the acceptor was bound.
#[tactic(auto, using(crate::specs::JobSourceLaws::hands_none))]
fn serve_bound<
    A: Accept,
    G: Gate,
    N: Ended<Visitor<A::S, A::K, A::L, A::W>>,
    R: Threads + Wait + Sync,
>(
    rt: &R,
    alloc: Global,
    home: &Address,
    seed: &Octets,
    solo: Solo,
    accept: &mut A,
    gate: &G,
    ended: &mut N,
) -> Result<(), Stop>
    requires bound { A.bound accept.old ≡ true }
    requires address { IsAddress home.now }
    requires seed { length seed.now ≡ 32 }
    ensures serves { OnOk result (ServesFrom
        (λ v. outside (A.S.left v.source) (A.S.faults v.source) (A.K.written v.sink)
        (A.K.faults v.sink)) (λ v. A.W.word_after v.words) solo.traders.items (record {
          given = home.now;
          seed = seed.now;
          door = A.content accept.old;
          content = N.content ended.old;
          world = opened_world solo.traders.items;
        })
        (A.content accept.new) (N.content ended.new)) }
    ensures handed { OnErr result (HandsSome (N.content ended.old) (N.content ended.new)) }
    ensures later { A.faults accept.old ≤ A.faults accept.new }
    ensures stops { IfErr result (λ why. StopsSo why (A.faults accept.old) (A.faults accept.new)) }
{
    match open_shared(alloc, solo) {
        Ok(shared) => serve_opened(rt, alloc, home, seed, shared, accept, gate, ended),
        Err(_) => Err(Stop::Memory),
    }
}

/// A group of traders and a desk, of which no session goes on, with their opening passes.
#[derive(Drop)]
struct Shared {
    group: Group,
    passes: Vec<Pass<SharedTrader>>,
    desk: SharedDesk,
    desk_pass: DeskPass,
}

/// Opens a group of traders and a desk.
fn open_shared(alloc: Global, solo: Solo) -> Result<Shared, Memory>
    ensures opening { IfOk result (λ s. AreOpening s.group.cells.items s.passes.items) }
    ensures met { IfOk result (λ s. are_met s.passes.items ≡ true) }
    ensures opened { IfOk result (λ s. map opened_book s.group.cells.items ≡ solo.traders.items) }
    ensures seen { IfOk result (λ s. map seen_by s.passes.items ≡ opened_views solo.traders.items) }
    ensures desk { IfOk result (λ s. OpensDesk s.desk.cell s.desk_pass) }
    ensures new { IfOk result (λ s. desk_seen (knowledge s.desk_pass) ≡ new_desk) }
{
    match SharedDesk::open(alloc) {
        Ok((desk, desk_pass)) => open_with(alloc, solo, desk, desk_pass),
        Err(memory) => {
            drop(solo);
            Err(memory)
        }
    }
}

/// The same beside this desk.
fn open_with(
    alloc: Global,
    solo: Solo,
    desk: SharedDesk,
    desk_pass: DeskPass,
) -> Result<Shared, Memory>
    requires desk { OpensDesk desk.cell desk_pass }
    requires new { desk_seen (knowledge desk_pass) ≡ new_desk }
    ensures opening { IfOk result (λ s. AreOpening s.group.cells.items s.passes.items) }
    ensures met { IfOk result (λ s. are_met s.passes.items ≡ true) }
    ensures opened { IfOk result (λ s. map opened_book s.group.cells.items ≡ solo.traders.items) }
    ensures seen { IfOk result (λ s. map seen_by s.passes.items ≡ opened_views solo.traders.items) }
    ensures desk { IfOk result (λ s. OpensDesk s.desk.cell s.desk_pass) }
    ensures new { IfOk result (λ s. desk_seen (knowledge s.desk_pass) ≡ new_desk) }
{
    match Group::open(alloc, solo) {
        Ok((group, passes)) => Ok(Shared {
            group,
            passes,
            desk,
            desk_pass,
        }),
        Err(memory) => {
            drop(desk);
            drop(desk_pass);
            Err(memory)
        }
    }
}

/// The same over what was opened.
fn serve_opened<
    A: Accept,
    G: Gate,
    N: Ended<Visitor<A::S, A::K, A::L, A::W>>,
    R: Threads + Wait + Sync,
>(
    rt: &R,
    alloc: Global,
    home: &Address,
    seed: &Octets,
    shared: Shared,
    accept: &mut A,
    gate: &G,
    ended: &mut N,
) -> Result<(), Stop>
    requires opening { AreOpening shared.group.cells.items shared.passes.items }
    requires met { are_met shared.passes.items ≡ true }
    requires desk { OpensDesk shared.desk.cell shared.desk_pass }
    requires bound { A.bound accept.old ≡ true }
    requires address { IsAddress home.now }
    requires seed { length seed.now ≡ 32 }
    ensures serves { OnOk result (ServesFrom
        (λ v. outside (A.S.left v.source) (A.S.faults v.source) (A.K.written v.sink)
        (A.K.faults v.sink)) (λ v. A.W.word_after v.words)
        (map opened_book shared.group.cells.items)
        (record {
          given = home.now;
          seed = seed.now;
          door = A.content accept.old;
          content = N.content ended.old;
          world = shared_world (map seen_by shared.passes.items)
              (desk_seen (knowledge shared.desk_pass));
        })
        (A.content accept.new) (N.content ended.new)) }
    ensures handed { OnErr result (HandsSome (N.content ended.old) (N.content ended.new)) }
    ensures later { A.faults accept.old ≤ A.faults accept.new }
    ensures stops { IfErr result (λ why. StopsSo why (A.faults accept.old) (A.faults accept.new)) }
{
    let Shared {
        group,
        passes,
        desk,
        desk_pass,
    } = shared;
    let service = SharedService {
        rt,
        alloc,
        group: &group,
        desk: &desk,
        home,
        ended,
        passes,
        desk_pass,
    };
    let (stop, back) = serve_visitors(rt, alloc, seed, accept, gate, service);
    let SharedService {
        ended,
        passes,
        desk_pass,
        ..
    } = back;
    drop(desk_pass);
    drop(desk);
    match stop {
        Ok(()) => {
            hand_on(group, passes, ended);
            Ok(())
        }
        Err(why) => {
            drop(passes);
            drop(group);
            Err(why)
        }
    }
}

/// Serves each visitor until none is left.
fn serve_visitors<
    'e,
    'g,
    A: Accept,
    G: Gate,
    N: Ended<Visitor<A::S, A::K, A::L, A::W>>,
    R: Threads + Wait + Sync,
>(
    rt: &R,
    alloc: Global,
    seed: &Octets,
    accept: &mut A,
    gate: &G,
    service: SharedService<'e, 'g, N, R>,
) -> (Result<(), Stop>, SharedService<'e, 'g, N, R>)
    requires opening { AreOpening service.group.now.cells.items service.passes.items }
    requires met { are_met service.passes.items ≡ true }
    requires desk { OpensDesk service.desk.now.cell service.desk_pass }
    requires bound { A.bound accept.old ≡ true }
    requires address { IsAddress service.home.now }
    requires seed { length seed.now ≡ 32 }
    ensures same_ended { result.1.ended.ghost_name ≡ service.entry.ended.ghost_name }
    ensures opening { OnOk result.0
        (AreOpening service.entry.group.now.cells.items result.1.passes.items) }
    ensures met { OnOk result.0 (are_met result.1.passes.items ≡ true) }
    ensures whole { OnOk result.0 (Whole
        (λ v. outside (A.S.left v.source) (A.S.faults v.source) (A.K.written v.sink)
        (A.K.faults v.sink)) (λ v. A.W.word_after v.words) (record {
          given = service.entry.home.now;
          seed = seed.now;
          door = A.content accept.old;
          content = N.content service.entry.ended.now;
          world = shared_world (map seen_by service.entry.passes.items)
              (desk_seen (knowledge service.entry.desk_pass));
        })
        (record {
          given = service.entry.home.now;
          seed = seed.now;
          door = A.content accept.new;
          content = N.content result.1.ended.now;
          world = shared_world (map seen_by result.1.passes.items)
              (desk_seen (knowledge result.1.desk_pass));
        })) }
    ensures handed { HandsSome (N.content service.entry.ended.now) (N.content result.1.ended.now) }
    ensures later { A.faults accept.old ≤ A.faults accept.new }
    ensures stops { IfErr result.0 (λ why. StopsSo why (A.faults accept.old)
        (A.faults accept.new)) }
{
    serve_all(rt, alloc, seed, accept, gate, service)
}

/// Takes the traders out of a group all of whose sessions have ended, and hands them on.
fn hand_on<V, N: Ended<V>>(group: Group, passes: Vec<Pass<SharedTrader>>, ended: &mut N)
    requires opening { AreOpening group.cells.items passes.items }
    requires met { are_met passes.items ≡ true }
    ensures { HandsOn (map opened_book group.cells.items) (map seen_by passes.items)
        (N.content ended.old)
        (N.content ended.new) }
{
    match group.close(passes) {
        Ok(solo) => ended.group(solo),
        Err(_) => unreachable!(),
    }
}
