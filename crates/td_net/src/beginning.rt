//! How a query begins at a trader of a network, and changes of its traders.

ghost use Rattle.std.specs.Prelude.{◌≡◌, ◌+◌, ◌<◌, [], ◌∷◌, ◌++◌, length, slice_get, Some, None, IfOk, OnOk, OnErr};
ghost use Rattle.td_net.specs.Worlds.{Becomes, DoneAs, HasGroup, HasVisits, IsLeft, TakenAs, World, after, ask_at};
ghost use Rattle.td_net.specs.Worlds.{begun_by, change_at, deliver_at, deliver_to, ended_at_once, goes_on};
ghost use Rattle.td_net.specs.Worlds.{is_sent, sent};
ghost use Rattle.td_net.specs.Worlds.{world_of};
ghost use Rattle.td_net.specs.declared.call.Call.{Call as Opened};
ghost use Rattle.td_net.specs.declared.call.Stage.TheVariants.{Sent};
ghost use Rattle.td_trader.specs.PlainTraders.{PlainTrader, after_change};

use crate::call::{Call, Delivery, Stage, sent_to};
use crate::event::NetFault;
use crate::group::Group;
use crate::placing::{Visits, go_on};
use crate::resuming::nothing;
use std::alloc::Global;
use std::snapshot::Snapshot;
use td_cdr::{Boxed, List, Memory, Shared};
use td_ops::{Change, Query};
use td_store::Local;
use td_trader::{Begin, Trader};
use td_visit::Frame;
use td_walk::Visit;

/// A change comes to a trader.
pub(crate) fn change(
    group: &mut Group,
    trader: usize,
    change: Boxed<Change>,
) -> Result<(), NetFault>
    ensures takes { (w : World) → w.traders ≡ group.old.traders.items
        → TakenAs w (change_at w trader change (slice_get w.traders trader)) result
        (record w { traders = group.new.traders.items }) }
    ensures home { group.new.home ≡ group.old.home }
{
    if trader >= group.traders.len() {
        return Err(NetFault::NoTrader);
    }
    match apply(&mut group.traders[trader], change.into_inner()) {
        Ok(()) => Ok(()),
        Err(Memory) => Err(NetFault::Memory),
    }
}

/// Lets a trader judge a change; what it comes to stands in the trader's history.
fn apply(trader: &mut Trader, change: Change) -> Result<(), Memory>
    ensures ok { OnOk result (trader.new ≡ after_change trader.old change) }
    ensures err { OnErr result (trader.new ≡ trader.old) }
{
    let outcome = trader.change(change)?;
    drop(outcome);
    Ok(())
}

/// A call ends as it comes to its trader.
fn end_at_once(visits: &mut Visits, call: usize, visit: Boxed<Visit>)
    requires { call < length visits.old.calls.items }
    ensures becomes { (k : Opened) (w : World) → slice_get visits.old.calls.items call ≡ Some k
        → HasVisits w visits.old.calls.items visits.old.words
        → Becomes w (ended_at_once w call k visit)
        (after w visits.new.calls.items visits.new.words.drawn) }
    ensures words { visits.new.words ≡ visits.old.words }
{
    let drawn = visits.words.drawn();
    visits.calls[call].end_at_once(visit, drawn);
}

/// A visit begins to ask its questions.
fn open(
    alloc: Global,
    group: &Group,
    visits: &mut Visits,
    call: usize,
    local: Boxed<Local>,
) -> Result<(), Memory>
    requires { call < length visits.old.calls.items }
    ensures becomes { OnOk result ((k : Opened) (w : World) → slice_get visits.old.calls.items call
        ≡ Some k → HasGroup w group.now.traders.items group.now.home
        → HasVisits w visits.old.calls.items visits.old.words
        → Becomes w (goes_on w call k local [] [])
        (after w visits.new.calls.items visits.new.words.drawn)) }
    ensures words { visits.new.words.all ≡ visits.old.words.all }
    ensures kept { OnErr result (visits.new.calls.items ≡ visits.old.calls.items) }
{
    let frame = Frame::new(alloc, local)?;
    go_on(alloc, group, visits, call, frame, List::new(alloc))
}

/// A call goes on as its query began.
fn go_on_from(
    alloc: Global,
    group: &Group,
    visits: &mut Visits,
    call: usize,
    begin: Begin,
) -> Result<(), Memory>
    requires { call < length visits.old.calls.items }
    ensures becomes { OnOk result ((k : Opened) (w : World) → slice_get visits.old.calls.items call
        ≡ Some k → HasGroup w group.now.traders.items group.now.home
        → HasVisits w visits.old.calls.items visits.old.words
        → Becomes w (begun_by w call k begin)
        (after w visits.new.calls.items visits.new.words.drawn)) }
    ensures words { visits.new.words.all ≡ visits.old.words.all }
    ensures kept { OnErr result (visits.new.calls.items ≡ visits.old.calls.items) }
{
    match begin {
        Begin::Refused(outcome) => {
            let visit = Boxed::new(alloc, Visit::Refused(outcome))?;
            end_at_once(visits, call, visit);
            Ok(())
        }
        Begin::Repeat(_) => {
            let answer = nothing(alloc);
            let visit = Boxed::new(
                alloc,
                Visit::Answered {
                    answer,
                    max_list: 0,
                },
            )?;
            end_at_once(visits, call, visit);
            Ok(())
        }
        Begin::Search(local) => open(alloc, group, visits, call, local),
        Begin::Path(local) => open(alloc, group, visits, call, local),
    }
}

/// A call comes to its trader, which begins its query.
fn begin(
    alloc: Global,
    clock: u64,
    group: &mut Group,
    visits: &mut Visits,
    call: usize,
    target: usize,
) -> Result<(), Memory>
    requires call { call < length visits.old.calls.items }
    requires trader { target < length group.old.traders.items }
    ensures begins { (k : Opened) (t : PlainTrader) → slice_get visits.old.calls.items call ≡ Some k
        → k.target ≡ target → slice_get group.old.traders.items target ≡ Some t
        → OnOk result (Becomes (world_of group.old visits.old clock)
        (deliver_to (world_of group.old visits.old clock) call k (Some t))
        (world_of group.new visits.new (clock + 1))) }
    ensures err { (k : Opened) (t : PlainTrader) → slice_get visits.old.calls.items call ≡ Some k
        → k.target ≡ target → k.stage ≡ Sent → slice_get group.old.traders.items target ≡ Some t
        → OnErr result (IsLeft (world_of group.old visits.old clock)
        (deliver_to (world_of group.old visits.old clock) call k (Some t))
        (world_of group.new visits.new clock)) }
{
    let seen = Snapshot::of(&group.traders[target]);
    let begin = group.traders[target].begin(&visits.calls[call].query)?;
    visits.calls[call].deliver(Delivery {
        serial: clock,
        seen,
    });
    go_on_from(alloc, group, visits, call, begin)
}

/// The same, with the count of deliveries.
fn deliver_next(
    alloc: Global,
    clock: &mut u64,
    group: &mut Group,
    visits: &mut Visits,
    call: usize,
    target: usize,
) -> Result<(), NetFault>
    requires call { call < length visits.old.calls.items }
    requires trader { target < length group.old.traders.items }
    ensures { (k : Opened) (t : PlainTrader) → slice_get visits.old.calls.items call ≡ Some k
        → k.target ≡ target → k.stage ≡ Sent → slice_get group.old.traders.items target ≡ Some t
        → DoneAs (world_of group.old visits.old clock.old)
        (deliver_to (world_of group.old visits.old clock.old) call k (Some t)) result
        (world_of group.new visits.new clock.new) }
{
    let Some(next) = clock.checked_add(1) else {
        return Err(NetFault::Memory);
    };
    match begin(alloc, *clock, group, visits, call, target) {
        Ok(()) => {
            *clock = next;
            Ok(())
        }
        Err(Memory) => Err(NetFault::Memory),
    }
}

/// A query is asked of a trader.
pub(crate) fn ask(
    alloc: Global,
    clock: &mut u64,
    group: &mut Group,
    visits: &mut Visits,
    trader: usize,
    query: Shared<Query>,
) -> Result<(), NetFault>
    ensures { TakenAs (world_of group.old visits.old clock.old)
        (ask_at (world_of group.old visits.old clock.old) trader query
        (slice_get group.old.traders.items trader)) result
        (world_of group.new visits.new clock.new) }
{
    if trader >= group.traders.len() {
        return Err(NetFault::NoTrader);
    }
    match open_asked(alloc, &mut visits.calls, trader, query) {
        Ok(call) => deliver_next(alloc, clock, group, visits, call, trader),
        Err(Memory) => Err(NetFault::Memory),
    }
}

/// Opens the call of a query that is asked. It gives its number.
fn open_asked(
    alloc: Global,
    calls: &mut Vec<Call>,
    trader: usize,
    query: Shared<Query>,
) -> Result<usize, Memory>
    ensures number { IfOk result (λ call. call ≡ length calls.old.items) }
    ensures within { IfOk result (λ call. call < length calls.new.items) }
    ensures opened { OnOk result
        (calls.new.items ≡ calls.old.items ++ sent trader query (length calls.old.items) None
        ∷ []) }
    ensures kept { OnErr result (calls.new.items ≡ calls.old.items) }
{
    let call = calls.len();
    calls.push(sent_to(alloc, trader, query, call, None))?;
    Ok(call)
}

fn is_sent(stage: &Stage) -> bool
    ensures { result ≡ is_sent stage.now }
{
    matches!(stage, Stage::Sent)
}

/// A call that was sent comes to its trader.
pub(crate) fn deliver(
    alloc: Global,
    clock: &mut u64,
    group: &mut Group,
    visits: &mut Visits,
    call: usize,
) -> Result<(), NetFault>
    ensures { TakenAs (world_of group.old visits.old clock.old)
        (deliver_at (world_of group.old visits.old clock.old) call
        (slice_get visits.old.calls.items call)) result (world_of group.new visits.new clock.new) }
{
    if call >= visits.calls.len() {
        return Err(NetFault::NoCall);
    }
    if !is_sent(&visits.calls[call].stage) {
        return Err(NetFault::WrongState);
    }
    let target = visits.calls[call].target;
    if target >= group.traders.len() {
        return Err(NetFault::NoTrader);
    }
    deliver_next(alloc, clock, group, visits, call, target)
}
