//! A network of traders.

ghost use Rattle.std.specs.Prelude.{◌≡◌, length, slice_get, Some, None, option_copied, false};
ghost use Rattle.td_net.specs.Supplies.{without_zeros};
ghost use Rattle.td_net.specs.Worlds.{OnAs, TakenAs, start, state_at, state_in, step_of, visit_at, visit_in};
ghost use Rattle.td_net.specs.Worlds.{wants, world_of};

use crate::beginning::{ask, change, deliver};
use crate::call::{Call, Stage};
use crate::event::{CallState, Event, NetFault};
use crate::group::Group;
use crate::placing::Visits;
use crate::resuming::{answer, lose, value};
use crate::supply::Supply;
use std::alloc::Global;
use std::marker::Model;
use td_cdr::List;
use td_trader::Trader;
use td_walk::{Address, Visit};

/// A network of traders that send queries to one another. Each of its steps is a call of a trader or of a visit; which
/// event comes next is for its owner to say.
#[derive(Drop)]
pub struct Net {
    alloc: Global,
    group: Group,
    visits: Visits,
    clock: u64,
    no_memory_outcome: bool,
}

impl Model for Net {
    ghost use Rattle.td_net.specs.Storing.{world_code};
    ghost use Rattle.td_net.specs.Worlds.{World};
    ghost use Rattle.td_net.specs.contracts.call.Call as call;
    ghost use Rattle.td_trader.specs.contracts.trader.Trader as trader;
    ghost use Rattle.td_walk.specs.contracts.trace.Address as address;

    ghost Value = { World };

    ghost coded = { world_code trader.the_row.coded address.the_row.coded call.the_row.coded };

    ghost view = { λ n. record {
      traders = n.group.traders.items;
      home = n.group.home;
      calls = n.visits.calls.items;
      clock = n.clock;
      words = n.visits.words.all;
      drawn = n.visits.words.drawn;
      no_memory_outcome = n.no_memory_outcome;
    } };
}

impl Net {
    /// A network of these traders, to which no event has come. A target is of the network where its profile has the
    /// host and port of `home`. Answers that are ranked at random draw these words in the order in which they are
    /// made, and then 0 for ever.
    pub fn new(alloc: Global, traders: List<Trader>, home: Address, words: List<u64>) -> Net
        ensures { result ≡ start traders home (without_zeros words) }
    {
        Net {
            alloc,
            group: Group {
                traders: traders.into_vec(),
                home,
            },
            visits: Visits {
                calls: Vec::new(alloc),
                words: Supply::new(words),
            },
            clock: 0,
            no_memory_outcome: false,
        }
    }

    /// Takes an event.
    ///
    /// # Errors
    ///
    /// `NoTrader` and `NoCall` exactly for a number that isn't there, `WrongState` exactly where the call isn't in the
    /// state that the event needs; nothing is changed then. `Memory` when out of memory: the traders are as before the
    /// event or as behind it, and calls that had ended stay so. Every further event is answered `Memory`, and changes
    /// nothing.
    pub fn on(&mut self, event: Event) -> Result<(), NetFault>
        ensures { OnAs self.old event result self.new }
    {
        if self.no_memory_outcome {
            return Err(NetFault::Memory);
        }
        let Net {
            alloc,
            group,
            visits,
            clock,
            no_memory_outcome,
        } = self;
        let taken = take_event(*alloc, clock, group, visits, event);
        *no_memory_outcome = wants(&taken);
        taken
    }

    /// What a call has ended with. Takes no memory.
    pub fn answer(&self, call: usize) -> Option<&Visit>
        ensures { option_copied result ≡ visit_at self.now.calls call }
    {
        visit_of(self.visits.calls.get(call)?)
    }

    /// The trader of a number. Takes no memory.
    pub fn trader(&self, trader: usize) -> Option<&Trader>
        ensures { option_copied result ≡ slice_get self.now.traders trader }
    {
        self.group.traders.get(trader)
    }

    /// How many calls were opened. Takes no memory.
    pub fn calls(&self) -> usize
        ensures { result ≡ length self.now.calls }
    {
        self.visits.calls.len()
    }

    /// Where a call stands. Takes no memory.
    pub fn state(&self, call: usize) -> Option<CallState>
        ensures { result ≡ state_at self.now.calls call }
    {
        match self.visits.calls.get(call) {
            None => None,
            Some(call) => Some(state_of(&call.stage)),
        }
    }
}

/// Takes an event, where none ran out of memory before.
fn take_event(
    alloc: Global,
    clock: &mut u64,
    group: &mut Group,
    visits: &mut Visits,
    event: Event,
) -> Result<(), NetFault>
    ensures { TakenAs (world_of group.old visits.old clock.old)
        (step_of (world_of group.old visits.old clock.old) event) result
        (world_of group.new visits.new clock.new) }
{
    match event {
        Event::Change {
            trader,
            change: wanted,
        } => change(group, trader, wanted),
        Event::Ask { trader, query } => ask(alloc, clock, group, visits, trader, query),
        Event::Deliver { call } => deliver(alloc, clock, group, visits, call),
        Event::Value { call, value: given } => value(alloc, group, visits, call, given),
        Event::Answer { call } => answer(alloc, group, visits, call),
        Event::Lose { call } => lose(alloc, group, visits, call),
    }
}

/// Whether an event ran out of memory.
fn wants(taken: &Result<(), NetFault>) -> bool
    ensures { result ≡ wants taken.now }
{
    matches!(taken, Err(NetFault::Memory))
}

fn visit_of(call: &Call) -> Option<&Visit>
    ensures { option_copied result ≡ visit_in call.now.stage }
{
    match &call.stage {
        Stage::Ended(visit) => Some(visit.get()),
        _ => None,
    }
}

fn state_of(stage: &Stage) -> CallState
    ensures { result ≡ state_in stage.now }
{
    match stage {
        Stage::Sent => CallState::Sent,
        Stage::Running => CallState::Running,
        Stage::Evaluating(_) => CallState::Evaluating,
        Stage::Waiting(_, sub) => CallState::Waiting(*sub),
        Stage::Ended(_) => CallState::Ended,
    }
}
