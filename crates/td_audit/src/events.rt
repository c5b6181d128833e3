//! Events of a log.

ghost use Rattle.std.specs.Prelude.{◌≡◌, ◌++◌, ◌∷◌, [], length, OnOk};
ghost use Rattle.td_audit.specs.Auditing.{asked_as};
ghost use Rattle.td_audit.specs.Events.{HappensAs, IsWithinLimits};
ghost use Rattle.td_net.specs.declared.event.Event.TheVariants as event;

use crate::asked::{AskedQuery, asked_as};
use crate::verdict::{AuditStop, Cause};
use std::alloc::Global;
use td_cdr::{List, Memory, Shared};
use td_log::ReplyForm;
use td_net::{Event, Net, NetFault};
use td_ops::Query;

/// Hands an event to the network.
pub(crate) fn happen(net: &mut Net, event: Event) -> Result<(), AuditStop>
    requires sound { IsWithinLimits net.old }
    ensures happens { HappensAs net.old event result net.new }
    ensures sound { OnOk result (IsWithinLimits net.new) }
{
    match net.on(event) {
        Ok(()) => Ok(()),
        Err(NetFault::NoTrader) => Err(AuditStop::At(Cause::Net(NetFault::NoTrader))),
        Err(NetFault::NoCall) => Err(AuditStop::At(Cause::Net(NetFault::NoCall))),
        Err(NetFault::WrongState) => Err(AuditStop::At(Cause::Net(NetFault::WrongState))),
        Err(NetFault::Memory) => Err(AuditStop::Memory),
    }
}

/// A query is asked, and kept with those that were asked before.
pub(crate) fn ask(
    alloc: Global,
    net: &mut Net,
    asked: &mut List<AskedQuery>,
    trader: usize,
    form: ReplyForm,
    query: Shared<Query>,
) -> Result<(), AuditStop>
    requires sound { IsWithinLimits net.old }
    ensures happens { HappensAs net.old (event.Ask trader query) result net.new }
    ensures asked { OnOk result (asked.new ≡ asked.old ++ asked_as (length net.old.calls) form query
        ∷ []) }
    ensures sound { OnOk result (IsWithinLimits net.new) }
{
    let Ok(kept) = asked_as(alloc, net.calls(), form, query.get()) else {
        return Err(AuditStop::Memory);
    };
    if asked.push(kept).is_err() {
        return Err(AuditStop::Memory);
    }
    happen(net, Event::Ask { trader, query })
}
