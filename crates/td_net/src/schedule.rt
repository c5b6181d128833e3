//! Schedules of a network.

ghost use Rattle.td_net.specs.Schedules.{IsChecked};

use crate::event::{Event, NetFault};
use crate::net::Net;
use td_cdr::List;

/// Whether a network takes each of these events in order.
///
/// # Errors
///
/// The place of the first event that isn't taken, counted from 0, and why it isn't.
pub fn check_schedule(net: Net, events: List<Event>) -> Result<(), (usize, NetFault)>
    ensures { IsChecked net events result }
{
    let mut net = net;
    for (place, event) in events.into_vec().into_iter().enumerate() {
        match net.on(event) {
            Ok(()) => {}
            Err(fault) => return Err((place, fault)),
        }
    }
    Ok(())
}
