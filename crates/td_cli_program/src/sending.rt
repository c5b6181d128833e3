//! The call that is sent.

ghost use Rattle.td_cli_program.specs.Sending.{SendsAsked, line};

use crate::outcome::Outcome;
use std::alloc::Global;
use td_call::call_over;
use td_cli_request::Asking;
use td_remote_query::ask_over;
use td_walk::PeerFault;
use td_wire::Wire;

/// Asks the object over a connection of its own; the iterator of a query is drained over the same one, or over one more
/// where it is elsewhere.
///
/// # Errors
///
/// - `Wire` where the wire's count of faults rose, or its bytes ended before a reply was whole.
/// - `Grammar` where the bytes are no reply to the request.
/// - `Memory` when out of memory.
pub(crate) fn send<L: Wire>(
    alloc: Global,
    asking: &Asking,
    wire: &mut L,
) -> Result<Outcome, PeerFault>
    ensures { SendsAsked asking.now (line (L.content wire.old) (L.faults wire.old))
        (line (L.content wire.new) (L.faults wire.new)) result }
{
    match asking {
        Asking::Query { target, query } => match ask_over(alloc, wire, target, query) {
            Ok(gathered) => Ok(Outcome::Gathered(gathered)),
            Err(fault) => Err(fault),
        },
        Asking::Call { target, call } => match call_over(alloc, wire, target, call) {
            Ok(answer) => Ok(Outcome::Answered(answer)),
            Err(fault) => Err(fault),
        },
    }
}
