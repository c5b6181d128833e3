//! A caller of peers over a wire.

ghost use Rattle.std.specs.Prelude.{◌≡◌, ◌≤◌, [], IfOk};
ghost use Rattle.td_call.specs.Calling.{CallsObject, first_id};
ghost use Rattle.td_call.specs.Moving.{LeavesTraffic, StaysDisconnected};
ghost use Rattle.td_call.specs.Readings.{outcome_in_reply};
ghost use Rattle.td_call.specs.Requests.{request_of};
ghost use Rattle.td_client.specs.Noted.{count_after};
ghost use Rattle.td_remote_query.specs.Querying.{QueriesTrader, GivesFitOffers};
ghost use Rattle.td_remote_query.specs.Writing.{AskLeaves};

use crate::calls::Calls;
use std::alloc::Global;
use td_call::call_over;
use td_ops::{Answered, Call, Query};
use td_remote_query::{Gathered, ask_over};
use td_value::Ior;
use td_walk::PeerFault;
use td_wire::Wire;

/// A caller of peers over a wire.
#[derive(Drop)]
pub struct Caller<L> {
    pub(crate) wire: L,
    /// The calls that a visit made, in order, with what each gave.
    pub(crate) calls: Calls,
    pub(crate) faults: u64,
}

impl<L: Wire> Caller<L> {
    /// A caller over this wire. It made no call and counted no fault yet.
    pub fn new(wire: L) -> Caller<L>
        ensures wire { result.wire ≡ wire }
        ensures calls { result.calls ≡ [] }
        ensures faults { result.faults ≡ 0 }
    {
        Caller {
            wire,
            calls: Calls::new(),
            faults: 0,
        }
    }

    /// Calls an object: connects, writes one Request, and reads its reply. It isn't tried again, and the connection has
    /// ended when the call is done, whatever comes of it.
    ///
    /// # Errors
    ///
    /// - `Wire` where the wire's count of faults rose, or its bytes ended before a message was whole.
    /// - `Grammar` where the object has no IIOP profile, or the bytes are no reply to the request.
    /// - `Memory` when out of memory.
    ///
    /// Each but `Memory` raises the caller's own count.
    pub fn call(&mut self, alloc: Global, target: &Ior, call: &Call) -> Result<Answered, PeerFault>
        ensures same { L.same self.old.wire self.new.wire }
        ensures called { CallsObject (outcome_in_reply call.now)
            (λ p. request_of first_id p call.now)
            target.now (L.content self.old.wire) (L.content self.new.wire) (L.faults self.old.wire)
            (L.faults self.new.wire) result }
        ensures leaves { LeavesTraffic (λ p. request_of first_id p call.now) target.now
            (L.content self.old.wire) (L.content self.new.wire) }
        ensures disconnected { StaysDisconnected (L.content self.old.wire)
            (L.content self.new.wire) }
        ensures calls { self.new.calls ≡ self.old.calls }
        ensures count { self.new.faults ≡ count_after self.old.faults result }
    {
        let answer = call_over(alloc, &mut self.wire, target, call);
        self.faults = count_after(self.faults, &answer);
        answer
    }

    /// Asks another trader: writes the query, and reads its reply. An iterator is drained by `next_n(1000)`, with
    /// request ids 2, 3 and so on, and then destroyed: over the same connection where its profile names the trader's
    /// host, byte by byte, and its port, and else over one more connection, to there. No connection stands when the
    /// query is done, whatever comes of it.
    ///
    /// # Errors
    ///
    /// As `call`. More than 1,000,000 offers, an offer of more than 6 MiB, an empty batch with TRUE and an iterator
    /// without an IIOP profile are `Grammar`.
    pub fn ask(&mut self, alloc: Global, target: &Ior, q: &Query) -> Result<Gathered, PeerFault>
        ensures same { L.same self.old.wire self.new.wire }
        ensures asks { QueriesTrader target.now q.now (L.content self.old.wire)
            (L.content self.new.wire)
            (L.faults self.old.wire) (L.faults self.new.wire) result }
        ensures leaves { AskLeaves target.now q.now (L.content self.old.wire)
            (L.content self.new.wire) }
        ensures disconnected { StaysDisconnected (L.content self.old.wire)
            (L.content self.new.wire) }
        ensures fit { IfOk result (λ g. GivesFitOffers g) }
        ensures calls { self.new.calls ≡ self.old.calls }
        ensures count { self.new.faults ≡ count_after self.old.faults result }
    {
        let answer = ask_over(alloc, &mut self.wire, target, q);
        self.faults = count_after(self.faults, &answer);
        answer
    }
}

/// The count after a call or a query.
fn count_after<T>(faults: u64, answer: &Result<T, PeerFault>) -> u64
    ensures { result ≡ count_after faults answer.now }
{
    match answer {
        Ok(_) => faults,
        Err(PeerFault::Memory) => faults,
        Err(PeerFault::Wire) => faults.saturating_add(1),
        Err(PeerFault::Grammar) => faults.saturating_add(1),
        Err(PeerFault::Exception) => faults.saturating_add(1),
    }
}
