//! One request over a connection that stands, and its reply.

ghost use Rattle.std.specs.Prelude.{◌≡◌, ◌+◌, ◌<◌, ◌≤◌, ◌^◌, length, option_map, IfOk};
ghost use Rattle.td_call.specs.Fetching.{Exchanges, Fetches};
ghost use Rattle.td_call.specs.Moving.{MovesTraffic};
ghost use Rattle.td_call.specs.Readings.{AdmitsAnswered, AdmitsValue, outcome_in_reply, evaluation_in_reply};
ghost use Rattle.td_call.specs.Replies.{reply_limit};
ghost use Rattle.td_call.specs.Requests.{request_of};
ghost use Rattle.td_wire.specs.Connections.{wrote};

use crate::fetching::fetch;
use crate::front::{front_evaluation, front_outcome};
use crate::request::call_request;
use crate::sending::write_all;
use std::alloc::Global;
use td_cdr::Boxed;
use td_giop::Framer;
use td_ior::Iiop;
use td_ops::{Answered, Call};
use td_value::{Any, TypeCode};
use td_walk::PeerFault;
use td_wire::Wire;

/// Writes a request, and reads until a whole message stands in front of what came.
///
/// # Errors
///
/// As `fetch`.
#[tactic(auto, using(crate::proofs::Moving::moves_sent, crate::proofs::Moving::moves_heard))]
fn send<L: Wire>(wire: &mut L, framer: &mut Framer, request: &[u8]) -> Result<(), PeerFault>
    requires limit { framer.old.limit ≡ reply_limit }
    requires room { framer.old.start + length framer.old.rest + 2 ^ 27 < 2 ^ 64 }
    ensures same { L.same wire.old wire.new }
    ensures fetches { Fetches framer.old framer.new
        (option_map (wrote request.now) (L.content wire.old)) (L.content wire.new)
        (L.faults wire.old)
        (L.faults wire.new) result }
    ensures moves { MovesTraffic request.now (L.content wire.old) (L.content wire.new) }
    ensures later { L.faults wire.old ≤ L.faults wire.new }
    ensures grows { framer.new.start + length framer.new.rest
        ≤ framer.old.start + length framer.old.rest + 2 ^ 27 }
    ensures kept { framer.new.limit ≡ framer.old.limit }
{
    match write_all(wire, request) {
        Err(_) => Err(PeerFault::Wire),
        Ok(()) => fetch(wire, framer),
    }
}

/// Writes a request, and reads its reply, which is that to a call.
///
/// # Errors
///
/// `Wire`, `Grammar` and `Memory`.
fn exchange_outcome<L: Wire>(
    alloc: Global,
    wire: &mut L,
    framer: &mut Framer,
    id: u32,
    request: &[u8],
    call: &Call,
) -> Result<Answered, PeerFault>
    requires limit { framer.old.limit ≡ reply_limit }
    requires room { framer.old.start + length framer.old.rest + 2 ^ 27 < 2 ^ 64 }
    ensures same { L.same wire.old wire.new }
    ensures exchanges { Exchanges (outcome_in_reply call.now)
        id request.now framer.old.rest framer.new.rest (L.content wire.old) (L.content wire.new)
        (L.faults wire.old) (L.faults wire.new) result }
    ensures admitted { IfOk result (λ a. AdmitsAnswered call.now a) }
    ensures moves { MovesTraffic request.now (L.content wire.old) (L.content wire.new) }
    ensures later { L.faults wire.old ≤ L.faults wire.new }
    ensures grows { framer.new.start + length framer.new.rest
        ≤ framer.old.start + length framer.old.rest + 2 ^ 27 }
    ensures kept { framer.new.limit ≡ framer.old.limit }
{
    match send(wire, framer, request) {
        Err(fault) => Err(fault),
        Ok(()) => {
            let answer = front_outcome(alloc, framer, id, call);
            framer.drop_message();
            answer
        }
    }
}

/// Writes the Request for a call of the object with this profile, and reads its reply. The Request is of GIOP 1.0 where
/// the profile is, and else of 1.1; its reply may be of either. What came behind the reply stays in the framer.
///
/// # Errors
///
/// `Wire` where the wire failed, or its bytes ended before a message was whole; `Grammar` where they are another
/// message or one that can't be read; and `Memory`.
#[tactic(auto, using(crate::proofs::Moving::moves_none))]
pub fn exchange_call<L: Wire>(
    alloc: Global,
    wire: &mut L,
    framer: &mut Framer,
    id: u32,
    profile: &Iiop,
    call: &Call,
) -> Result<Answered, PeerFault>
    requires limit { framer.old.limit ≡ reply_limit }
    requires room { framer.old.start + length framer.old.rest + 2 ^ 27 < 2 ^ 64 }
    ensures same { L.same wire.old wire.new }
    ensures exchanges { Exchanges (outcome_in_reply call.now) id
        (request_of id profile.now call.now)
        framer.old.rest framer.new.rest (L.content wire.old) (L.content wire.new)
        (L.faults wire.old)
        (L.faults wire.new) result }
    ensures admitted { IfOk result (λ a. AdmitsAnswered call.now a) }
    ensures moves { MovesTraffic (request_of id profile.now call.now) (L.content wire.old)
        (L.content wire.new) }
    ensures later { L.faults wire.old ≤ L.faults wire.new }
    ensures grows { framer.new.start + length framer.new.rest
        ≤ framer.old.start + length framer.old.rest + 2 ^ 27 }
    ensures kept { framer.new.limit ≡ framer.old.limit }
{
    match call_request(alloc, id, profile, call) {
        Err(_) => Err(PeerFault::Memory),
        Ok(request) => exchange_outcome(alloc, wire, framer, id, request.bytes(), call),
    }
}

/// Writes a request, and reads its reply, which is that to evalDP.
///
/// # Errors
///
/// As `exchange_call`.
pub(crate) fn exchange_evaluation<L: Wire>(
    alloc: Global,
    wire: &mut L,
    framer: &mut Framer,
    id: u32,
    request: &[u8],
    returned: &TypeCode,
) -> Result<Option<Boxed<Any>>, PeerFault>
    requires limit { framer.old.limit ≡ reply_limit }
    requires room { framer.old.start + length framer.old.rest + 2 ^ 27 < 2 ^ 64 }
    ensures same { L.same wire.old wire.new }
    ensures exchanges { Exchanges (evaluation_in_reply returned.now)
        id request.now framer.old.rest framer.new.rest (L.content wire.old) (L.content wire.new)
        (L.faults wire.old) (L.faults wire.new) result }
    ensures admitted { IfOk result (λ o. AdmitsValue o) }
    ensures moves { MovesTraffic request.now (L.content wire.old) (L.content wire.new) }
    ensures later { L.faults wire.old ≤ L.faults wire.new }
{
    match send(wire, framer, request) {
        Err(fault) => Err(fault),
        Ok(()) => {
            let answer = front_evaluation(alloc, framer, id, returned);
            framer.drop_message();
            answer
        }
    }
}
