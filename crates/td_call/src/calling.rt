//! One call of an object over a connection of its own.

ghost use Rattle.std.specs.Prelude.{◌≡◌, ◌≤◌, ◌↔◌, [], option_map, IfOk, IsTrue};
ghost use Rattle.td_ior.specs.Profiles.{iiop_of};
ghost use Rattle.td_call.specs.Calling.{CallsObject, CalledAt, ConnectsTo, first_id};
ghost use Rattle.td_call.specs.Fetching.{IsReadOrFault};
ghost use Rattle.td_call.specs.Moving.{LeavesTraffic, LeavesAt, StaysDisconnected};
ghost use Rattle.td_call.specs.Readings.{AdmitsAnswered, AdmitsValue, outcome_in_reply, evaluation_in_reply};
ghost use Rattle.td_wire.specs.Connections.{end_connection};
ghost use Rattle.td_call.specs.Requests.{request_of, evaluation_of};

use crate::exchange::{exchange_call, exchange_evaluation};
use crate::request::evaluation_request;
use std::alloc::Global;
use td_cdr::{Boxed, Text};
use td_giop::{CLIENT_LIMIT, Framer};
use td_ior::{Iiop, IorFault, iiop_of};
use td_ops::{Answered, Call};
use td_value::{Any, Ior, TypeCode};
use td_walk::PeerFault;
use td_wire::Wire;

/// The id of the first request over a connection.
const FIRST_ID: u32 = 1;

/// Where an object is reached.
///
/// # Errors
///
/// `Grammar` where the reference has no IIOP profile, and `Memory`.
pub fn profile_of(alloc: Global, target: &Ior) -> Result<Iiop, PeerFault>
    ensures { IsReadOrFault (iiop_of target.now) result }
{
    match iiop_of(alloc, target) {
        Ok(profile) => Ok(profile),
        Err(IorFault::NoIiop) => Err(PeerFault::Grammar),
        Err(_) => Err(PeerFault::Memory),
    }
}

/// Makes a connection to where a profile says, over which nothing came yet.
///
/// # Errors
///
/// `Wire` where the wire failed, and `Memory`.
pub fn connect<L: Wire>(alloc: Global, wire: &mut L, profile: &Iiop) -> Result<Framer, PeerFault>
    ensures same { L.same wire.old wire.new }
    ensures connected { ConnectsTo profile.now (L.content wire.old) (L.content wire.new)
        (L.faults wire.old) (L.faults wire.new) result }
    ensures later { L.faults wire.old ≤ L.faults wire.new }
{
    match wire.connect(profile.host.as_slice(), profile.port) {
        Err(_) => Err(PeerFault::Wire),
        Ok(()) => match Framer::new(alloc, CLIENT_LIMIT) {
            Ok(framer) => Ok(framer),
            Err(_) => {
                wire.finish(false);
                Err(PeerFault::Memory)
            }
        },
    }
}

/// Tells the wire that the calls over its connection are done, and whether nothing is owed over it: the last reply was
/// read, and nothing came behind it.
pub fn finish<L: Wire>(wire: &mut L, framer: &mut Framer, answered: bool)
    ensures same { L.same wire.old wire.new }
    ensures content { L.content wire.new ≡ option_map end_connection (L.content wire.old) }
    ensures faults { L.faults wire.new ≡ L.faults wire.old }
    ensures framer { framer.new ≡ framer.old }
{
    wire.finish(answered && is_spent(framer));
}

/// Whether nothing came that wasn't taken away.
fn is_spent(framer: &mut Framer) -> bool
    ensures framer { framer.new ≡ framer.old }
    ensures spent { IsTrue result ↔ (framer.old.rest ≡ []) }
{
    let none_began = framer.ended_inside().is_none();
    match framer.next_message() {
        Ok(None) => none_began,
        Ok(Some(_message)) => false,
        Err(_) => false,
    }
}

/// Calls an object over a connection of its own: writes one Request, and reads its reply. It isn't tried again:
/// whatever comes of it, no more than one connection was made, and no more than the one Request written over it. The
/// connection has ended when the call is done. What is answered can be written.
///
/// # Errors
///
/// - `Wire` where the wire's count of faults rose, or its bytes ended before a message was whole.
/// - `Grammar` where the object has no IIOP profile, or the bytes are no reply to the request.
/// - `Memory` when out of memory.
pub fn call_over<L: Wire>(
    alloc: Global,
    wire: &mut L,
    target: &Ior,
    call: &Call,
) -> Result<Answered, PeerFault>
    ensures same { L.same wire.old wire.new }
    ensures called { CallsObject (outcome_in_reply call.now) (λ p. request_of first_id p call.now)
        target.now
        (L.content wire.old) (L.content wire.new) (L.faults wire.old) (L.faults wire.new) result }
    ensures admitted { IfOk result (λ a. AdmitsAnswered call.now a) }
    ensures leaves { LeavesTraffic (λ p. request_of first_id p call.now) target.now
        (L.content wire.old)
        (L.content wire.new) }
    ensures disconnected { StaysDisconnected (L.content wire.old) (L.content wire.new) }
    ensures later { L.faults wire.old ≤ L.faults wire.new }
{
    match profile_of(alloc, target) {
        Err(fault) => Err(fault),
        Ok(profile) => call_at(alloc, wire, &profile, call),
    }
}

/// Calls an object that is reached there.
fn call_at<L: Wire>(
    alloc: Global,
    wire: &mut L,
    profile: &Iiop,
    call: &Call,
) -> Result<Answered, PeerFault>
    ensures same { L.same wire.old wire.new }
    ensures called { CalledAt (outcome_in_reply call.now) (request_of first_id profile.now call.now)
        profile.now (L.content wire.old) (L.content wire.new) (L.faults wire.old)
        (L.faults wire.new) result }
    ensures admitted { IfOk result (λ a. AdmitsAnswered call.now a) }
    ensures leaves { LeavesAt (request_of first_id profile.now call.now) profile.now
        (L.content wire.old) (L.content wire.new) }
    ensures later { L.faults wire.old ≤ L.faults wire.new }
{
    match connect(alloc, wire, profile) {
        Err(fault) => Err(fault),
        Ok(framer) => {
            let mut framer = framer;
            let answer = exchange_call(alloc, wire, &mut framer, FIRST_ID, profile, call);
            finish(wire, &mut framer, answer.is_ok());
            answer
        }
    }
}

/// Has a dynamic property evaluated, over a connection of its own: one Request for evalDP is written, and its reply
/// read. The value can be written; none is answered where the evaluator raised an exception.
///
/// # Errors
///
/// As `call_over`. A value of another type than `returned`, and one of more than 16 KiB, is `Grammar`.
pub fn evaluate_over<L: Wire>(
    alloc: Global,
    wire: &mut L,
    evaluator: &Ior,
    name: &Text,
    returned: &TypeCode,
    extra: &Any,
) -> Result<Option<Boxed<Any>>, PeerFault>
    ensures same { L.same wire.old wire.new }
    ensures called { CallsObject (evaluation_in_reply returned.now)
        (λ p. evaluation_of first_id p name.now returned.now extra.now) evaluator.now
        (L.content wire.old) (L.content wire.new) (L.faults wire.old) (L.faults wire.new) result }
    ensures admitted { IfOk result (λ o. AdmitsValue o) }
    ensures leaves { LeavesTraffic (λ p. evaluation_of first_id p name.now returned.now extra.now)
        evaluator.now (L.content wire.old) (L.content wire.new) }
    ensures disconnected { StaysDisconnected (L.content wire.old) (L.content wire.new) }
    ensures later { L.faults wire.old ≤ L.faults wire.new }
{
    match profile_of(alloc, evaluator) {
        Err(fault) => Err(fault),
        Ok(profile) => evaluate_at(alloc, wire, &profile, name, returned, extra),
    }
}

/// Has a dynamic property evaluated by an object that is reached there.
#[tactic(auto, using(crate::proofs::Moving::leaves_uncalled))]
fn evaluate_at<L: Wire>(
    alloc: Global,
    wire: &mut L,
    profile: &Iiop,
    name: &Text,
    returned: &TypeCode,
    extra: &Any,
) -> Result<Option<Boxed<Any>>, PeerFault>
    ensures same { L.same wire.old wire.new }
    ensures called { CalledAt (evaluation_in_reply returned.now)
        (evaluation_of first_id profile.now name.now returned.now extra.now) profile.now
        (L.content wire.old) (L.content wire.new) (L.faults wire.old) (L.faults wire.new) result }
    ensures admitted { IfOk result (λ o. AdmitsValue o) }
    ensures leaves { LeavesAt (evaluation_of first_id profile.now name.now returned.now extra.now)
        profile.now (L.content wire.old) (L.content wire.new) }
    ensures later { L.faults wire.old ≤ L.faults wire.new }
{
    match evaluation_request(alloc, FIRST_ID, profile, name, returned, extra) {
        Err(_) => Err(PeerFault::Memory),
        Ok(request) => ask_at(alloc, wire, profile, request.bytes(), returned),
    }
}

/// Sends a request for evalDP over a connection to there, and reads its reply.
fn ask_at<L: Wire>(
    alloc: Global,
    wire: &mut L,
    profile: &Iiop,
    request: &[u8],
    returned: &TypeCode,
) -> Result<Option<Boxed<Any>>, PeerFault>
    ensures same { L.same wire.old wire.new }
    ensures called { CalledAt (evaluation_in_reply returned.now) request.now profile.now
        (L.content wire.old) (L.content wire.new) (L.faults wire.old) (L.faults wire.new) result }
    ensures admitted { IfOk result (λ o. AdmitsValue o) }
    ensures leaves { LeavesAt request.now profile.now (L.content wire.old) (L.content wire.new) }
    ensures later { L.faults wire.old ≤ L.faults wire.new }
{
    match connect(alloc, wire, profile) {
        Err(fault) => Err(fault),
        Ok(framer) => {
            let mut framer = framer;
            let answer = exchange_evaluation(alloc, wire, &mut framer, FIRST_ID, request, returned);
            finish(wire, &mut framer, answer.is_ok());
            answer
        }
    }
}
