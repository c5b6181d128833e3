//! Calls that give a reference.

ghost use Rattle.std.specs.Prelude.{◌≡◌, IfOk};
ghost use Rattle.td_call.specs.Calling.{CallsObject, first_id};
ghost use Rattle.td_call.specs.Moving.{LeavesTraffic, StaysDisconnected};
ghost use Rattle.td_call.specs.Readings.{AdmitsAnswered, outcome_in_reply};
ghost use Rattle.td_call.specs.Requests.{request_of};
ghost use Rattle.td_client.specs.Meanings.{register_call, resolve_call};

use std::alloc::Global;
use td_call::call_over;
use td_cdr::{List, Text, Twin};
use td_ops::{Answered, Attribute, Call, Look, ReferenceAttribute};
use td_value::Ior;
use td_walk::PeerFault;
use td_wire::Wire;

/// Reads the attribute `register_if` of a Lookup.
///
/// # Errors
///
/// As `call_over`.
pub(crate) fn ask_register<L: Wire>(
    alloc: Global,
    wire: &mut L,
    lookup: &Ior,
) -> Result<Answered, PeerFault>
    ensures same { L.same wire.old wire.new }
    ensures called { CallsObject (outcome_in_reply register_call)
        (λ p. request_of first_id p register_call)
        lookup.now (L.content wire.old) (L.content wire.new) (L.faults wire.old)
        (L.faults wire.new) result }
    ensures admitted { IfOk result (λ a. AdmitsAnswered register_call a) }
    ensures leaves { LeavesTraffic (λ p. request_of first_id p register_call) lookup.now
        (L.content wire.old)
        (L.content wire.new) }
    ensures disconnected { StaysDisconnected (L.content wire.old) (L.content wire.new) }
{
    let request = Call::Look(Look::Get(Attribute::Reference(ReferenceAttribute::RegisterIf)));
    let answer = call_over(alloc, wire, lookup, &request);
    drop(request);
    answer
}

/// Asks a Register which Register links of these names lead to.
///
/// # Errors
///
/// As `call_over`.
#[tactic(auto, using(td_call::proofs::Moving::left_untouched))]
pub(crate) fn ask_to_resolve<L: Wire>(
    alloc: Global,
    wire: &mut L,
    register: &Ior,
    name: &List<Text>,
) -> Result<Answered, PeerFault>
    ensures same { L.same wire.old wire.new }
    ensures called { CallsObject (outcome_in_reply (resolve_call name.now))
        (λ p. request_of first_id p (resolve_call name.now)) register.now (L.content wire.old)
        (L.content wire.new) (L.faults wire.old) (L.faults wire.new) result }
    ensures admitted { IfOk result (λ a. AdmitsAnswered (resolve_call name.now) a) }
    ensures leaves { LeavesTraffic (λ p. request_of first_id p (resolve_call name.now)) register.now
        (L.content wire.old) (L.content wire.new) }
    ensures disconnected { StaysDisconnected (L.content wire.old) (L.content wire.new) }
{
    match name.copy(alloc) {
        Err(_) => Err(PeerFault::Memory),
        Ok(names) => {
            let request = Call::Resolve(names);
            let answer = call_over(alloc, wire, register, &request);
            drop(request);
            answer
        }
    }
}
