//! What the body of a reply tells.

ghost use Rattle.std.specs.Prelude.{◌≡◌, if◌then◌else◌, IfOk};
ghost use Rattle.td_cdr.specs.Format.{Gives};
ghost use Rattle.td_cdr.specs.ValueFaults.{is_memory};
ghost use Rattle.td_typecode.specs.Values.{any_value};
ghost use Rattle.td_ops.specs.declared.call.Call.TheVariants.{NonExistent};
ghost use Rattle.td_walk.specs.declared.fault.PeerFault.TheVariants as peer;
ghost use Rattle.td_call.specs.Fetching.{IsReadOrFault};
ghost use Rattle.td_call.specs.Readings.{AdmitsAnswered, outcome_in_reply, may_stand, any_result, value_given};
ghost use Rattle.td_call.specs.Readings.{AdmitsValue, exception_given, evaluation_in_reply};

use std::alloc::Global;
use td_cdr::{Boxed, Memory, Reader, ValueFault};
use td_ops::{Answered, Call, OpsFault, read_outcome};
use td_sameness::same_type;
use td_value::{Any, TypeCode, any_size, read_any};
use td_walk::{LONGEST_VALUE, PeerFault};

/// What a reply of this status to a call tells. It can be written.
///
/// # Errors
///
/// `Grammar` where the body can't be read, and `Memory`.
#[tactic(auto, using(crate::proofs::Bodies::content_admitted))]
pub(crate) fn outcome_in_reply(
    alloc: Global,
    call: &Call,
    status: u32,
    body: &mut Reader,
) -> Result<Answered, PeerFault>
    ensures reads { IsReadOrFault (outcome_in_reply call.now status body.old) result }
    ensures admitted { IfOk result (λ a. AdmitsAnswered call.now a) }
{
    match read_outcome(alloc, call, status, body) {
        Ok(answer) => Ok(answer),
        Err(OpsFault::Memory) => Err(PeerFault::Memory),
        Err(OpsFault::BadOperation) => Err(PeerFault::Grammar),
        Err(OpsFault::Marshal(_)) => Err(PeerFault::Grammar),
        Err(OpsFault::NoImplement) => Err(PeerFault::Grammar),
    }
}

/// What a reply of this status to evalDP tells: a value, which can be written, or none for an exception.
///
/// # Errors
///
/// `Grammar` where the body can't be read, for a value of another type and for one of more than 16 KiB; and `Memory`.
pub(crate) fn evaluation_in_reply(
    alloc: Global,
    returned: &TypeCode,
    status: u32,
    body: &mut Reader,
) -> Result<Option<Boxed<Any>>, PeerFault>
    ensures reads { IsReadOrFault (evaluation_in_reply returned.now status body.old) result }
    ensures admitted { IfOk result (λ o. AdmitsValue o) }
{
    if status == 0 {
        value_given(alloc, returned, body)
    } else {
        exception_given(alloc, status, body)
    }
}

/// The value that an evaluator gives.
#[tactic(auto, using(crate::proofs::Bodies::value_refused, crate::proofs::Bodies::parse_value))]
fn value_given(
    alloc: Global,
    returned: &TypeCode,
    body: &mut Reader,
) -> Result<Option<Boxed<Any>>, PeerFault>
    ensures reads { IsReadOrFault (value_given returned.now (any_value.format.reads body.old))
        result }
    ensures admitted { IfOk result (λ o. AdmitsValue o) }
{
    match read_boxed(alloc, body) {
        Err(fault) => Err(peer_fault(fault)),
        Ok(value) => standing(alloc, returned, value),
    }
}

/// The any that comes next, in a block of its own. It can be written.
fn read_boxed(alloc: Global, body: &mut Reader) -> Result<Boxed<Any>, ValueFault>
    ensures gives { Gives is_memory body.new result (any_value.format.reads body.old) }
    ensures admitted { IfOk result (λ v. any_value.format.admits v) }
{
    let value = read_any(alloc, body)?;
    Ok(Boxed::new(alloc, value)?)
}

/// The value, where it may stand.
#[tactic(auto, using(crate::proofs::Bodies::stands, crate::proofs::Bodies::stands_not))]
fn standing(
    alloc: Global,
    returned: &TypeCode,
    value: Boxed<Any>,
) -> Result<Option<Boxed<Any>>, PeerFault>
    requires { any_value.format.admits value }
    ensures reads { IsReadOrFault (any_result returned.now value) result }
    ensures admitted { IfOk result (λ o. AdmitsValue o) }
{
    match may_stand(alloc, returned, value.get()) {
        Ok(true) => Ok(Some(value)),
        Ok(false) => {
            drop(value);
            Err(PeerFault::Grammar)
        }
        Err(_) => {
            drop(value);
            Err(PeerFault::Memory)
        }
    }
}

/// Whether a value is of this type and short enough.
#[tactic(auto, unfolding(crate::specs::Readings::may_stand))]
fn may_stand(alloc: Global, returned: &TypeCode, value: &Any) -> Result<bool, Memory>
    ensures { IfOk result (λ may. may ≡ may_stand returned.now value.now) }
{
    if !same_type(alloc, &value.code, returned)? {
        return Ok(false);
    }
    let size = any_size(alloc, value)?;
    Ok(size <= LONGEST_VALUE)
}

/// None, where the body is an exception.
#[tactic(auto, using(crate::proofs::Bodies::exception_content, crate::proofs::Bodies::exception_refused))]
fn exception_given(
    alloc: Global,
    status: u32,
    body: &mut Reader,
) -> Result<Option<Boxed<Any>>, PeerFault>
    ensures reads { IsReadOrFault (exception_given (outcome_in_reply NonExistent status body.old))
        result }
    ensures admitted { IfOk result (λ o. AdmitsValue o) }
{
    let answer = outcome_in_reply(alloc, &Call::NonExistent, status, body);
    match answer {
        Ok(answer) => {
            drop(answer);
            Ok(None)
        }
        Err(fault) => Err(fault),
    }
}

/// The fault of a body that holds a value.
fn peer_fault(fault: ValueFault) -> PeerFault
    ensures { result ≡ (if is_memory fault then peer.Memory else peer.Grammar) }
{
    match fault {
        ValueFault::Memory => PeerFault::Memory,
        ValueFault::Cdr(_) => PeerFault::Grammar,
        ValueFault::BadKind(_) => PeerFault::Grammar,
        ValueFault::BadValue(_) => PeerFault::Grammar,
        ValueFault::Unsupported(_) => PeerFault::Grammar,
        ValueFault::Depth(_) => PeerFault::Grammar,
        ValueFault::Indirection(_) => PeerFault::Grammar,
    }
}
