//! The Requests that a client writes.

ghost use Rattle.std.specs.Prelude.{◌≡◌, ◌≤◌, [], ◌++◌, length, IfOk};
ghost use Rattle.td_giop.specs.declared.header.TheConstants.{NEWEST_MINOR};
ghost use Rattle.td_call.specs.Requests.{request_of, evaluation_of, spoken_minor};

use std::alloc::Global;
use td_cdr::{Memory, Order, Text, Writer, put_three};
use td_giop::{seal, start_request};
use td_ior::Iiop;
use td_ops::{Call, operation_of, write_call};
use td_value::{Any, TypeCode};

/// The operation of a dynamic property's evaluator (OMG's Trading Object Service, interface DynamicPropEval).
const EVAL_DP: &str = "evalDP";

/// The minor version of GIOP that an object is called in: 0 where its profile is of IIOP 1.0, else 1.
fn spoken_minor(profile: &Iiop) -> u8
    ensures spoken { result ≡ spoken_minor profile.now.minor }
    ensures written { result ≤ NEWEST_MINOR }
{
    if profile.minor == 0 { 0 } else { 1 }
}

/// The Request for a call of the object with this profile.
///
/// # Errors
///
/// `Memory` when out of memory, or where the message would come to 2^32 bytes.
#[tactic(auto, unfolding(crate::specs::Requests::request_bytes))]
pub(crate) fn call_request(
    alloc: Global,
    id: u32,
    profile: &Iiop,
    call: &Call,
) -> Result<Writer, Memory>
    ensures { IfOk result (λ w. w.bytes ≡ request_of id profile.now call.now) }
{
    let mut w = Writer::new(alloc, Order::Big);
    let key = profile.key.as_slice();
    let operation = operation_of(call).as_bytes();
    start_request(&mut w, spoken_minor(profile), id, true, key, operation)?;
    write_call(alloc, &mut w, call)?;
    seal(&mut w);
    Ok(w)
}

/// The Request for an evaluation by the object with this profile.
///
/// # Errors
///
/// As `call_request`.
#[tactic(auto, unfolding(crate::specs::Requests::request_bytes))]
pub(crate) fn evaluation_request(
    alloc: Global,
    id: u32,
    profile: &Iiop,
    name: &Text,
    returned: &TypeCode,
    extra: &Any,
) -> Result<Writer, Memory>
    ensures { IfOk result (λ w. w.bytes
        ≡ evaluation_of id profile.now name.now returned.now extra.now) }
{
    let mut w = Writer::new(alloc, Order::Big);
    let key = profile.key.as_slice();
    start_request(
        &mut w,
        spoken_minor(profile),
        id,
        true,
        key,
        EVAL_DP.as_bytes(),
    )?;
    put_three(alloc, &mut w, name, returned, extra)?;
    seal(&mut w);
    Ok(w)
}
