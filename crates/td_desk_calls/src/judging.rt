//! What a Request for an iterator asks (OMG's Trading Object Service, interfaces OfferIterator and OfferIdIterator;
//! CORBA, chapter "ORB Interface", is_a and non_existent).

ghost use Rattle.std.specs.Prelude.{◌≡◌, IfErr, IfOk, Result, Err};
ghost use Rattle.td_cdr.specs.Place.{At};
ghost use Rattle.td_desk_calls.specs.Calls.{asked_by, asked_of, refused_request};
ghost use Rattle.td_ops.specs.Calls.{call_read};
ghost use Rattle.td_ops.specs.Refusals.{ReadsAs};
ghost use Rattle.td_ops.specs.declared.call.Call.{Call as called};
ghost use Rattle.td_value.specs.declared.key.Kind.TheVariants as kind;

use std::alloc::Global;
use td_cdr::{Memory, Reader, Text};
use td_ops::{Call, IterCall, OpsFault, SystemKind, read_call};
use td_value::Kind;

/// What a Request for an iterator asks.
#[derive(Drop)]
pub enum IteratorRequest {
    /// At most so many of the items that are left.
    NextN(u32),
    /// That it be taken off the desk.
    Destroy,
    /// What leaves it as it is.
    Inquire(Inquiry),
}

/// A Request that leaves its iterator as it is.
#[derive(Drop)]
pub enum Inquiry {
    /// How many items are left.
    MaxLeft,
    /// Whether the iterator has the interface of this repository id.
    IsA(Text),
    /// Whether it is gone.
    NonExistent,
    /// It spells no call, and is refused with this system exception and minor code.
    Refused(SystemKind, u32),
}

/// What a Request with this operation and body asks of the iterator of a number.
///
/// # Errors
///
/// `Memory` only when out of memory, to read it.
pub(crate) fn judge(
    alloc: Global,
    number: u64,
    operation: &[u8],
    body: &Reader,
) -> Result<IteratorRequest, Memory>
    ensures { IfOk result
        (λ a. a ≡ asked_by (call_read (kind.Iterator number) operation.now body.now)) }
{
    let mut reader = body.copied();
    match read_call(alloc, &Kind::Iterator(number), operation, &mut reader) {
        Ok(call) => Ok(asked_of(call)),
        Err(fault) => refuse(fault),
    }
}

/// The refusal of a Request that spells no call.
///
/// # Errors
///
/// `Memory` when memory ran out to read it.
fn refuse(fault: OpsFault) -> Result<IteratorRequest, Memory>
    ensures { (reading : Result (called × At) OpsFault) (at : At) → ReadsAs at (Err fault) reading
        → IfOk result (λ a. a ≡ asked_by reading) }
{
    match fault {
        OpsFault::BadOperation => Ok(refused_request(SystemKind::BadOperation, 0)),
        OpsFault::Marshal(place) => Ok(refused_request(SystemKind::Marshal, place)),
        OpsFault::NoImplement => Ok(refused_request(SystemKind::NoImplement, 0)),
        OpsFault::Memory => Err(Memory),
    }
}

fn refused_request(exception: SystemKind, minor: u32) -> IteratorRequest
    ensures { result ≡ refused_request exception minor }
{
    IteratorRequest::Inquire(Inquiry::Refused(exception, minor))
}

/// What a call asks of an iterator, which has no other operations than these.
fn asked_of(call: Call) -> IteratorRequest
    ensures { result ≡ asked_of call }
{
    match call {
        Call::Iter(call) => match call {
            IterCall::MaxLeft => IteratorRequest::Inquire(Inquiry::MaxLeft),
            IterCall::NextN { n } => IteratorRequest::NextN(n),
            IterCall::Destroy => IteratorRequest::Destroy,
        },
        Call::IsA(id) => IteratorRequest::Inquire(Inquiry::IsA(id)),
        Call::NonExistent => IteratorRequest::Inquire(Inquiry::NonExistent),
        Call::Change(_) | Call::Look(_) | Call::Query(_) | Call::AddLink(_) | Call::Resolve(_) =>
            refused_request(SystemKind::BadOperation, 0),
    }
}
