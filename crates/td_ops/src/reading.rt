//! Calls from bytes.

ghost use Rattle.std.specs.Prelude.{◌≡◌};
ghost use Rattle.td_cdr.specs.Format.{Gives};
ghost use Rattle.td_cdr.specs.ValueFaults.{is_memory};
ghost use Rattle.td_ops.specs.Refusals.{ReadsWritable};
ghost use Rattle.td_ops.specs.Calls.{AdmitsCall, call_read};
ghost use Rattle.td_ops.specs.Operations.{row};

use crate::call::{Call, Change, Look, Query};
use crate::fault::OpsFault;
use crate::finding::operation_named;
use crate::operation::Operation;
use crate::reading_admin::read_admin;
use crate::reading_links::{read_link, read_proxy};
use crate::reading_register::read_register;
use crate::reading_types::{read_iterator, read_types};
use std::alloc::Global;
use td_cdr::{Octets, Reader, Shared, Spelled, Text, ValueFault};
use td_value::{FollowOption, Kind};

/// The call of an object that a request's operation and body spell (CORBA, chapter on General Inter-ORB
/// Protocol, "Request Body"). Anything may follow the last parameter.
///
/// # Errors
///
/// `BadOperation` exactly where the object has no such operation, before the body is looked at. Else
/// the first fault in reading order: `NoImplement` for a TypeCode of a kind that is left out, and for
/// `set_type_repos` whatever its body; `Marshal` with its place for each other one. `Memory` when out
/// of memory. The reader is then unchanged.
pub fn read_call(
    alloc: Global,
    kind: &Kind,
    operation: &[u8],
    body: &mut Reader,
) -> Result<Call, OpsFault>
    ensures { ReadsWritable AdmitsCall (call_read kind.now operation.now body.old)
        body.old body.new result }
{
    let Some(operation) = operation_named(kind, operation) else {
        return Err(OpsFault::BadOperation);
    };
    let mut next = body.copied();
    let call = read_parameters(alloc, &mut next, operation)?;
    *body = next;
    Ok(call)
}

/// The parameters of an operation. Where they are refused, the reader may have moved.
fn read_parameters(alloc: Global, r: &mut Reader, operation: Operation) -> Result<Call, ValueFault>
    ensures { Gives is_memory r.new result ((row operation).body.format.reads r.old) }
{
    match operation {
        Operation::Query => Ok(Call::Query(Shared::<Query>::read(alloc, r)?)),
        Operation::Register(register) => read_register(alloc, r, register),
        Operation::Link(link) => read_link(alloc, r, link),
        Operation::Proxy(proxy) => read_proxy(alloc, r, proxy),
        Operation::Admin(admin) => read_admin(alloc, r, admin),
        Operation::Iterator(iterator) => read_iterator(alloc, r, iterator),
        Operation::Types(types) => read_types(alloc, r, types),
        Operation::Get(attribute) => Ok(Call::Look(Look::Get(attribute))),
        Operation::SetTruth(attribute) => Ok(Call::Change(Change::SetTruth {
            attribute,
            value: bool::read(alloc, r)?,
        })),
        Operation::SetNumber(attribute) => Ok(Call::Change(Change::SetNumber {
            attribute,
            value: u32::read(alloc, r)?,
        })),
        Operation::SetFollow(attribute) => Ok(Call::Change(Change::SetFollow {
            attribute,
            value: FollowOption::read(alloc, r)?,
        })),
        Operation::SetRequestIdStem => Ok(Call::Change(Change::SetRequestIdStem {
            value: Octets::read(alloc, r)?,
        })),
        Operation::IsA => Ok(Call::IsA(Text::read(alloc, r)?)),
        Operation::NonExistent => Ok(Call::NonExistent),
    }
}
