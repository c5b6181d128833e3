//! Calls from bytes.

ghost use Rattle.std.specs.Prelude.{◌≡◌};
ghost use Rattle.td_cdr.specs.Format.{Gives};
ghost use Rattle.td_cdr.specs.ValueFaults.{is_memory};
ghost use Rattle.td_name_ops.specs.Calls.{AdmitsCall, body_of, call_read};
ghost use Rattle.td_name_ops.specs.Operations.{context_row, iterator_row};
ghost use Rattle.td_ops.specs.Refusals.{ReadsWritable};

use crate::call::{IteratorCall, NameCall};
use crate::finding::operation_named;
use crate::operation::{ContextOperation, IteratorOperation, NameKind, NameOperation};
use std::alloc::Global;
use td_cdr::{List, Reader, Spelled, Text, ValueFault};
use td_names::{NameAct, NameComponent};
use td_ops::OpsFault;
use td_typecode::Ior;

/// The kind of TypeCode that stands for an operation that isn't implemented.
const OBJECT_REFERENCE: u32 = 14;

/// The call of an object that a request's operation and body spell (CORBA, chapter on General Inter-ORB Protocol,
/// "Request Body"). Anything may follow the last parameter.
///
/// # Errors
///
/// `BadOperation` exactly where the object has no such operation, before the body is looked at; `NoImplement` for
/// `rebind_context`, whatever its body. Else the first fault in reading order, `Marshal` with its place. `Memory` when
/// out of memory. The reader is then unchanged.
pub fn read_name_call(
    alloc: Global,
    kind: NameKind,
    operation: &[u8],
    body: &mut Reader,
) -> Result<NameCall, OpsFault>
    ensures { ReadsWritable AdmitsCall (call_read kind operation.now body.old) body.old body.new
        result }
{
    let Some(operation) = operation_named(kind, operation) else {
        return Err(OpsFault::BadOperation);
    };
    let mut next = body.copied();
    let call = read_parameters(alloc, &mut next, operation)?;
    *body = next;
    Ok(call)
}

/// The parameters of an operation. Where they are refused, the reader may have moved.
fn read_parameters(
    alloc: Global,
    r: &mut Reader,
    operation: NameOperation,
) -> Result<NameCall, ValueFault>
    ensures { Gives is_memory r.new result ((body_of operation).reads r.old) }
{
    match operation {
        NameOperation::Context(context) => read_context(alloc, r, context),
        NameOperation::Iterator(iterator) => read_iterator(alloc, r, iterator),
        NameOperation::IsA => Ok(NameCall::IsA(Text::read(alloc, r)?)),
        NameOperation::NonExistent => Ok(NameCall::NonExistent),
    }
}

/// The parameters of an operation of NamingContext. Where they are refused, the reader may have moved.
fn read_context(
    alloc: Global,
    r: &mut Reader,
    operation: ContextOperation,
) -> Result<NameCall, ValueFault>
    ensures { Gives is_memory r.new result ((context_row operation).body.format.reads r.old) }
{
    match operation {
        ContextOperation::Bind => {
            let (name, object) = <(List<NameComponent>, Ior)>::read(alloc, r)?;
            Ok(NameCall::Act(NameAct::Bind { name, object }))
        }
        ContextOperation::Rebind => {
            let (name, object) = <(List<NameComponent>, Ior)>::read(alloc, r)?;
            Ok(NameCall::Act(NameAct::Rebind { name, object }))
        }
        ContextOperation::BindContext => {
            let (name, object) = <(List<NameComponent>, Ior)>::read(alloc, r)?;
            Ok(NameCall::Act(NameAct::BindContext { name, object }))
        }
        ContextOperation::RebindContext => Err(ValueFault::Unsupported(OBJECT_REFERENCE)),
        ContextOperation::Resolve => Ok(NameCall::Act(NameAct::Resolve {
            name: List::read(alloc, r)?,
        })),
        ContextOperation::Unbind => Ok(NameCall::Act(NameAct::Unbind {
            name: List::read(alloc, r)?,
        })),
        ContextOperation::NewContext => Ok(NameCall::Act(NameAct::NewContext)),
        ContextOperation::BindNewContext => Ok(NameCall::Act(NameAct::BindNewContext {
            name: List::read(alloc, r)?,
        })),
        ContextOperation::Destroy => Ok(NameCall::Act(NameAct::Destroy)),
        ContextOperation::List => Ok(NameCall::List {
            how_many: u32::read(alloc, r)?,
        }),
    }
}

/// The parameters of an operation of BindingIterator. Where they are refused, the reader may have moved.
fn read_iterator(
    alloc: Global,
    r: &mut Reader,
    operation: IteratorOperation,
) -> Result<NameCall, ValueFault>
    ensures { Gives is_memory r.new result ((iterator_row operation).body.format.reads r.old) }
{
    match operation {
        IteratorOperation::NextOne => Ok(NameCall::Iterator(IteratorCall::NextOne)),
        IteratorOperation::NextN => Ok(NameCall::Iterator(IteratorCall::NextN {
            how_many: u32::read(alloc, r)?,
        })),
        IteratorOperation::Destroy => Ok(NameCall::Iterator(IteratorCall::Destroy)),
    }
}
