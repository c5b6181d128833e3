//! Calls of the type repository and of iterators from bytes.

ghost use Rattle.std.specs.Prelude.{◌≡◌};
ghost use Rattle.td_cdr.specs.Format.{Gives};
ghost use Rattle.td_cdr.specs.ValueFaults.{is_memory};
ghost use Rattle.td_ops.specs.Types.{types_row};
ghost use Rattle.td_ops.specs.declared.operation.TypesOperation.TheVariants as types;
ghost use Rattle.td_ops.specs.Iterators.{iterator_row};

use crate::call::{Call, Change, IterCall, Look};
use crate::operation::{IteratorOperation, TypesOperation};
use std::alloc::Global;
use td_cdr::{List, Reader, Spelled, Text, ValueFault};
use td_value::{PropStruct, SpecifiedServiceTypes};

/// The parameters of an operation of ServiceTypeRepository, but for its attribute. Where they are refused, the reader
/// may have moved.
pub(crate) fn read_types(
    alloc: Global,
    r: &mut Reader,
    operation: TypesOperation,
) -> Result<Call, ValueFault>
    ensures { Gives is_memory r.new result ((types_row operation).body.format.reads r.old) }
{
    match operation {
        TypesOperation::AddType => read_add_type(alloc, r),
        TypesOperation::RemoveType => Ok(Call::Change(Change::RemoveType {
            name: Text::read(alloc, r)?,
        })),
        TypesOperation::ListTypes => Ok(Call::Look(Look::ListTypes {
            which: SpecifiedServiceTypes::read(alloc, r)?,
        })),
        TypesOperation::DescribeType => Ok(Call::Look(Look::DescribeType {
            name: Text::read(alloc, r)?,
        })),
        TypesOperation::FullyDescribeType => Ok(Call::Look(Look::FullyDescribeType {
            name: Text::read(alloc, r)?,
        })),
        TypesOperation::MaskType => Ok(Call::Change(Change::MaskType {
            name: Text::read(alloc, r)?,
        })),
        TypesOperation::UnmaskType => Ok(Call::Change(Change::UnmaskType {
            name: Text::read(alloc, r)?,
        })),
    }
}

fn read_add_type(alloc: Global, r: &mut Reader) -> Result<Call, ValueFault>
    ensures { Gives is_memory r.new result ((types_row types.AddType).body.format.reads r.old) }
{
    let (name, (if_name, (props, super_types))) = <(
        Text,
        (Text, (List<PropStruct>, List<Text>)),
    )>::read(alloc, r)?;
    Ok(Call::Change(Change::AddType {
        name,
        if_name,
        props,
        super_types,
    }))
}

/// The parameters of an operation of OfferIterator and OfferIdIterator. Where they are refused, the reader may have
/// moved.
pub(crate) fn read_iterator(
    alloc: Global,
    r: &mut Reader,
    operation: IteratorOperation,
) -> Result<Call, ValueFault>
    ensures { Gives is_memory r.new result ((iterator_row operation).body.format.reads r.old) }
{
    match operation {
        IteratorOperation::MaxLeft => Ok(Call::Iter(IterCall::MaxLeft)),
        IteratorOperation::NextN => Ok(Call::Iter(IterCall::NextN {
            n: u32::read(alloc, r)?,
        })),
        IteratorOperation::Destroy => Ok(Call::Iter(IterCall::Destroy)),
    }
}
