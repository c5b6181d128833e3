//! Calls of Register from bytes.

ghost use Rattle.std.specs.Prelude.{◌≡◌};
ghost use Rattle.td_cdr.specs.Format.{Gives};
ghost use Rattle.td_cdr.specs.ValueFaults.{is_memory};
ghost use Rattle.td_ops.specs.Registers.{register_row};
ghost use Rattle.td_ops.specs.declared.operation.RegisterOperation.TheVariants as register;

use crate::call::{Call, Change, Look};
use crate::operation::RegisterOperation;
use std::alloc::Global;
use td_cdr::{List, Reader, Shared, Spelled, Text, ValueFault};
use td_value::{Ior, Property};

/// The parameters of an operation of Register. Where they are refused, the reader may have moved.
pub(crate) fn read_register(
    alloc: Global,
    r: &mut Reader,
    operation: RegisterOperation,
) -> Result<Call, ValueFault>
    ensures { Gives is_memory r.new result ((register_row operation).body.format.reads r.old) }
{
    match operation {
        RegisterOperation::Export => read_export(alloc, r),
        RegisterOperation::Withdraw => Ok(Call::Change(Change::Withdraw {
            id: Text::read(alloc, r)?,
        })),
        RegisterOperation::Describe => Ok(Call::Look(Look::Describe {
            id: Text::read(alloc, r)?,
        })),
        RegisterOperation::Modify => read_modify(alloc, r),
        RegisterOperation::WithdrawUsingConstraint => read_withdraw_using_constraint(alloc, r),
        RegisterOperation::Resolve => Ok(Call::Resolve(List::read(alloc, r)?)),
    }
}

fn read_export(alloc: Global, r: &mut Reader) -> Result<Call, ValueFault>
    ensures { Gives is_memory r.new result
        ((register_row register.Export).body.format.reads r.old) }
{
    let (reference, (service_type, properties)) = <(
        Shared<Ior>,
        (Shared<Text>, Shared<List<Property>>),
    )>::read(alloc, r)?;
    Ok(Call::Change(Change::Export {
        reference,
        service_type,
        properties,
    }))
}

fn read_modify(alloc: Global, r: &mut Reader) -> Result<Call, ValueFault>
    ensures { Gives is_memory r.new result
        ((register_row register.Modify).body.format.reads r.old) }
{
    let (id, (deleted, changed)) = <(Text, (List<Text>, List<Property>))>::read(alloc, r)?;
    Ok(Call::Change(Change::Modify {
        id,
        deleted,
        changed,
    }))
}

fn read_withdraw_using_constraint(alloc: Global, r: &mut Reader) -> Result<Call, ValueFault>
    ensures { Gives is_memory r.new result
        ((register_row register.WithdrawUsingConstraint).body.format.reads r.old) }
{
    let (service_type, constraint) = <(Text, Text)>::read(alloc, r)?;
    Ok(Call::Change(Change::WithdrawUsingConstraint {
        service_type,
        constraint,
    }))
}
