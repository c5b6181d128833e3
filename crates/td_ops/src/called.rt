//! The operation of a call.

ghost use Rattle.std.specs.Prelude.{◌≡◌};
ghost use Rattle.td_ops.specs.Called.{change_operation, iterator_operation, look_operation, operation_in};
ghost use Rattle.td_ops.specs.Operations.{name_of};

use crate::call::{Call, Change, IterCall, Look};
use crate::operation::{
    AdminOperation, IteratorOperation, LinkOperation, Operation, ProxyOperation, RegisterOperation,
    TypesOperation, operation_name,
};

/// The name of the called operation, as a request has it. Takes no memory.
pub fn operation_of(call: &Call) -> &'static str
    ensures { result.now ≡ name_of (operation_in call.now) }
{
    operation_name(operation_in(call))
}

/// The operation that is called.
pub fn operation_in(call: &Call) -> Operation
    ensures { result ≡ operation_in call.now }
{
    match call {
        Call::Change(change) => change_operation(change),
        Call::Look(look) => look_operation(look),
        Call::Query(_) => Operation::Query,
        Call::AddLink(_) => Operation::Link(LinkOperation::AddLink),
        Call::Resolve(_) => Operation::Register(RegisterOperation::Resolve),
        Call::Iter(iter) => iterator_operation(iter),
        Call::IsA(_) => Operation::IsA,
        Call::NonExistent => Operation::NonExistent,
    }
}

fn change_operation(change: &Change) -> Operation
    ensures { result ≡ change_operation change.now }
{
    match change {
        Change::Export { .. } => Operation::Register(RegisterOperation::Export),
        Change::Withdraw { .. } => Operation::Register(RegisterOperation::Withdraw),
        Change::Modify { .. } => Operation::Register(RegisterOperation::Modify),
        Change::WithdrawUsingConstraint { .. } => Operation::Register(
            RegisterOperation::WithdrawUsingConstraint,
        ),
        Change::AddLink { .. } => Operation::Link(LinkOperation::AddLink),
        Change::RemoveLink { .. } => Operation::Link(LinkOperation::RemoveLink),
        Change::ModifyLink { .. } => Operation::Link(LinkOperation::ModifyLink),
        Change::ExportProxy { .. } => Operation::Proxy(ProxyOperation::ExportProxy),
        Change::WithdrawProxy { .. } => Operation::Proxy(ProxyOperation::WithdrawProxy),
        Change::SetTruth { attribute, .. } => Operation::SetTruth(*attribute),
        Change::SetNumber { attribute, .. } => Operation::SetNumber(*attribute),
        Change::SetFollow { attribute, .. } => Operation::SetFollow(*attribute),
        Change::SetRequestIdStem { .. } => Operation::SetRequestIdStem,
        Change::AddType { .. } => Operation::Types(TypesOperation::AddType),
        Change::RemoveType { .. } => Operation::Types(TypesOperation::RemoveType),
        Change::MaskType { .. } => Operation::Types(TypesOperation::MaskType),
        Change::UnmaskType { .. } => Operation::Types(TypesOperation::UnmaskType),
    }
}

fn look_operation(look: &Look) -> Operation
    ensures { result ≡ look_operation look.now }
{
    match look {
        Look::Describe { .. } => Operation::Register(RegisterOperation::Describe),
        Look::DescribeLink { .. } => Operation::Link(LinkOperation::DescribeLink),
        Look::ListLinks => Operation::Link(LinkOperation::ListLinks),
        Look::DescribeProxy { .. } => Operation::Proxy(ProxyOperation::DescribeProxy),
        Look::ListOffers { .. } => Operation::Admin(AdminOperation::ListOffers),
        Look::ListProxies { .. } => Operation::Admin(AdminOperation::ListProxies),
        Look::ListTypes { .. } => Operation::Types(TypesOperation::ListTypes),
        Look::DescribeType { .. } => Operation::Types(TypesOperation::DescribeType),
        Look::FullyDescribeType { .. } => Operation::Types(TypesOperation::FullyDescribeType),
        Look::Get(attribute) => Operation::Get(*attribute),
    }
}

fn iterator_operation(iter: &IterCall) -> Operation
    ensures { result ≡ iterator_operation iter.now }
{
    match iter {
        IterCall::MaxLeft => Operation::Iterator(IteratorOperation::MaxLeft),
        IterCall::NextN { .. } => Operation::Iterator(IteratorOperation::NextN),
        IterCall::Destroy => Operation::Iterator(IteratorOperation::Destroy),
    }
}
