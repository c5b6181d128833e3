//! What a Request asks for, where it isn't served.

ghost use Rattle.std.specs.Prelude.{◌≡◌, Some};
ghost use Rattle.td_ops.specs.Operations.{operation_named};
ghost use Rattle.td_servant.specs.Classes.{class_named, class_of};

use td_ops::{Call, Operation, operation_named};
use td_value::Kind;

/// What a Request asks for: a journal notes a query otherwise than any other call.
#[derive(Clone, Copy, Debug, PartialEq, Eq)]
pub enum RequestClass {
    /// A query of a Lookup.
    Query,
    /// Any other call, or none that the object has.
    Other,
}

/// The class of a call.
pub fn class_of(call: &Call) -> RequestClass
    ensures { result ≡ class_of call.now }
{
    match call {
        Call::Query(_) => RequestClass::Query,
        Call::Change(_) => RequestClass::Other,
        Call::Look(_) => RequestClass::Other,
        Call::AddLink(_) => RequestClass::Other,
        Call::Iter(_) => RequestClass::Other,
        Call::IsA(_) => RequestClass::Other,
        Call::NonExistent => RequestClass::Other,
        Call::Resolve(_) => RequestClass::Other,
    }
}

/// The class of the calls of an object that a request's operation names.
pub(crate) fn class_named(kind: &Kind, operation: &[u8]) -> RequestClass
    ensures { result ≡ class_named (operation_named kind.now operation.now) }
{
    match operation_named(kind, operation) {
        Some(operation) => class_of_operation(operation),
        None => RequestClass::Other,
    }
}

/// The class of an operation's calls.
fn class_of_operation(operation: Operation) -> RequestClass
    ensures { result ≡ class_named (Some operation) }
{
    match operation {
        Operation::Query => RequestClass::Query,
        Operation::Register(_) => RequestClass::Other,
        Operation::Link(_) => RequestClass::Other,
        Operation::Proxy(_) => RequestClass::Other,
        Operation::Admin(_) => RequestClass::Other,
        Operation::Iterator(_) => RequestClass::Other,
        Operation::Types(_) => RequestClass::Other,
        Operation::Get(_) => RequestClass::Other,
        Operation::SetTruth(_) => RequestClass::Other,
        Operation::SetNumber(_) => RequestClass::Other,
        Operation::SetFollow(_) => RequestClass::Other,
        Operation::SetRequestIdStem => RequestClass::Other,
        Operation::IsA => RequestClass::Other,
        Operation::NonExistent => RequestClass::Other,
    }
}
