//! The operation of an object that has a name.

ghost use Rattle.std.specs.Prelude.{◌≡◌};
ghost use Rattle.td_cdr.specs.Format.{value_named};
ghost use Rattle.td_name_ops.specs.Operations.{name_of, operation_named, operations};
ghost use Rattle.td_name_ops.specs.declared.operation.NameKind.TheVariants as kind;
ghost use Rattle.td_ops.specs.Operations.{first_name};

use crate::operation::{ContextOperation, IteratorOperation, NameKind, NameOperation};
use td_cdr::find_named;

/// The operation of an object that has this name in a request. Takes no memory.
pub fn operation_named(kind: NameKind, name: &[u8]) -> Option<NameOperation>
    ensures { result ≡ operation_named kind name.now }
{
    let name = first_name(name);
    match kind {
        NameKind::Context => of_context(name),
        NameKind::Iterator => of_iterator(name),
    }
}

/// The first name of an operation, by which the tables have it. `_not_existent` is a second one.
fn first_name(name: &[u8]) -> &[u8]
    ensures { result.now ≡ first_name name.now }
{
    if name == b"_not_existent".as_slice() {
        b"_non_existent"
    } else {
        name
    }
}

fn of_context(name: &[u8]) -> Option<NameOperation>
    ensures { result ≡ value_named name_of (operations kind.Context) name.now }
{
    find_named(
        &[
            NameOperation::Context(ContextOperation::Bind),
            NameOperation::Context(ContextOperation::Rebind),
            NameOperation::Context(ContextOperation::BindContext),
            NameOperation::Context(ContextOperation::RebindContext),
            NameOperation::Context(ContextOperation::Resolve),
            NameOperation::Context(ContextOperation::Unbind),
            NameOperation::Context(ContextOperation::NewContext),
            NameOperation::Context(ContextOperation::BindNewContext),
            NameOperation::Context(ContextOperation::Destroy),
            NameOperation::Context(ContextOperation::List),
            NameOperation::IsA,
            NameOperation::NonExistent,
        ],
        name,
    )
}

fn of_iterator(name: &[u8]) -> Option<NameOperation>
    ensures { result ≡ value_named name_of (operations kind.Iterator) name.now }
{
    find_named(
        &[
            NameOperation::Iterator(IteratorOperation::NextOne),
            NameOperation::Iterator(IteratorOperation::NextN),
            NameOperation::Iterator(IteratorOperation::Destroy),
            NameOperation::IsA,
            NameOperation::NonExistent,
        ],
        name,
    )
}
