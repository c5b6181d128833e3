//! The operations of each object, by their names.

ghost use Rattle.std.specs.Prelude.{◌≡◌};
ghost use Rattle.td_name_ops.specs.Operations.{context_row, iterator_row, name_of};

use td_cdr::Named;

/// Which interface an object has.
#[derive(Clone, Copy, Debug, PartialEq, Eq)]
pub enum NameKind {
    /// CosNaming::NamingContext.
    Context,
    /// CosNaming::BindingIterator.
    Iterator,
}

/// An operation of an object, by the interface that declares it.
#[derive(Clone, Copy, Debug, PartialEq, Eq)]
pub enum NameOperation {
    Context(ContextOperation),
    Iterator(IteratorOperation),
    IsA,
    NonExistent,
}

/// The operations of the interface NamingContext.
#[derive(Clone, Copy, Debug, PartialEq, Eq)]
pub enum ContextOperation {
    Bind,
    Rebind,
    BindContext,
    RebindContext,
    Resolve,
    Unbind,
    NewContext,
    BindNewContext,
    Destroy,
    List,
}

/// The operations of the interface BindingIterator.
#[derive(Clone, Copy, Debug, PartialEq, Eq)]
pub enum IteratorOperation {
    NextOne,
    NextN,
    Destroy,
}

impl Named for NameOperation {
    ghost name_of = { name_of };

    fn name(self) -> &'static [u8] {
        match self {
            NameOperation::Context(context) => context_name(context),
            NameOperation::Iterator(iterator) => iterator_name(iterator),
            NameOperation::IsA => b"_is_a",
            NameOperation::NonExistent => b"_non_existent",
        }
    }
}

fn context_name(operation: ContextOperation) -> &'static [u8]
    ensures { result.now ≡ (context_row operation).name }
{
    match operation {
        ContextOperation::Bind => b"bind",
        ContextOperation::Rebind => b"rebind",
        ContextOperation::BindContext => b"bind_context",
        ContextOperation::RebindContext => b"rebind_context",
        ContextOperation::Resolve => b"resolve",
        ContextOperation::Unbind => b"unbind",
        ContextOperation::NewContext => b"new_context",
        ContextOperation::BindNewContext => b"bind_new_context",
        ContextOperation::Destroy => b"destroy",
        ContextOperation::List => b"list",
    }
}

fn iterator_name(operation: IteratorOperation) -> &'static [u8]
    ensures { result.now ≡ (iterator_row operation).name }
{
    match operation {
        IteratorOperation::NextOne => b"next_one",
        IteratorOperation::NextN => b"next_n",
        IteratorOperation::Destroy => b"destroy",
    }
}
