//! Calls of naming contexts and of binding iterators.

use td_cdr::Text;
use td_names::NameAct;

/// A call of an operation, with its parameters.
#[derive(Drop)]
pub enum NameCall {
    /// A call of a context, but for `list`.
    Act(NameAct),
    /// `list`: at most so many bindings in the answer itself.
    List { how_many: u32 },
    /// A call of an iterator.
    Iterator(IteratorCall),
    /// Whether the object has the interface of this repository id.
    IsA(Text),
    /// Whether the object is gone.
    NonExistent,
}

/// A call of a binding iterator.
#[derive(Clone, Copy, Debug, PartialEq, Eq)]
pub enum IteratorCall {
    NextOne,
    /// At most so many bindings.
    NextN { how_many: u32 },
    Destroy,
}
