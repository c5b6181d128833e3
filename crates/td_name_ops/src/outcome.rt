//! What a call comes to: a result, a user exception or a system exception (OMG's Naming Service; CORBA, chapter
//! "Standard Exceptions").

use td_cdr::List;
use td_names::{NameBinding, NameException};
use td_ops::SystemKind;
use td_typecode::Ior;

/// A result.
#[derive(Drop)]
pub enum NameResult {
    Nothing,
    /// What a name is bound to, or the context that was made.
    Object(Ior),
    /// Of `_is_a` and of `_non_existent`.
    Truth(bool),
    /// Of `list`: the iterator, nil where nothing is left, has the bindings behind these.
    List {
        bindings: List<NameBinding>,
        iterator: Ior,
    },
    /// Of `next_one`: none past the end.
    NextOne(Option<NameBinding>),
    /// Of `next_n`.
    NextN(List<NameBinding>),
}

/// What a call comes to.
#[derive(Drop)]
pub enum NameOutcome {
    Done(NameResult),
    User(NameException),
    System {
        kind: SystemKind,
        minor: u32,
        /// Whether the call was done: 0 it was, 1 it wasn't, 2 it may have been.
        completion: u32,
    },
}
