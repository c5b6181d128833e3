//! What the repository answers.

use td_cdr::{List, Text};
use td_value::TypeStruct;

/// What a call of the repository comes to.
#[derive(Drop)]
pub enum TypesReply {
    /// A type was added, and has this incarnation.
    Added(u64),
    Removed,
    Masked,
    Unmasked,
    /// The names of types.
    Names(List<Text>),
    Described(TypeStruct),
}
