//! Values, their types and some names as people write them: in a server's file and on a command line; and the pieces of
//! texts that are written for them.
#![tactic(auto)]

mod item;
mod names;
mod pieces;
mod sequence;
mod signed;
mod value_type;
mod values;

pub use item::ItemType;
pub use names::{mode_named, rule_named, truth_named};
pub use pieces::{put, put_counted, put_decimal};
pub use value_type::{ValueType, code_of, value_type_of};
pub use values::value_of;
