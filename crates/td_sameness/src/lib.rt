//! Whether two TypeCodes are the same type (CORBA's chapter on the interface repository, "TypeCodes").
#![tactic(auto)]

mod heads;
pub mod laws;
mod placed;
mod same;
mod trees;

pub use same::{same_tree, same_type};
