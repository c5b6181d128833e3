//! TypeCodes as graphs, so that one may hold itself (a recursive TypeCode, which CORBA spells by an
//! indirection), and whether two of them are the same at every depth.
#![tactic(auto)]

mod aliases;
mod fault;
mod graph;
pub mod laws;
mod list;
mod loops;
mod node;
mod pairs;
mod same;
mod whole;

pub use aliases::ALIAS;
pub use fault::GraphFault;
pub use graph::Graph;
pub use list::List;
pub use node::{Edges, Name, Names, Node, Numbers};
pub use whole::Whole;
