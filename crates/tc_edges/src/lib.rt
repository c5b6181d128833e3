//! Which edge of a graph spells each of its nodes, and which are spelled as indirections.
#![tactic(auto)]

mod edges;
pub mod laws;
mod spellings;

pub use edges::{Edge, SpelledGraph, Spelling};
