//! A list that proofs alone see: it takes no memory.
#![tactic(auto)]

mod past;

pub use past::Past;
