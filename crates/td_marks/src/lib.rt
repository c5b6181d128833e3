//! The identifiers of queries that a trader remembers, so that it searches for none of them twice (Trading Object
//! Service, the policy request_id of a query).
#![tactic(auto)]

pub mod laws;
mod made;
mod ring;

pub use made::Made;
pub use ring::Ring;
