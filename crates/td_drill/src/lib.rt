//! A drill of a group of traders: each of them is asked the same query, and what the walks come to is told in one line
//! (OMG's Trading Object Service, interface Lookup, query).
#![tactic(auto)]

mod counting;
mod drilling;
mod laws;
mod queries;
mod tally;

pub use drilling::drill;
pub use laws::worked_drills;
pub use queries::drill_query;
pub use tally::Tally;
