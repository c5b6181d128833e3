//! A group of traders: a query's visit of one of them with all that it goes on to, and what the names of links lead
//! to (OMG's Trading Object Service, interfaces Lookup, query, and Register, resolve; "Link Follow Behavior").
#![tactic(auto)]

mod entering;
mod innermost;
mod outside;
mod resolving;
mod visiting;

pub use resolving::{NameAnswer, resolve};
pub use visiting::visit;
