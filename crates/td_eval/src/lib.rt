//! What the trading service's languages say over an offer's properties: the value of an expression, whether a
//! constraint matches, in which order offers are wanted, and what a proxy offer's recipe makes (OMG's Trading
//! Object Service, "The Constraint Language", "Preferences" and "Proxy").
#![tactic(auto)]

mod arithmetic;
mod comparison;
mod evaluation;
mod expansion;
pub mod laws;
mod matching;
mod names;
mod property;
mod ranking;
mod simple;

pub use evaluation::value_of;
pub use expansion::expand_recipe;
pub use matching::matches;
pub use names::names_asked;
pub use ranking::rank;
pub use simple::Simple;
