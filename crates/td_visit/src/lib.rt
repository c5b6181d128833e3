//! One visit of a query at a trader, whose questions are asked one at a time (OMG's Trading Object Service).
#![tactic(auto)]

mod advancing;
mod ending;
mod frame;
mod joining;
mod progress;
mod questions;
mod queue;
mod recipe;
mod searching;

pub use frame::Frame;
