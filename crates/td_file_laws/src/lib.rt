//! What holds of the traders that a server's file opens, as functions that do nothing: each one's contract is the law.
#![tactic(auto)]

mod laws;

pub use laws::{files_open_reached_traders, files_open_writable_traders, worked_telling};
