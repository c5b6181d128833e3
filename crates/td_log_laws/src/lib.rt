//! What holds of every log that was made, as functions that do nothing: each one's contract is the law (the log's form
//! is this project's own).
#![tactic(auto)]

mod laws;

pub use laws::{made_logs_are_short, made_logs_pass, worked_logs};
