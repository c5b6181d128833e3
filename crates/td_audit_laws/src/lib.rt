//! What holds of every audit, as functions that do nothing: each one's contract is the law (OMG's Trading Object
//! Service, "Link Follow Behavior"; the log's form is this project's own).
#![tactic(auto)]

mod laws;

pub use laws::{accepted_lines_are_schedules, audited_replies_are_of_one_walk, verdicts_are_one};
