//! What the commands on logs make of what each other prints, as functions that do nothing: each one's contract is the
//! law.
#![tactic(auto)]

mod laws;

pub use laws::{made_logs_are_audited, ring_logs_are_short, worked_commands};
