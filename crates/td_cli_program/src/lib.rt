//! The client's program: what its words ask for, the call that is sent, the lines that are printed, and the status.
#![tactic(auto)]

mod client;
mod exit;
mod laws;
mod outcome;
mod printing;
mod running;
mod sending;
mod words;

pub use client::client_run;
pub use exit::{run_client, start};
pub use laws::answers_have_lines;
pub use outcome::Outcome;
