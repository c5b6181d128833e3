//! `names HOST PORT`: the program that serves naming contexts over one connection.
#![tactic(auto)]

mod ended;
mod laws;
mod program;
mod serving;
mod words;

pub use laws::worked_words;
pub use program::{run_names, start_names};
pub use serving::new_naming;
pub use words::home_named;
