//! The commands of the server's program: what its words ask for, the session that it serves or the text that it prints,
//! its status, and the line that it leaves on standard error.
#![tactic(auto)]

mod checking;
mod command;
mod drilling;
mod ended;
mod exit;
mod printing;
mod reporting;
mod serve;
mod verb;

pub use command::run;
pub use ended::Ended;
pub use exit::{arguments, run_program, start};
pub use reporting::{report, write_numbered};
pub use verb::count_of;
