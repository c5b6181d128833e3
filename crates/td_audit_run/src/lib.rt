//! The commands of the server's program that have to do with logs: `audit FILE LOG` and `log N`, with their status and
//! the line that they leave on standard error.
#![tactic(auto)]

mod audited;
mod auditing;
mod command;
mod logging;
mod printing;
mod program;
mod reporting;

pub use audited::Audited;
pub use command::run_log;
pub use program::start_log;
