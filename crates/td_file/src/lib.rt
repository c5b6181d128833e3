//! The server's file: the address, the seed, and the traders, each in the store with which it opens.
#![tactic(auto)]

mod entering;
mod fault;
mod laws;
mod opening;
mod reading;
mod trading;
mod unknown;

pub use fault::FileFault;
pub use laws::{entries_are_changes, worked_openings};
pub use reading::{Opened, read_file};
pub use td_lines::LineCause;
