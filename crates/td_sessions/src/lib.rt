//! The sessions of a server of traders beside each other (CORBA's GIOP over many connections): each visitor's session
//! is served over what it sees of a group of traders that all share. Each is handed on when it has ended, and in the
//! end the traders are.
#![tactic(auto)]

mod ended;
mod service;
mod serving;
mod session;

pub use ended::{DropEnded, Ended, KeepEnded};
pub use serving::serve_group;
