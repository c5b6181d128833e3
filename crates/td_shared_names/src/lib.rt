//! Naming contexts that the sessions of a server share, each session on a thread of its own (OMG's CORBAservices,
//! Naming Service, version 1.0): they stand in a cell, and a session calls them through a pass of that cell.
#![tactic(auto)]

mod book;
mod pass;
mod shared;

pub use book::{Act, NameBook, Reply};
pub use pass::NamePass;
pub use shared::SharedNames;
