//! Traders that the sessions of a server share, each session on a thread of its own (OMG's Trading Object Service).
//! Each trader of a group stands in a cell (`td_cell`) as its book: each call of a change, a look or a query on it is
//! one act. A session acts on it through a pass of that cell, which may go to another thread.
#![tactic(auto)]

mod group;
mod pass;
mod shared_trader;

pub use group::Group;
pub use pass::GroupPass;
pub use shared_trader::{Act, AdmittedChange, Reply, SharedTrader};
