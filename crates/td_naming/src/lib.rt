//! A naming store with its history, as those who call it see it (OMG's CORBAservices, Naming Service, version 1.0).
#![tactic(auto)]

mod history;
pub mod laws;
mod names;
mod naming;

pub use history::NameChange;
pub use names::Names;
pub use naming::Naming;
