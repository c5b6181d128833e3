//! What holds of all sessions that a server of naming contexts has served, as functions that do nothing: their
//! contracts are the laws.
#![tactic(auto)]

mod laws;

pub use laws::each_change_is_of_one_session;
