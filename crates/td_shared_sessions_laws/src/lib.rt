//! What holds of all sessions that a server with a shared desk has served, as functions that do nothing: their
//! contracts are the laws.
#![tactic(auto)]

mod laws;

pub use laws::{no_item_goes_to_two_sessions, sessions_share_one_history};
