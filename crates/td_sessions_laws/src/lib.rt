//! What holds of a server's sessions, of the histories that they leave and of their replies, as functions that do
//! nothing: each one's contract is the law.
#![tactic(auto)]

mod laws;

pub use laws::{each_entry_is_of_one_session, each_reply_spells_its_outcome, worked_entries};
