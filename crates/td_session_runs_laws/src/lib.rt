//! What holds of every session whose traders' values can be written, as functions that do nothing: each one's contract
//! is the law (CORBA, chapter on General Inter-ORB Protocol, "Reply Body").
#![tactic(auto)]

mod examples;
mod replies;

pub use examples::worked_spelling;
pub use replies::{outcomes_are_writable, replies_spell_outcomes};
