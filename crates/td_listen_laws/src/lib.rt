//! What holds of all visitors that `listen` serves, as functions that do nothing: their contracts are the laws.
#![tactic(auto)]

mod laws;

pub use laws::replies_of_files_spell_outcomes;
