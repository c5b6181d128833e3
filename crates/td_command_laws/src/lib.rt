//! What holds of every run of the server's program, as functions that do nothing: their contracts are the laws.
#![tactic(auto)]

mod laws;

pub use laws::{
    drills_are_not_refused, histories_grow_by_own_changes, replies_of_files_spell_outcomes,
    replies_spell_outcomes,
};
