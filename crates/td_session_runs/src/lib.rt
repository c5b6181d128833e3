//! What a session makes of its messages, one after the other, and what holds of every run of such turns, as functions
//! that do nothing: each one's contract is the law (CORBA, chapter on General Inter-ORB Protocol; OMG's Trading Object
//! Service).
#![tactic(auto)]

mod examples;
mod laws;

pub use examples::worked_turns;
pub use laws::{
    alone_histories_grow_by_own_changes, no_answer_is_invented, no_memory_changes_nothing,
    own_changes_are_accepted, own_marks_are_searches, points_rise, queries_are_walks,
    queries_begin_walks, refusals_change_nothing, what_is_seen_is_legal, words_are_drawn_in_order,
};
