//! What holds of a network of traders after every list of events, in whatever order they come, as functions that do
//! nothing: each one's contract is the law (OMG's Trading Object Service, "Policies" on request_id, and "Link Follow
//! Behavior").
#![tactic(auto)]

mod examples;
mod marks;
mod trees;

pub use examples::{worked_marks, worked_visits};
pub use marks::{searches_are_apart, visits_are_of_one_point};
pub use trees::{
    asks_have_one_identifier, calls_are_answered_by_their_steps, events_lead_to_one_world,
    every_schedule_gives_one_walk, trees_are_one,
};
