//! What holds of a walk through a group of traders, as functions that do nothing: each one's contract is the law (OMG's
//! Trading Object Service, "Link Follow Behavior").
#![tactic(auto)]

mod examples;
mod shared;
mod walks;

pub use examples::{worked_arrivals, worked_traces};
pub use shared::{
    fresh_walks_repeat_their_searches, remembered_walks_search_once, walks_alone_are_remembered,
    walks_have_one_identifier,
};
pub use walks::{
    every_visit_ends, repeats_name_an_earlier_search, searches_of_a_trader_are_far,
    searches_stay_within_stated_hops, searches_stay_within_their_hops, traders_are_searched_once,
    unmarked_groups_are_fresh, walks_are_determined,
};
