//! What holds of every trader, whatever is called on it and however it goes on: traders as they are reached, and values
//! that can be written.
#![tactic(auto)]

mod group_laws;
mod reaching;
mod store_laws;

pub use group_laws::{
    groups_stay_writable, none_is_admitted, queries_begin_writably, traders_stay_writable,
};
pub use reaching::{
    reached_traders_are_in_order, reached_traders_begin, searches_are_apart, values_are_left,
};
pub use store_laws::{changes_stay_writable, histories_stay_writable, looks_are_writable};
