//! The attributes, links and service types of one trader, and the lists of its offers (OMG's Trading Object Service,
//! interfaces Admin and Link, and CosTradingRepos::ServiceTypeRepository).
#![tactic(auto)]

mod admin;
mod linking;
mod links;
mod listing;
mod repository;
mod ruling;

pub use admin::{
    follow_of, get, number_of, set_follow, set_number, set_request_id_stem, set_truth, truth_of,
};
pub use linking::add_link;
pub use links::{describe_link, list_links, remove_link};
pub use listing::{list_offers, list_proxies};
pub use repository::{
    add_type, describe_type, fully_describe_type, list_types, mask_type, remove_type, unmask_type,
};
pub use ruling::modify_link;
