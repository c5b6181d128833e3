//! One trader: its store, its history and its marks; where a query begins (OMG's Trading Object Service,
//! interfaces Lookup, Register, Link, Proxy, Admin and CosTradingRepos::ServiceTypeRepository).
#![tactic(auto)]

mod begin;
mod begin_laws;
mod cache;
mod following;
mod local;
mod query;
mod query_laws;
mod solo;
mod trader;
mod traders;

pub use begin::{Begin, begin_query};
pub use begin_laws::{only_searches_mark, queries_are_served, queries_begin};
pub use following::{acts_follow, acts_follow_writably, changes_are_recorded};
pub use local::{path_local, search_local};
pub use query::{Parts, judge};
pub use query_laws::{
    points_stay, taken_queries_are_read, unknown_starts_are_refused, worked_queries,
};
pub use solo::Solo;
pub use trader::Trader;
pub use traders::Traders;
