//! The repository of service types (OMG's Trading Object Service, module CosTradingRepos).
#![tactic(auto)]

mod adding;
mod bases;
mod conforming;
mod described;
mod describing;
mod entries;
mod entry;
mod fault;
mod inheriting;
mod interfaces;
mod judgement;
mod laws;
mod limits;
mod listing;
mod lookup;
mod modes;
mod naming;
mod places;
mod reaching;
mod redefining;
mod removing;
mod reply;
mod sought;
mod types;

pub use described::halves;
pub use entry::ServiceType;
pub use fault::{RepoFault, TypesFault};
pub use judgement::Judgement;
pub use laws::{
    calls_never_run_out_of_memory, incarnations_are_new, interfaces_conform, listing_rises,
    masks_change_nothing_else, removing_leaves_the_others, supertypes_modes_hold,
    the_oldest_sub_type_is_named, types_conform, types_stay_writable,
};
pub use limits::{MOST_BYTES, MOST_PROPERTIES};
pub use lookup::property_named;
pub use modes::{is_mandatory, is_readonly};
pub use reply::TypesReply;
pub use types::Types;
