//! What a trader keeps: offers, on a slab whose values stand on chains, links, types and attributes
//! (OMG's Trading Object Service).
#![tactic(auto)]

mod condition;
mod fault;
mod found_offer;
mod gathering;
mod inserting;
mod joint;
mod laws;
mod links;
mod local;
mod looking;
mod offers;
mod record;
mod rings;
mod search;
mod slab;
mod slot;
mod steps;
mod store;

pub use condition::{belongs, mode_of};
pub use fault::StoreFault;
pub use found_offer::FoundOffer;
pub use laws::{
    candidates_conform, numbers_rise, plain_offers_are_searched, removing_leaves_the_others,
    stores_stay_valid, worked_examples,
};
pub use links::Links;
pub use local::Local;
pub use offers::Offers;
pub use record::{LinkRecord, OfferRecord, ProxyPart};
pub use slab::Slab;
pub use steps::Steps;
pub use store::Store;
