//! A query of another trader, with what its iterator gives, there or elsewhere (OMG's Trading Object Service,
//! interfaces Lookup and OfferIterator).
#![tactic(auto)]

mod draining;
mod gathered;
mod joining;
mod laws;
mod query;

pub use gathered::Gathered;
pub use laws::worked_requests;
pub use query::ask_over;
