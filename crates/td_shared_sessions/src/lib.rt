//! The sessions of a server of traders whose iterators are live on every connection (OMG's Trading Object Service,
//! interfaces OfferIterator and OfferIdIterator): each visitor's session is served over what it sees of a group of
//! traders and of a desk of iterators that all share. Each is handed on when it has ended, and in the end the traders
//! are.
#![tactic(auto)]

mod ended;
mod service;
mod serving;
mod session;

pub use ended::{DropEnded, Ended, KeepEnded};
pub use serving::serve_sharing;
