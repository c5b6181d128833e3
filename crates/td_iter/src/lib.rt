//! Iterators over what is left of a long answer, and the desk on which a connection keeps them (OMG's
//! Trading Object Service, interfaces OfferIterator and OfferIdIterator).
#![tactic(auto)]

mod desk;
mod filling;
mod first;
mod ids;
mod item;
mod iter;
pub mod laws;
mod limits;
mod next;
mod offers;
mod truth;

pub use desk::{Desk, DeskEntry};
pub use first::{put_first, put_found};
pub use ids::IdIter;
pub use item::Item;
pub use iter::Iter;
pub use limits::{LARGEST_MESSAGE, REPLY_START};
pub use offers::OfferIter;
pub use truth::Truth;
