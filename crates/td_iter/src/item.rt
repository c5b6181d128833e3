//! What a connection's iterator goes over.

use crate::ids::IdIter;
use crate::offers::OfferIter;

/// What is left of an answer: offers or ids.
#[derive(Drop)]
pub enum Item {
    Offers(OfferIter),
    Ids(IdIter),
}
