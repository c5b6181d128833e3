//! Offers that matched.

use crate::evaluation::Evaluation;
use td_cdr::List;
use td_store::FoundOffer;

/// An offer that matched, with the evaluations of its dynamic properties.
#[derive(Drop)]
pub struct Found {
    pub offer: FoundOffer,
    pub made: List<Evaluation>,
}
