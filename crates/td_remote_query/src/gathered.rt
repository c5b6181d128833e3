//! What a query of another trader gives.

use td_ior::Iiop;
use td_ops::Answered;
use td_walk::SubAnswer;

/// What a query of another trader gives.
#[derive(Drop)]
pub enum Gathered {
    /// The offers of the query's reply and of its iterator, in order, and the reply's limits.
    Offers(SubAnswer),
    /// The exception that the query or a call of its iterator was answered with.
    Refused(Answered),
}

/// What the query's own connection gave.
#[derive(Drop)]
pub(crate) enum ConnectionResult {
    /// All that the query gives.
    All(Gathered),
    /// Offers and limits, and where the iterator is reached that gives the other offers.
    Elsewhere { profile: Iiop, found: SubAnswer },
}
