//! What a visit comes to before it is ranked.

use crate::answer::SubAnswer;
use crate::found::Found;
use td_cdr::List;

/// What a visit comes to before it is ranked.
#[derive(Drop)]
pub struct Gathered {
    /// The offers that matched.
    pub found: List<Found>,
    /// What the other traders answered.
    pub given: List<SubAnswer>,
}
