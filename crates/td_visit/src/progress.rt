//! How far a visit has come, so that the next question needs no look at what was done before.

use crate::queue::Queue;
use td_cdr::List;
use td_walk::{Evaluation, Found};

/// How far the candidates were searched.
#[derive(Drop)]
pub(crate) struct Scan {
    /// How many candidates were tried.
    pub(crate) tried: usize,
    /// The evaluations of the candidate that is being tried.
    pub(crate) made: List<Evaluation>,
    /// The offers that matched.
    pub(crate) found: List<Found>,
}

/// How far the desired properties of the offers that matched were evaluated.
#[derive(Drop)]
pub(crate) struct Completion {
    /// The offers that aren't complete.
    pub(crate) waiting: Queue<Found>,
    pub(crate) complete: List<Found>,
}

/// How far the other traders were asked.
#[derive(Drop)]
pub(crate) struct Others {
    /// Whether an ordinary offer matched here.
    pub(crate) local_match: bool,
    /// How many offers are still wanted, where that is limited.
    pub(crate) wanted: Option<u32>,
    /// How many of the offers that matched were passed by: they ask nobody, or have their answer.
    pub(crate) offers: usize,
    /// How many of the links were.
    pub(crate) links: usize,
    /// How many answers the other traders gave.
    pub(crate) given: usize,
}

/// How far a visit has come.
#[derive(Drop)]
pub(crate) struct Progress {
    /// How many answers were read, without those of other traders.
    pub(crate) read: usize,
    /// Whether the search is at its end.
    pub(crate) searched: bool,
    /// Whether all offers that matched are complete.
    pub(crate) completed: bool,
    pub(crate) scan: Scan,
    pub(crate) completion: Completion,
    pub(crate) others: Others,
}
