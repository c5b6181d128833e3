//! The calls of a caller, as clauses see them.

use std::snapshot::Snapshot;
use td_value::{Any, Ior};
use td_walk::{CallNote, PeerFault, SubAnswer};

/// What a call gave.
#[derive(Drop)]
pub(crate) enum GaveNote {
    Offers(Snapshot<SubAnswer>),
    Value(Snapshot<Any>),
    Reference(Snapshot<Ior>),
    Failed(PeerFault),
}

/// A call, and what it gave.
#[derive(Drop)]
pub(crate) struct Note {
    pub(crate) call: CallNote,
    pub(crate) gave: GaveNote,
}
