//! Worked trees: what one depth-first walk finds over the calls of some schedules, and what comes of an Ask where a
//! premise on its identifier doesn't hold, as functions that do nothing (OMG's Trading Object Service, "Link Follow
//! Behavior" and "Policies" on request_id).
#![tactic(auto)]

mod trees;
mod without;

pub use trees::{worked_changes, worked_diamond, worked_return, worked_ring, worked_stop};
pub use without::{without_alone, without_fresh, without_remembered};
