//! What every change and every look of one trader comes to, and the laws of its history (OMG's Trading Object Service,
//! interfaces Link, Admin and CosTradingRepos::ServiceTypeRepository; Register and Proxy stand below).
#![tactic(auto)]

mod applying;
mod bounds;
mod laws;
mod seeking;

pub use applying::{acceptance, apply, apply_change, not_done};
pub use bounds::{Bounds, MOST_CHANGES};
pub use laws::{
    changes_have_their_replies, exports_take_the_next_number, histories_are_legal,
    points_lead_to_stores, refused_changes_leave_the_store, the_limit_comes_last, worked_examples,
};
pub use seeking::seek;
