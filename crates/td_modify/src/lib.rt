//! Offers that are modified, and offers that are withdrawn by a constraint (OMG's Trading Object Service, interface
//! Register, modify and withdraw_using_constraint).
#![tactic(auto)]

mod modifying;
mod withdrawing;

pub use modifying::modify;
pub use withdrawing::withdraw_using_constraint;
