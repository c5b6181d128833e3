//! A network of traders whose queries wait for one another: events come to it in any order, and each of its steps is
//! a call of a trader or of a visit (OMG's Trading Object Service, "Link Follow Behavior").
#![tactic(auto)]

mod advancing;
mod beginning;
mod call;
mod event;
mod group;
mod net;
mod placing;
mod resuming;
mod schedule;
mod supply;

pub use advancing::Pending;
pub use event::{CallState, Event, NetFault};
pub use net::Net;
pub use schedule::check_schedule;
