//! A client: calls of objects over a wire, and the peers that a visit asks (OMG's Trading Object Service).
#![tactic(auto)]

mod caller;
mod calls;
mod meaning;
mod note;
mod noting;
mod peers;
mod references;

pub use caller::Caller;
pub use td_remote_query::Gathered;
