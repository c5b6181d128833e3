//! Peers in memory, which answer by a script: what calls traders outside, for tests and for a server without a network
//! (OMG's Trading Object Service, interfaces Lookup, Register and DynamicPropEval).
#![tactic(auto)]

mod entries;
mod mem_peers;
mod note;
mod scripted;

pub use mem_peers::MemPeers;
pub use scripted::Scripted;
