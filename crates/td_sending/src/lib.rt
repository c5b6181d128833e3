//! Peers that are called once the replies that a stream holds have gone out: who waits for a peer keeps no client
//! waiting for the reply before.
#![tactic(auto)]

mod sending_peers;

pub use sending_peers::SendingPeers;
