//! The objects that a server has for each of its traders: their interfaces, and the references that it gives of them
//! (OMG's Trading Object Service, TraderComponents; CORBA, chapter "ORB Interface").
#![tactic(auto)]

mod interface;
mod references;

pub use interface::{Interface, is_a};
pub use references::{
    iterator_reference, lookup_and_register, offer_iterator, own_reference, trader_references,
};
