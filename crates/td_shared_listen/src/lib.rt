//! `listen FILE shared`: serves the visitors at the address of a server's file (CORBA's IIOP), each on a thread of its
//! own, with iterators that are live on every connection.
#![tactic(auto)]

mod listen;
mod listened;

pub use listen::listen_sharing;
pub use listened::Listened;
