//! The sessions of a server of naming contexts beside each other (OMG's CORBAservices, Naming Service, version 1.0;
//! CORBA, chapter on General Inter-ORB Protocol): each visitor's session is served over what it sees of contexts that
//! all share. Each is handed on when it has ended, and in the end the contexts are.
#![tactic(auto)]

mod ended;
mod service;
mod serving;
mod session;

pub use ended::{DropEnded, Ended, KeepEnded};
pub use serving::serve_naming;
