//! `listen names HOST PORT`: the program that serves naming contexts to the visitors of an address (CORBA's IIOP), each
//! on a thread of its own.
#![tactic(auto)]

mod listen;
mod listened;
mod program;

pub use listen::listen_names;
pub use listened::Listened;
pub use program::start_listening;
