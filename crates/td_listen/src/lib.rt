//! The server's program over TCP: `listen FILE` serves the visitors at the address of a server's file (CORBA's IIOP),
//! each on a thread of its own; naming contexts are served by other crates (`start`), and every other command is
//! `td_command`'s.
#![tactic(auto)]

mod listen;
mod listened;
mod program;

pub use listen::serve;
pub use listened::Listened;
pub use program::start;
