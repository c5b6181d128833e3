//! The generator of server's files: traders in a ring, each with two types, ten offers and two links. It gives groups
//! of any size to try a server with.
#![tactic(auto)]

mod generating;
mod laws;

pub use generating::make_file;
pub use laws::worked_files;
