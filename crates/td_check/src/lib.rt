//! What a server's file opens, told line by line: of each trader its name, how many types, offers and links it has, and
//! the references of its objects as text.
#![tactic(auto)]

mod checking;
mod counting;
mod laws;
mod objects;

pub use checking::check_lines;
pub use laws::worked_lines;
