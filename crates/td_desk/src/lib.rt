//! The desk on which connections keep iterators together: a book that passes act on in turns. Contracts see the whole
//! history of its acts, which takes no memory.
#![tactic(auto)]

mod act;
mod book;
mod event;
mod fault;
pub mod laws;
mod places;
mod shared;

pub use act::{Act, Begun, Reply};
pub use book::DeskBook;
pub use event::Event;
pub use fault::DeskFault;
pub use shared::{DeskPass, SharedDesk};
