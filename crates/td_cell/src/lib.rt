//! A book that the threads of a server share: each act on it is a turn of its own, and a pass keeps what its holder has
//! seen and done. What a book is, an act, and what may come after what, is its own matter (`Book`).
#![tactic(auto)]

mod book;
mod cell;
mod pass;
mod rule;

pub use book::Book;
pub use cell::Cell;
pub use pass::{Mark, Pass, View};
