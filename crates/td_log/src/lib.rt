//! The lines of a log of a network of traders: what each records, told by its bytes and the names of the traders alone.
//!
//! LF ends a line, and the last LF may be missing. One space stands between two words. Messages are whole GIOP messages
//! in hexadecimal digits.
#![tactic(auto)]

mod exchange;
mod keyword;
mod laws;
mod line;
mod lines;
mod message;
mod reading;
mod replies;
mod requests;
mod values;
mod words;

pub use laws::worked_lines;
pub use line::Line;
pub use lines::next_line;
pub use message::{Recorded, ReplyForm, Version};
pub use reading::{read_line, read_words};
