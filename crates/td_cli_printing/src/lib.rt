//! The lines that the client's program prints: values, properties, offers, limits, names and exceptions.
#![tactic(auto)]

mod answers;
mod laws;
mod names;
mod offers;
mod putting;
mod types;
mod values;

pub use answers::{put_answer, put_found};
pub use laws::values_are_printed_as_they_are_written;
