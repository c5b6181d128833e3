//! Turns on a book that threads share.

mod tally;
mod turn_tests;
