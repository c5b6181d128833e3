//! What holds of the opening of every generated file, as a function that does nothing: its contract is the law.
#![tactic(auto)]

mod laws;

pub use laws::generated_files_open;
