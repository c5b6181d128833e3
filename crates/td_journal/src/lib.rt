//! What a session notes its Requests in, an entry for each: a journal that keeps them, for who reads them, and one
//! whose entries stand in proofs alone, for a program that never does.
#![tactic(auto)]

mod journal;
mod kept;
mod past;

pub use journal::Journal;
pub use kept::KeptJournal;
pub use past::PastJournal;
