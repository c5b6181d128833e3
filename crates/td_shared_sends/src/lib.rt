//! What a session over a shared desk of iterators calls it through, and what it notes, may go to another thread: lemmas
//! alone.
#![tactic(auto)]
