//! Sessions whose server shares a desk of iterators: each is live on every connection.
#![tactic(auto)]

mod answering;
mod entry;
mod journal;
mod kept;
mod keyed;
mod past;
mod servant;
mod session;
mod sharing;

pub use entry::SharedEntry;
pub use journal::SharedJournal;
pub use kept::KeptSharedJournal;
pub use past::PastSharedJournal;
pub use session::serve_shared;
