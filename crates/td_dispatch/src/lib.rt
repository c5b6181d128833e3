//! One Request of a session: what it comes to, the bytes of its reply, and what the journal notes of it.
#![tactic(auto)]

mod backend;
mod backend_ref;
mod finishing;
mod laws;
mod refusing;
mod replies;
mod reply_to;
mod serving;
mod writing;

pub use backend::Backend;
pub use backend_ref::BackendRef;
pub use laws::worked_replies;
pub use replies::Replies;
pub use reply_to::ReplyTo;
pub use serving::serve_request;
