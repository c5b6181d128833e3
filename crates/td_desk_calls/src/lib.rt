//! Requests and LocateRequests for iterators that stand on a shared desk: each is one call of the desk, and a reply.
#![tactic(auto)]

mod answering;
mod desk_call;
mod inquiring;
mod judging;
mod key;
mod laws;
mod locating;

pub use answering::answer_request;
pub use desk_call::{DeskCall, IteratorCall};
pub use judging::{Inquiry, IteratorRequest};
pub use key::iterator_key;
pub use laws::worked_calls;
pub use locating::locate;
