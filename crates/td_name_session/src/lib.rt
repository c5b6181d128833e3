//! A session of naming contexts: the servant of a connection, and the transport over it (OMG's CORBAservices, Naming
//! Service, version 1.0; CORBA, chapter on General Inter-ORB Protocol).
#![tactic(auto)]

mod answer;
mod answering;
mod calls;
mod finishing;
mod iterating;
mod iterators;
mod judging;
mod keys;
mod laws;
mod listing;
mod replies;
mod reply_to;
mod room;
mod servant;
mod serving;
mod session;
mod writing;

pub use judging::Judged;
pub use keys::{NameKey, iterator_reference, read_name_key};
pub use laws::{
    all_messages_are_served, names_are_resolved, points_are_places, refusals_change_nothing,
    worked_requests,
};
pub use replies::Replies;
pub use reply_to::ReplyTo;
pub use room::NameRoom;
pub use session::serve_names;
pub use td_stream::{Cause, End};
