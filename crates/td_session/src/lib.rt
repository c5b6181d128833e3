//! A session: the traders' servant of a connection, over any traders, peers, words and journal, and the transport
//! over it.
#![tactic(auto)]

mod answering;
mod laws;
mod request;
mod room;
mod sending;
mod servant;
mod session;

pub use laws::all_messages_are_served;
pub use room::Room;
pub use servant::TraderServant;
pub use session::serve_connection;
pub use td_stream::{Cause, End};
