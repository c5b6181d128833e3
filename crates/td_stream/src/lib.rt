//! The transport of a server: the bytes of a client in, the bytes of the replies out, over any servant that
//! answers one whole message at a time. It knows GIOP's messages and their heads, and no object.
#![tactic(auto)]

mod end;
mod front;
mod head;
mod held;
mod laws;
mod outbox;
mod piece;
mod servant;
mod transport;

pub use end::{Cause, End};
pub use head::Head;
pub use held::SendsHeld;
pub use laws::all_messages_are_answered;
pub use servant::Servant;
pub use transport::serve_stream;
