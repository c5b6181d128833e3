//! The General Inter-ORB Protocol (GIOP) 1.0 and 1.1, without fragments: messages out of a stream, message heads, and
//! writers of both.
#![tactic(auto)]

mod fault;
mod framer;
mod head;
mod header;
mod laws;
mod limit;
pub mod message_type;
mod raw;
mod write;

pub use fault::FrameFault;
pub use framer::Framer;
pub use head::{
    ReplyHead, RequestHead, read_cancel, read_locate, read_locate_reply, read_reply, read_request,
};
pub use header::{HEADER_SIZE, NEWEST_MINOR};
pub use laws::{
    front_is_message, fronts_go_on, header_is_judged, heads_are_read, heads_take_no_memory,
    one_cut, sealed_is_whole, written_is_read,
};
pub use limit::{CLIENT_LIMIT, SERVER_LIMIT};
pub use raw::Raw;
pub use write::{seal, start_reply, start_request, write_locate, write_locate_reply, write_plain};
