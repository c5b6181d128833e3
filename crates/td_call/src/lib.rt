//! One call of an object over a connection: the Request that is written, and what the bytes come to that the
//! connection gives (CORBA, chapter on General Inter-ORB Protocol).
#![tactic(auto)]

mod calling;
mod exchange;
mod fetching;
mod front;
mod reading;
mod request;
mod sending;

pub use calling::{call_over, connect, evaluate_over, finish, profile_of};
pub use exchange::exchange_call;
