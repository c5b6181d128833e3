//! Two kinds of server over one accept loop: sessions that share a roll of tickets, and sessions that share nothing and
//! send a greeting; and tests of both.
#![tactic(auto)]

mod ended;
mod greetings;
mod tickets;

pub use ended::EndedSessions;
pub use greetings::serve_greetings;
pub use tickets::{Noted, Roll, serve_tickets};

#[cfg(test)]
mod runs;
