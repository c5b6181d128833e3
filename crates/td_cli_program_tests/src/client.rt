//! Calls, what is gathered of them, and a client, over a wire in memory.

mod elsewhere;
mod messages;
mod queries;
mod rows;
mod versions;
