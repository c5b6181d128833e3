//! Connections to peers: the trait of a wire, which connects to one peer at a time, a wire in memory, which tells
//! its content, and one over TCP, which tells nothing of it, with the pool of connections that it may keep.
#![tactic(auto)]

mod held;
mod mem_wire;
mod pool;
mod tcp_call;
mod tcp_connection;
mod tcp_wire;
mod unreachable;
mod wire;

pub use mem_wire::MemWire;
pub use pool::ConnectionPool;
pub use tcp_wire::TcpWire;
pub use wire::Wire;
