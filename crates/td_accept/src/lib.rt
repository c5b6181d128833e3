//! Where a server's visitors come from: the trait of an acceptor, which is bound to an address and gives one visitor
//! after the other, an acceptor in memory, which tells its content, and one over TCP, which tells nothing of it. Each
//! session of a visitor is served between the two calls of a gate. A visitor can be limited before its session: it is
//! served briefly then, and its session calls no peer.
#![tactic(auto)]

mod accept;
mod accept_fault;
mod client_sink;
mod client_source;
mod client_wire;
mod connection;
mod gate;
mod mem_accept;
mod refusable_wire;
mod session_limit;
mod tcp_accept;
mod tcp_sink;
mod tcp_source;
mod visitor;

pub use accept::Accept;
pub use client_sink::ClientSink;
pub use client_source::ClientSource;
pub use client_wire::ClientWire;
pub use gate::{Gate, NoGate};
pub use mem_accept::{Endpoint, MemAccept};
pub use refusable_wire::RefusableWire;
pub use tcp_accept::TcpAccept;
pub use tcp_sink::TcpSink;
pub use tcp_source::TcpSource;
pub use visitor::{Limited, Visitor};
