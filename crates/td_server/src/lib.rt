//! A server (CORBA's GIOP over many connections), whatever its sessions share: each visitor's session is served by a
//! worker of its own, through a pass of its own over what all share. When it has ended, what it has seen and done is
//! taken in, and it is handed on.
#![tactic(auto)]

mod pass;
mod reception;
mod service;
mod serving;
mod session;

pub use pass::Pass;
pub use service::Service;
pub use serving::serve_all;
