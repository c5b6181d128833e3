//! From the words of a command line to the call of an object: references, numbers, rules, properties and types in their
//! forms.
#![tactic(auto)]

mod cutting;
mod fault;
mod given;
mod making;
mod policies;
mod properties;
mod query;
mod references;
mod request;
mod types;

pub use fault::AskFault;
pub use making::Asking;
pub use request::asking_of;
