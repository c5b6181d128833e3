//! The operations of naming contexts and of binding iterators: their parameters, results and exceptions as bytes (OMG's
//! CORBAservices, Naming Service, version 1.0, module CosNaming).
#![tactic(auto)]

mod call;
mod exceptions;
mod finding;
pub mod laws;
mod operation;
mod outcome;
mod reading;
mod references;
mod writing;

pub use call::{IteratorCall, NameCall};
pub use finding::operation_named;
pub use operation::{ContextOperation, IteratorOperation, NameKind, NameOperation};
pub use outcome::{NameOutcome, NameResult};
pub use reading::read_name_call;
pub use writing::{is_plain, name_status, put_next_one, write_name_outcome};
