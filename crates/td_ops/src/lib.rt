//! The operations of a trader's objects: their parameters, results and exceptions as bytes (OMG's
//! Trading Object Service, modules CosTrading and CosTradingRepos).
#![tactic(auto)]

mod answers;
mod attribute;
mod call;
mod called;
mod copying;
mod fault;
mod finding;
mod laws;
mod names;
mod operation;
mod outcome;
mod reading;
mod reading_admin;
mod reading_links;
mod reading_register;
mod reading_types;
mod replies;
mod shape;
mod writing;

pub use answers::read_outcome;
pub use attribute::{
    Attribute, FollowAttribute, NumberAttribute, ReferenceAttribute, TruthAttribute,
};
pub use call::{AddLink, Call, Change, IterCall, Look, Query};
pub use called::{operation_in, operation_of};
pub use fault::OpsFault;
pub use finding::operation_named;
pub use laws::{
    bodies_are_refused, calls_are_read_back, calls_are_spelled, exceptions_are_read_back,
    operations_are_named, outcomes_are_read_back,
};
pub use names::is_among;
pub use operation::{
    AdminOperation, IteratorOperation, LinkOperation, Operation, ProxyOperation, RegisterOperation,
    TypesOperation,
};
pub use outcome::{Answered, COMPLETED_MAYBE, COMPLETED_NO, Outcome, Reply, SystemKind};
pub use reading::read_call;
pub use replies::{status_of, write_outcome};
pub use shape::Shape;
pub use td_exceptions::{UserException, user_id};
pub use td_value::SpecifiedProps as Desired;
pub use writing::write_call;
