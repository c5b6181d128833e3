//! Offers and proxy offers of one trader: what each operation on them comes to (OMG's Trading Object Service,
//! interfaces Register and Proxy).
#![tactic(auto)]

mod change_reply;
mod history;
mod ids;
mod named;
mod properties;
mod proxies;
mod refusal;
mod register;
mod typing;

pub use change_reply::ChangeReply;
pub use history::{Accepted, entry_of};
pub use ids::{id_of, number_in};
pub use named::{check_interface, check_open, type_properties};
pub use properties::{
    carries, check_missing, check_name, check_properties, check_size, check_value, push_copy,
};
pub use proxies::{describe_proxy, withdraw_proxy};
pub use refusal::{
    Fault, Refusal, illegal_type, invalid_lookup, raised, refusal_outcome, unknown_type,
};
pub use register::{describe, is_proxy, ordinary, withdraw};
pub use typing::mode_of;
