//! Naming contexts and what is bound in them, by the rules of CosNaming::NamingContext (OMG's CORBAservices, Naming
//! Service, version 1.0).
#![tactic(auto)]

mod act;
mod address;
mod binding;
mod bindings;
mod component;
mod contexts;
pub mod laws;
mod limits;
mod placing;
mod resolving;
mod spelling;
mod store;
mod walking;

pub use act::{
    MISSING_NODE, NOT_CONTEXT, NOT_OBJECT, NameAct, NameAnswer, NameException, NameRefusal,
    NameReply,
};
pub use address::{Address, context_id, context_number, context_reference, led_to};
pub use component::{NameBinding, NameComponent};
pub use limits::{name_fits, no_more_bindings, no_more_changes, no_more_contexts};
pub use store::NameStore;
