//! Which trader of a group a reference or a name stands for (OMG's Trading Object Service, "Link Follow Behavior").
#![tactic(auto)]

mod target;

pub use target::{home_key, inside_group, place_of, register_inside};
