//! Constraints, preferences and recipes as they are read and printed.

mod constraints;
mod preferences;
mod printing;
mod recipes;
mod refusals;
pub(crate) mod support;
