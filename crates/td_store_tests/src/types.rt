//! Service types, policies and attributes.

pub(crate) mod attributes;
pub(crate) mod calls;
pub(crate) mod effective;
mod limits;
pub(crate) mod reading;
pub(crate) mod rules;
mod worked;
