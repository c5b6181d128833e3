//! Formats with a state, for graphs whose edges may be indirections (CORBA's chapter on the General
//! Inter-ORB Protocol, "TypeCode"): what a part means may depend on where earlier parts stand. This
//! crate has definitions with their laws, and no code that runs.
#![tactic(auto)]

pub mod laws;
