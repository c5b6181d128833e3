//! Tests of the common data representation, of the lists over vectors, and of formats.
#![tactic(auto)]

#[cfg(test)]
mod formats;
#[cfg(test)]
mod items;
