//! Tests of the desk on which connections keep iterators together.
#![tactic(auto)]

#[cfg(test)]
mod desks;
#[cfg(test)]
mod making;
#[cfg(test)]
mod shared;
