//! Tests of `listen FILE shared`: whole servers in memory, with their visitors on threads.
#![tactic(auto)]

#[cfg(test)]
mod messages;
#[cfg(test)]
mod statuses;
#[cfg(test)]
mod visitors;
