//! Tests of sessions whose server shares a desk of iterators: whole messages of several connections, their replies and
//! what is noted of them. The bytes come from the standards' rules.
#![tactic(auto)]

#[cfg(test)]
mod connection;
#[cfg(test)]
mod elsewhere;
#[cfg(test)]
mod journals;
#[cfg(test)]
mod many;
#[cfg(test)]
mod memory;
#[cfg(test)]
mod opening;
#[cfg(test)]
mod rows;
#[cfg(test)]
mod threads;
#[cfg(test)]
mod turns;
