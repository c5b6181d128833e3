//! Tests of a server's visitors, each with a session of its own.
#![tactic(auto)]

#[cfg(test)]
mod beside;
#[cfg(test)]
mod closes;
#[cfg(test)]
mod gates;
#[cfg(test)]
mod messages;
#[cfg(test)]
mod overlap;
#[cfg(test)]
mod overlapping;
#[cfg(test)]
mod statuses;
#[cfg(test)]
mod visitors;
