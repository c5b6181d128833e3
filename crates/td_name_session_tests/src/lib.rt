//! Tests of sessions of naming contexts: whole messages, their replies and their points.
#![tactic(auto)]

#[cfg(test)]
mod broken;
#[cfg(test)]
mod iterators;
#[cfg(test)]
mod lines;
#[cfg(test)]
mod sessions;
#[cfg(test)]
mod vectors;
