//! Tests of the traders that sessions on threads share.
#![tactic(auto)]

#[cfg(test)]
mod sample;
#[cfg(test)]
mod sharing;
#[cfg(test)]
mod threads;
