//! Tests of naming contexts that sessions share.
#![tactic(auto)]

#[cfg(test)]
mod calls;
#[cfg(test)]
mod sharing;
#[cfg(test)]
mod threads;
