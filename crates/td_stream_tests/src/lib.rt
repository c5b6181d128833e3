//! A servant that sends each Request's body back, and tests of streams over it.
#![tactic(auto)]

mod echo;

pub use echo::{Echo, serve_echo};

#[cfg(test)]
mod counting;
#[cfg(test)]
mod ends;
#[cfg(test)]
mod limits;
#[cfg(test)]
mod messages;
#[cfg(test)]
mod outside;
#[cfg(test)]
mod story;
#[cfg(test)]
mod together;
