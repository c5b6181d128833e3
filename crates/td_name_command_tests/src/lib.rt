//! Tests of the program that serves naming contexts.
#![tactic(auto)]

#[cfg(test)]
mod runs;
