//! Tests of the commands on logs.
#![tactic(auto)]

#[cfg(test)]
mod commands;
