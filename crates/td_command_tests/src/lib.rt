//! Tests of the program's commands.
#![tactic(auto)]

#[cfg(test)]
mod commands;
#[cfg(test)]
mod outside;
#[cfg(test)]
mod printed;
