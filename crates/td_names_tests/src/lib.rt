//! Tests of td_names: calls of naming contexts, their refusals in order, the limits, and references.
#![tactic(auto)]

#[cfg(test)]
mod calls;
#[cfg(test)]
mod limits;
#[cfg(test)]
mod lines;
#[cfg(test)]
mod references;
#[cfg(test)]
mod telling;
#[cfg(test)]
mod words;
