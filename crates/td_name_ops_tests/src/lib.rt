//! Tests of the operations of naming contexts and of binding iterators.
#![tactic(auto)]

#[cfg(test)]
mod calls;
#[cfg(test)]
mod lines;
#[cfg(test)]
mod outcomes;
#[cfg(test)]
mod telling;
#[cfg(test)]
mod vectors;
