//! Tests of the operations of a trader's objects.
#![tactic(auto)]

#[cfg(test)]
mod calls;
#[cfg(test)]
mod exceptions;
#[cfg(test)]
mod lines;
#[cfg(test)]
mod links;
#[cfg(test)]
mod replies;
#[cfg(test)]
mod vectors;
