//! Tests of td_lines and td_iter: the lines of a server's file, and iterators.
#![tactic(auto)]

#[cfg(test)]
mod desks;
#[cfg(test)]
mod entries;
#[cfg(test)]
mod ids;
#[cfg(test)]
mod making;
#[cfg(test)]
mod offers;
#[cfg(test)]
mod refusals;
