//! Tests of tc_graph and tc_edges: graphs as lines of text, which of them are the same, what is refused, and which
//! edges are indirections.
#![tactic(auto)]

#[cfg(test)]
mod chains;
#[cfg(test)]
mod edges;
#[cfg(test)]
mod faults;
#[cfg(test)]
mod making;
#[cfg(test)]
mod parts;
#[cfg(test)]
mod sameness;
