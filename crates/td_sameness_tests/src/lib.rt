//! Tests of td_sameness: graphs against graphs, and against TypeCodes that are none.
#![tactic(auto)]

#[cfg(test)]
mod anys;
#[cfg(test)]
mod making;
#[cfg(test)]
mod outermost;
#[cfg(test)]
mod trees;
