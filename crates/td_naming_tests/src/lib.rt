//! Tests of td_naming: calls through the trait, what is seen after each, and what is remembered of them.
#![tactic(auto)]

#[cfg(test)]
mod calls;
#[cfg(test)]
mod histories;
