//! Tests of td_call, td_remote_query, td_client and the client's program, over a wire and sinks in memory.
#![tactic(auto)]

#[cfg(test)]
mod client;
#[cfg(test)]
mod messages;
#[cfg(test)]
mod refusals;
#[cfg(test)]
mod running;
#[cfg(test)]
mod uses;
#[cfg(test)]
mod wires;
