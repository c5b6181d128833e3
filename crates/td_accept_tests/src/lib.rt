//! Tests of td_accept, td_workers and td_cell: where visitors come from and how they are limited, jobs on threads, and
//! turns on what threads share.
#![tactic(auto)]

#[cfg(test)]
mod cell;
#[cfg(test)]
mod fake_net;
#[cfg(test)]
mod in_memory;
#[cfg(test)]
mod limited;
#[cfg(test)]
mod over_tcp;
#[cfg(test)]
mod sent_away;
#[cfg(test)]
mod shortage;
#[cfg(test)]
mod sinks;
#[cfg(test)]
mod support;
#[cfg(test)]
mod workers;
