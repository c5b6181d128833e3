//! Tests of td_net: schedules of networks whose traders a server's file tells.
#![tactic(auto)]

#[cfg(test)]
mod events;
#[cfg(test)]
mod making;
#[cfg(test)]
mod queries;
#[cfg(test)]
mod schedule_tests;
#[cfg(test)]
mod scripts;
#[cfg(test)]
mod telling;
