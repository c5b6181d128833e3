//! Tests of td_log and td_audit: logs over the traders of a file, and the logs that are made of generated files.
#![tactic(auto)]

#[cfg(test)]
mod auditing;
#[cfg(test)]
mod batches;
#[cfg(test)]
mod checking;
#[cfg(test)]
mod logs;
#[cfg(test)]
mod made;
#[cfg(test)]
mod messages;
#[cfg(test)]
mod stories;
