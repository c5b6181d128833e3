//! Tests of sessions, from the bytes of a client to the bytes of the replies. The bytes come from the standards' rules.
#![tactic(auto)]

#[cfg(test)]
mod administration;
#[cfg(test)]
mod answering;
#[cfg(test)]
mod broken;
#[cfg(test)]
mod broken_input;
#[cfg(test)]
mod cities;
#[cfg(test)]
mod cities_file;
#[cfg(test)]
mod cut_tests;
#[cfg(test)]
mod joined;
#[cfg(test)]
mod journal;
#[cfg(test)]
mod journals;
#[cfg(test)]
mod linking;
#[cfg(test)]
mod offering;
#[cfg(test)]
mod opening;
#[cfg(test)]
mod plain;
#[cfg(test)]
mod recursive;
#[cfg(test)]
mod repository;
#[cfg(test)]
mod serving;
#[cfg(test)]
mod session_tests;
#[cfg(test)]
mod story;
#[cfg(test)]
mod together;
#[cfg(test)]
mod versions;
