//! Tests of td_walk, td_visit, td_peers, td_file and td_fed: what a visit passes on, asks and answers, peers that
//! answer by a script, servers' files, and walks through the traders of a file.
#![tactic(auto)]

#[cfg(test)]
mod checking;
#[cfg(test)]
mod counting;
#[cfg(test)]
mod faults;
#[cfg(test)]
mod files_tests;
#[cfg(test)]
mod looking;
#[cfg(test)]
mod making;
#[cfg(test)]
mod passing;
#[cfg(test)]
mod peers_tests;
#[cfg(test)]
mod playing;
#[cfg(test)]
mod resolve_tests;
#[cfg(test)]
mod resolving;
#[cfg(test)]
mod scripts;
#[cfg(test)]
mod serving;
#[cfg(test)]
mod sub_query_tests;
#[cfg(test)]
mod visit_tests;
#[cfg(test)]
mod visiting;
#[cfg(test)]
mod walk_tests;
#[cfg(test)]
mod walking;
#[cfg(test)]
mod words;
