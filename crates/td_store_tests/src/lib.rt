//! Tests of td_types, td_policy and td_store: service types, policies and attributes, offers and links.
#![tactic(auto)]

#[cfg(test)]
mod candidates;
#[cfg(test)]
mod lines;
#[cfg(test)]
mod links;
#[cfg(test)]
mod making;
#[cfg(test)]
mod many;
#[cfg(test)]
mod offers;
#[cfg(test)]
mod places;
#[cfg(test)]
mod policies;
#[cfg(test)]
mod telling;
#[cfg(test)]
mod types;
#[cfg(test)]
mod words;
