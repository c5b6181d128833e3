//! Tests of the trading service's languages, of what they say over properties, and of random words.
#![tactic(auto)]

#[cfg(test)]
mod lang;
#[cfg(test)]
mod making;
#[cfg(test)]
mod ranking_tests;
#[cfg(test)]
mod recipe_tests;
#[cfg(test)]
mod value_tests;
#[cfg(test)]
mod words_tests;
