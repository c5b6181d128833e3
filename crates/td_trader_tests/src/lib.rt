//! Tests of td_register, td_changes and td_trader. A trader is asked by lines of words, each with what it answers.
#![tactic(auto)]

#[cfg(test)]
mod alone;
#[cfg(test)]
mod answers;
#[cfg(test)]
mod changes;
#[cfg(test)]
mod exporting;
#[cfg(test)]
mod lines;
#[cfg(test)]
mod modifying;
#[cfg(test)]
mod opening;
#[cfg(test)]
mod proxy_exporting;
#[cfg(test)]
mod queries;
#[cfg(test)]
mod register;
#[cfg(test)]
mod trader;
#[cfg(test)]
mod values;
