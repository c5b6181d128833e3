//! Tests of td_out, td_wire, td_giop and td_marks: what is outside, connections, messages, and marks.
#![tactic(auto)]

#[cfg(test)]
mod endless_net;
#[cfg(test)]
mod fake_files;
#[cfg(test)]
mod framing;
#[cfg(test)]
mod heads;
#[cfg(test)]
mod in_memory;
#[cfg(test)]
mod interrupted;
#[cfg(test)]
mod later_clock;
#[cfg(test)]
mod limits;
#[cfg(test)]
mod long_texts;
#[cfg(test)]
mod outside;
#[cfg(test)]
mod over_tcp;
#[cfg(test)]
mod pool;
#[cfg(test)]
mod ring;
#[cfg(test)]
mod support;
