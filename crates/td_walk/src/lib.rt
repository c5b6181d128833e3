//! One visit of a query at a trader: what its dynamic properties resolve to, which questions it asks, in which
//! order, what it passes on to other traders, and what it answers (OMG's Trading Object Service).
#![tactic(auto)]

mod answer;
mod call_note;
mod dynamic;
mod evaluating;
mod evaluation;
mod fault;
mod found;
mod gathering;
mod laws;
mod left;
mod passing;
mod peers;
mod resolving;
mod sub_query;
mod trace;

pub use answer::{Next, StepAnswer, SubAnswer};
pub use call_note::CallNote;
pub use dynamic::LONGEST_VALUE;
pub use evaluating::{evaluate_each, evaluate_named};
pub use evaluation::Evaluation;
pub use fault::PeerFault;
pub use found::Found;
pub use gathering::Gathered;
pub use laws::{worked_following, worked_passing};
pub use left::Left;
pub use peers::Peers;
pub use resolving::resolved;
pub use sub_query::{
    fewer_wanted, follows, has_hops, is_full, sub_query_for_link, sub_query_for_path,
    sub_query_for_proxy, wanted_behind,
};
pub use trace::{Address, Trace, TraceItem, Visit};
