//! What a query and names of links are answered with over a group of traders, and what stands in place of an answer
//! when memory runs out (OMG's Trading Object Service, interfaces Lookup, query, and Register, resolve).
#![tactic(auto)]

mod choosing;
mod laws;
mod naming;
mod no_memory;
mod offers;
mod querying;

pub use choosing::choose_each;
pub use laws::worked_lookups;
pub use naming::answer_resolve;
pub use no_memory::{entry_at_no_memory, no_memory_outcome};
pub use querying::{LookupQuery, answer_query};
