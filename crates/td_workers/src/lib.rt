//! Workers: the jobs of a job source, each done on a thread of its own. At most 64 are done at once so; a job beyond
//! them, or one for which no thread can be started, is done by the thread that takes the jobs in.
#![tactic(auto)]

mod slots;
mod source;
mod work;
mod worker;

pub use source::{Job, JobSource, Stop};
pub use work::work_all;
