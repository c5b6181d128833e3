//! Audits of recorded schedules of a network of traders, and schedules that are recorded (OMG's Trading Object Service,
//! "Link Follow Behavior"; the log's form is this project's own).
#![tactic(auto)]

mod answers;
mod asked;
mod auditing;
mod changes;
mod events;
mod group;
mod laws;
mod links;
mod looks;
mod making;
mod replies;
mod verdict;

pub use asked::AskedQuery;
pub use auditing::audit;
pub use laws::worked_audits;
pub use making::make_log;
pub use verdict::{Cause, Verdict};
