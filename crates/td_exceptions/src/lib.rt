//! The user exceptions of a trader, their repository ids and their members as bytes (OMG's Trading
//! Object Service, modules CosTrading, CosTradingDynamic and CosTradingRepos).
#![tactic(auto)]

mod exception;
mod ids;
mod laws;
mod writing;

pub use exception::UserException;
pub use ids::user_id;
pub use laws::exceptions_are_distinct;
pub use writing::put_user;
