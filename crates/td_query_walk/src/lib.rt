//! What holds of each visit of a query and of what it passes on, as functions that do nothing: each one's contract is
//! the law (OMG's Trading Object Service, "Policies" and "Link Follow Behavior").
#![tactic(auto)]

mod answers;
mod examples;
mod faults;
mod gathering;
mod orders;
mod sub_queries;
mod walks;

pub use answers::{answers_are_one, failed_steps_give_nothing};
pub use examples::{
    worked_answers, worked_beginnings, worked_evaluations, worked_orders, worked_proxies,
    worked_resolving, worked_visits, worked_walks,
};
pub use faults::{failures_are_faults, faults_are_counted, worked_faults};
pub use gathering::{asking_on_would_be_cut, full_visits_ask_nobody};
pub use orders::{paths_ask_once, searches_ask_in_order, walks_step_in_order};
pub use sub_queries::{
    sub_queries_along_a_path, sub_queries_over_a_link, sub_queries_to_a_proxy,
    sub_queries_with_passed_policies,
};
pub use walks::{
    identifiers_are_carried, identifiers_are_stated, queries_are_passed_on, visits_end,
    visits_reach_no_farther, walks_are_asked, walks_end,
};
