//! The attributes of a trader, and the policies of an importer (OMG's Trading Object Service,
//! "Attributes" and "Policies").
#![tactic(auto)]

mod attributes;
mod codes;
mod effective;
mod fault;
mod laws;
mod reading;
mod rules;
mod stated;
mod values;
mod writing;

pub use attributes::{Attributes, OwnReferences, default_attributes};
pub use codes::{is_rule, octets_code, rule_code, texts_code};
pub use effective::{Effective, effective_of};
pub use fault::PolicyFault;
pub use laws::{
    each_policy_states_its_field, effective_values_are_bounded, followed_rules_are_bounded,
    passed_on_rules_are_bounded, policies_never_run_out_of_memory, the_first_bad_policy_decides,
    written_policies_are_read_back,
};
pub use reading::read_policies;
pub use rules::{follow, lesser, pass_on};
pub use stated::Stated;
pub use values::MOST_NAMES;
pub use writing::{number_policy, octets_policy, rule_policy, texts_policy, truth_policy};
