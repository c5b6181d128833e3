//! The trading service's languages: constraints, preferences and the recipes of proxy offers (OMG's
//! Trading Object Service, appendix "OMG Constraint Language BNF").
#![tactic(auto)]

mod constraint;
mod expr;
mod fault;
pub mod laws;
mod lexer;
mod machine;
mod preference;
pub mod preference_laws;
mod print;
pub mod print_laws;
mod printer;
mod reader;
mod recipe;
pub mod recipe_laws;
mod token;

pub use constraint::read_constraint;
pub use expr::{Constraint, Expr, Op, Part, Preference, Recipe};
pub use fault::LangFault;
pub use preference::read_preference;
pub use print::{print_constraint, print_preference};
pub use recipe::read_recipe;
