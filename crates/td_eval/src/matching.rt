//! Whether an offer's properties are what a constraint asks for (Trading Object Service, "The Constraint
//! Language").

ghost use Rattle.std.specs.Prelude.{◌≡◌, Ok};
ghost use Rattle.td_eval.specs.Values.{matches_constraint};

use crate::evaluation::truth_of;
use td_cdr::{List, Memory};
use td_lang::Constraint;
use td_value::Property;

/// Whether the constraint matches: it is empty, or its value is TRUE. It takes no memory.
///
/// # Errors
///
/// None: it answers `Ok` always.
pub fn matches(constraint: &Constraint, map: &List<Property>) -> Result<bool, Memory>
    ensures { result ≡ Ok (matches_constraint map.now constraint.now) }
{
    Ok(is_matching(constraint, map.as_slice()))
}

#[tactic(auto, using(crate::proofs::Truths::is_matching))]
fn is_matching(constraint: &Constraint, map: &[Property]) -> bool
    ensures { result ≡ matches_constraint map.now constraint.now }
{
    match constraint {
        Constraint::Empty => true,
        Constraint::Is(asked) => truth_of(asked, map).unwrap_or(false),
    }
}
