//! The names of properties that a constraint and a preference mention (Trading Object Service, "The Constraint
//! Language").

ghost use Rattle.std.specs.Prelude.{◌≡◌, IfOk, OnOk};
ghost use Rattle.std.specs.List.{list_any};
ghost use Rattle.std.specs.Str.{bytes_eq};
ghost use Rattle.td_eval.specs.Mentioning.{names_in, constraint_names, preference_names, with_name, with_names};
ghost use Rattle.td_eval.specs.Mentioning.{names_asked};

use std::alloc::Global;
use td_cdr::{List, Memory, Text, Twin};
use td_lang::{Constraint, Expr, Preference};

fn is_among(names: &[Text], name: &[u8]) -> bool
    ensures { result ≡ list_any (λ other. bytes_eq other name.now) names.now }
{
    names.iter().any(|other| other.as_slice() == name)
}

/// Adds a name, where it isn't there yet.
fn add_name(alloc: Global, names: &mut List<Text>, name: &Text) -> Result<(), Memory>
    ensures { OnOk result (names.new ≡ with_name names.old name.now) }
{
    if is_among(names.as_slice(), name.as_slice()) {
        return Ok(());
    }
    names.push(name.copy(alloc)?)
}

/// Adds the names in an expression that aren't there yet, in the order of mention.
#[tactic(auto, using(crate::proofs::Mentions::by_variant))]
fn add_names(alloc: Global, names: &mut List<Text>, e: &Expr) -> Result<(), Memory>
    ensures { OnOk result (names.new ≡ with_names names.old (names_in e.now)) }
{
    match e {
        Expr::Binary(_, first, second) => {
            add_names(alloc, names, first.get())?;
            add_names(alloc, names, second.get())
        }
        Expr::Within(item, name) => {
            add_names(alloc, names, item.get())?;
            add_name(alloc, names, name)
        }
        Expr::Not(denied) => add_names(alloc, names, denied.get()),
        Expr::Exist(name) | Expr::Name(name) => add_name(alloc, names, name),
        Expr::Number(_) | Expr::Str(_) | Expr::Truth(_) => Ok(()),
    }
}

#[tactic(auto, using(crate::proofs::Mentions::none))]
fn add_constraint(
    alloc: Global,
    names: &mut List<Text>,
    constraint: &Constraint,
) -> Result<(), Memory>
    ensures { OnOk result (names.new ≡ with_names names.old (constraint_names constraint.now)) }
{
    match constraint {
        Constraint::Empty => Ok(()),
        Constraint::Is(e) => add_names(alloc, names, e),
    }
}

#[tactic(auto, using(crate::proofs::Mentions::none))]
fn add_preference(
    alloc: Global,
    names: &mut List<Text>,
    preference: &Preference,
) -> Result<(), Memory>
    ensures { OnOk result (names.new ≡ with_names names.old (preference_names preference.now)) }
{
    match preference {
        Preference::Empty | Preference::First | Preference::Random => Ok(()),
        Preference::Min(e) | Preference::Max(e) | Preference::With(e) => {
            add_names(alloc, names, e)
        }
    }
}

/// The names of properties that the constraint and then the preference mention, in the order of mention, each
/// once. `exist` and `in` mention the name behind them.
///
/// # Errors
///
/// `Memory` only when out of memory.
#[tactic(auto, using(crate::proofs::Mentions::more))]
pub fn names_asked(
    alloc: Global,
    constraint: &Constraint,
    preference: &Preference,
) -> Result<List<Text>, Memory>
    ensures { IfOk result (λ names. names ≡ names_asked constraint.now preference.now) }
{
    let mut names = List::new(alloc);
    add_constraint(alloc, &mut names, constraint)?;
    add_preference(alloc, &mut names, preference)?;
    Ok(names)
}
