//! Printing constraints and preferences.

ghost use Rattle.std.specs.Prelude.{◌≡◌, [], IfOk, OnOk};
ghost use Rattle.td_lang.specs.Printing.{expr_text, put};
ghost use Rattle.td_lang.specs.PrintedTexts.{constraint_text, preference_text};

use crate::expr::{Constraint, Preference};
use crate::printer::{print, put_keyword};
use crate::token::Keyword;
use std::alloc::Global;
use td_cdr::{Memory, Text};

/// A constraint as text: an operand in parentheses exactly where the grammar doesn't have its form in
/// that place, single spaces between tokens, and a backslash before a reserved name. What is printed is
/// read back as the same tree where its names are identifiers, none of its numbers is the least `i64`,
/// the text has at most 4,096 bytes, and at most 64 parentheses are open anywhere.
///
/// # Errors
///
/// `Memory` only when out of memory.
pub fn print_constraint(alloc: Global, constraint: &Constraint) -> Result<Text, Memory>
    ensures { IfOk result (λ text. text ≡ constraint_text constraint.now) }
{
    let mut out = Vec::new(alloc);
    if let Constraint::Is(e) = constraint {
        print(alloc, &mut out, e, 1)?;
    }
    Ok(Text::from_vec(out))
}

/// A preference as text, in the form of `print_constraint` and with its conditions.
///
/// # Errors
///
/// `Memory` only when out of memory.
pub fn print_preference(alloc: Global, preference: &Preference) -> Result<Text, Memory>
    ensures { IfOk result (λ text. text ≡ preference_text preference.now) }
{
    let mut out = Vec::new(alloc);
    put_preference(alloc, &mut out, preference)?;
    Ok(Text::from_vec(out))
}

fn put_preference(alloc: Global, out: &mut Vec<u8>, preference: &Preference) -> Result<(), Memory>
    requires { out.old.items ≡ [] }
    ensures { OnOk result (out.new.items ≡ preference_text preference.now) }
{
    match preference {
        Preference::Empty => Ok(()),
        Preference::First => put_keyword(out, Keyword::First),
        Preference::Random => put_keyword(out, Keyword::Random),
        Preference::Min(e) => {
            put_keyword(out, Keyword::Min)?;
            print(alloc, out, e, 1)
        }
        Preference::Max(e) => {
            put_keyword(out, Keyword::Max)?;
            print(alloc, out, e, 1)
        }
        Preference::With(e) => {
            put_keyword(out, Keyword::With)?;
            print(alloc, out, e, 1)
        }
    }
}
