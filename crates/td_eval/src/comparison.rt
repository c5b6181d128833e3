//! Comparisons, and whether one text occurs in another (Trading Object Service, "The Constraint Language").

ghost use Rattle.std.specs.Prelude.{◌≡◌, Some, option_map};
ghost use Rattle.td_eval.specs.Comparing.{order_of, comparison, equals, occurs_in, occurrence};
ghost use Rattle.td_eval.specs.Operands.{view};
ghost use Rattle.td_eval.specs.Values.{asks};
ghost use Rattle.td_eval.specs.declared.simple.Simple.TheVariants.{Truth};

use crate::arithmetic::times;
use crate::simple::Operand;
use std::cmp::Ordering;
use td_lang::Op;

/// How two values of one kind are ordered.
fn order_of(left: Operand, right: Operand) -> Option<Ordering>
    ensures { result ≡ order_of (view left.entry) (view right.entry) }
{
    match (left, right) {
        (Operand::Number(a, b), Operand::Number(c, d)) => Some(times(a, d).cmp(&times(c, b))),
        (Operand::Text(s), Operand::Text(t)) => Some(s.cmp(t)),
        (Operand::Truth(p), Operand::Truth(q)) => Some(p.cmp(&q)),
        _ => None,
    }
}

/// Whether two values are of one kind and equal.
pub(crate) fn equals(left: Operand, right: Operand) -> bool
    ensures { result ≡ equals (view left.entry) (view right.entry) }
{
    match order_of(left, right) {
        None => false,
        Some(order) => order.is_eq(),
    }
}

/// What a comparison asks of the order; an operator that is none asks what `==` does.
fn asks(op: Op, order: Ordering) -> bool
    ensures { result ≡ asks op order }
{
    match op {
        Op::Ne => order.is_ne(),
        Op::Lt => order.is_lt(),
        Op::Le => order.is_le(),
        Op::Gt => order.is_gt(),
        Op::Ge => order.is_ge(),
        _ => order.is_eq(),
    }
}

/// A comparison of two values.
pub(crate) fn comparison(op: Op, left: Operand, right: Operand) -> Option<bool>
    ensures { option_map (λ t. Truth t) result
        ≡ comparison (asks op) (view left.entry) (view right.entry) }
{
    match order_of(left, right) {
        None => None,
        Some(order) => Some(asks(op, order)),
    }
}

/// Whether the left text occurs in the right one.
pub(crate) fn occurrence(left: Operand, right: Operand) -> Option<bool>
    ensures { option_map (λ t. Truth t) result ≡ occurrence (view left.entry) (view right.entry) }
{
    match (left, right) {
        (Operand::Text(part), Operand::Text(text)) => Some(occurs_in(part, text)),
        _ => None,
    }
}

/// Whether the part begins at some place of the text.
#[tactic(auto, using(crate::proofs::Occurring::occurs_here))]
fn occurs_in(part: &[u8], text: &[u8]) -> bool
    ensures { result ≡ occurs_in part.now text.now }
{
    let mut rest = text;
    'places: loop {
        if rest.starts_with(part) {
            return true;
        }
        match rest.split_first() {
            None => return false,
            Some((_first, more)) => rest = more,
        }
    }
}
