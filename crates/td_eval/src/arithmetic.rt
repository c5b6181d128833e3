//! Arithmetic on fractions (Trading Object Service, "The Constraint Language").

ghost use Rattle.std.specs.Prelude.{◌≡◌, ◌+ℤ◌, ◌-ℤ◌, ◌*ℤ◌, ◌^◌, ◌≤◌, unsigned_abs, option_map};
ghost use Rattle.td_eval.specs.Fractions.{fraction, with_denominator_turned, sum, difference, product, quotient};
ghost use Rattle.td_eval.specs.Operands.{view};

use crate::simple::Operand;

/// The size from which a numerator and a denominator are out of range.
const LIMIT: i128 = 1 << 63;

/// The fraction, where it is in range.
#[tactic(auto, unfolding(crate::specs::Fractions::fraction))]
pub(crate) fn fraction(numerator: i128, denominator: i128) -> Option<Operand<'static>>
    ensures { option_map view result ≡ fraction numerator denominator }
{
    if -LIMIT < numerator && numerator < LIMIT && 0 < denominator && denominator < LIMIT {
        Some(Operand::Number(numerator as i64, denominator as i64))
    } else {
        None
    }
}

/// The fraction, both signs turned where the denominator is negative.
#[tactic(auto, unfolding(crate::specs::Fractions::with_denominator_turned), using(crate::proofs::Sizes::opposite_fits))]
fn turned(numerator: i128, denominator: i128) -> Option<Operand<'static>>
    requires above { unsigned_abs numerator ≤ 2 ^ 126 }
    requires below { unsigned_abs denominator ≤ 2 ^ 126 }
    ensures { option_map view result ≡ with_denominator_turned numerator denominator }
{
    if denominator < 0 {
        fraction(-numerator, -denominator)
    } else {
        fraction(numerator, denominator)
    }
}

/// The product of two numbers, which has room in 128 bits.
#[tactic(auto, using(crate::proofs::Sizes::product_fits, crate::proofs::Sizes::product_size))]
pub(crate) fn times(a: i64, b: i64) -> i128
    ensures product { result ≡ a *ℤ b }
    ensures size { unsigned_abs result ≤ 2 ^ 126 }
{
    i128::from(a) * i128::from(b)
}

pub(crate) fn sum(left: Operand, right: Operand) -> Option<Operand<'static>>
    ensures { option_map view result ≡ sum (view left.entry) (view right.entry) }
{
    match (left, right) {
        (Operand::Number(a, b), Operand::Number(c, d)) => {
            sum_of(times(a, d), times(c, b), times(b, d))
        }
        _ => None,
    }
}

pub(crate) fn difference(left: Operand, right: Operand) -> Option<Operand<'static>>
    ensures { option_map view result ≡ difference (view left.entry) (view right.entry) }
{
    match (left, right) {
        (Operand::Number(a, b), Operand::Number(c, d)) => {
            difference_of(times(a, d), times(c, b), times(b, d))
        }
        _ => None,
    }
}

pub(crate) fn product(left: Operand, right: Operand) -> Option<Operand<'static>>
    ensures { option_map view result ≡ product (view left.entry) (view right.entry) }
{
    match (left, right) {
        (Operand::Number(a, b), Operand::Number(c, d)) => fraction(times(a, c), times(b, d)),
        _ => None,
    }
}

/// A divisor of 0 leaves 0 for a denominator, which has no value.
pub(crate) fn quotient(left: Operand, right: Operand) -> Option<Operand<'static>>
    ensures { option_map view result ≡ quotient (view left.entry) (view right.entry) }
{
    match (left, right) {
        (Operand::Number(a, b), Operand::Number(c, d)) => { turned(times(a, d), times(b, c)) }
        _ => None,
    }
}

/// The fraction with this sum for a numerator: one that needs more than 128 bits is out of range.
#[tactic(auto, using(crate::proofs::Sizes::unfit))]
fn sum_of(left: i128, right: i128, denominator: i128) -> Option<Operand<'static>>
    ensures { option_map view result ≡ fraction (left +ℤ right) denominator }
{
    match left.checked_add(right) {
        None => None,
        Some(numerator) => fraction(numerator, denominator),
    }
}

/// The fraction with this difference for a numerator: one that needs more than 128 bits is out of range.
#[tactic(auto, using(crate::proofs::Sizes::unfit))]
fn difference_of(left: i128, right: i128, denominator: i128) -> Option<Operand<'static>>
    ensures { option_map view result ≡ fraction (left -ℤ right) denominator }
{
    match left.checked_sub(right) {
        None => None,
        Some(numerator) => fraction(numerator, denominator),
    }
}
