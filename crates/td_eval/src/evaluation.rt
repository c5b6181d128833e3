//! The value of an expression (Trading Object Service, "The Constraint Language"): its truth, where one is asked
//! for, and else what it is as an operand.

ghost use Rattle.std.specs.Prelude.{◌≡◌, true, false, option_map, IfOk};
ghost use Rattle.td_eval.specs.Operands.{view};
ghost use Rattle.td_eval.specs.Values.{application, is_arithmetic, is_connective, simple_value, truth_in};
ghost use Rattle.td_eval.specs.declared.simple.Simple.TheVariants.{Truth as SimpleTruth};

use crate::arithmetic::{difference, fraction, product, quotient, sum};
use crate::comparison::{comparison, occurrence};
use crate::property::{property, simple_named, within};
use crate::simple::{Operand, Simple, owned};
use std::alloc::Global;
use td_cdr::{List, Memory};
use td_lang::{Expr, Op};
use td_value::Property;

/// The truth that a value is, where it is one.
fn truth_in(found: Option<Operand>) -> Option<bool>
    ensures { result ≡ truth_in (option_map view found.entry) }
{
    match found {
        Some(Operand::Truth(truth)) => Some(truth),
        _ => None,
    }
}

/// A truth as an operand.
fn as_operand(truth: Option<bool>) -> Option<Operand<'static>>
    ensures { option_map view result ≡ option_map (λ t. SimpleTruth t) truth }
{
    match truth {
        None => None,
        Some(truth) => Some(Operand::Truth(truth)),
    }
}

/// The truth that two operands come to with an operator between them that is no connective: where one
/// occurs in the other, or how they compare. Arithmetic comes to none.
#[tactic(auto, using(crate::proofs::Truths::of_tests))]
fn tested(op: Op, left: Operand, right: Operand) -> Option<bool>
    requires { is_connective op ≡ false }
    ensures { result ≡ truth_in (application op (view left.entry) (view right.entry)) }
{
    match op {
        Op::Twiddle => occurrence(left, right),
        Op::Eq | Op::Ne | Op::Lt | Op::Le | Op::Gt | Op::Ge => comparison(op, left, right),
        Op::Add | Op::Sub | Op::Mul | Op::Div | Op::Or | Op::And => None,
    }
}

/// The number that two operands come to with an operator of arithmetic between them.
#[tactic(auto, using(crate::proofs::Truths::of_arithmetic))]
fn calculated(op: Op, left: Operand, right: Operand) -> Option<Operand<'static>>
    requires { is_arithmetic op ≡ true }
    ensures { option_map view result ≡ application op (view left.entry) (view right.entry) }
{
    match op {
        Op::Add => sum(left, right),
        Op::Sub => difference(left, right),
        Op::Mul => product(left, right),
        Op::Div => quotient(left, right),
        _ => None,
    }
}

fn is_arithmetic(op: Op) -> bool
    ensures { result ≡ is_arithmetic op }
{
    matches!(op, Op::Add | Op::Sub | Op::Mul | Op::Div)
}

/// The truth that an expression's value is, where it is one. `and` and `or` leave the right side where
/// the left one decides. It recurses as deep as the tree is high, and copies no text.
#[cycle(evaluating)]
#[tactic(auto, using(crate::proofs::Evaluating::by_variant, crate::proofs::Truths::of_truths))]
pub(crate) fn truth_of(e: &Expr, map: &[Property]) -> Option<bool>
    ensures { result ≡ truth_in (simple_value map.now e.now) }
{
    match e {
        Expr::Binary(op, first, second) => match op {
            Op::And => {
                if truth_of(first.get(), map)? {
                    truth_of(second.get(), map)
                } else {
                    Some(false)
                }
            }
            Op::Or => {
                if truth_of(first.get(), map)? {
                    Some(true)
                } else {
                    truth_of(second.get(), map)
                }
            }
            _ => {
                let left = side_of(first.get(), map)?;
                let right = side_of(second.get(), map)?;
                tested(*op, left, right)
            }
        },
        Expr::Within(item, name) => {
            let item = side_of(item.get(), map)?;
            truth_in(within(item, map, name.as_slice()))
        }
        Expr::Not(denied) => Some(!truth_of(denied.get(), map)?),
        Expr::Exist(name) => Some(property(map, name.as_slice()).is_some()),
        Expr::Name(name) => truth_in(simple_named(map, name.as_slice())),
        Expr::Number(_) => None,
        Expr::Str(_) => None,
        Expr::Truth(truth) => Some(*truth),
    }
}

/// The same as `operand_of`, of what stands beside an operator. Mostly that is a name, a number or a text,
/// whose value is taken without a call.
#[inline(always)]
#[cycle(evaluating)]
#[tactic(auto, using(crate::proofs::Evaluating::by_variant, crate::proofs::Truths::of_operands))]
fn side_of<'a>(e: &'a Expr, map: &'a [Property]) -> Option<Operand<'a>>
    ensures { option_map view result ≡ simple_value map.now e.now }
{
    match e {
        Expr::Name(name) => simple_named(map, name.as_slice()),
        Expr::Number(n) => fraction(i128::from(*n), 1),
        Expr::Str(text) => Some(Operand::Text(text.as_slice())),
        _ => operand_of(e, map),
    }
}

/// The value of an expression, where it has one and that is no list. It recurses as deep as the tree is high,
/// and copies no text.
#[cycle(evaluating)]
#[tactic(auto, using(crate::proofs::Evaluating::by_variant, crate::proofs::Truths::of_operands))]
pub(crate) fn operand_of<'a>(e: &'a Expr, map: &'a [Property]) -> Option<Operand<'a>>
    ensures { option_map view result ≡ simple_value map.now e.now }
{
    match e {
        Expr::Name(name) => simple_named(map, name.as_slice()),
        Expr::Number(n) => fraction(i128::from(*n), 1),
        Expr::Str(text) => Some(Operand::Text(text.as_slice())),
        Expr::Binary(op, first, second) => {
            if !is_arithmetic(*op) {
                return as_operand(truth_of(e, map));
            }
            let left = side_of(first.get(), map)?;
            let right = side_of(second.get(), map)?;
            calculated(*op, left, right)
        }
        Expr::Within(_, _) => as_operand(truth_of(e, map)),
        Expr::Not(_) => as_operand(truth_of(e, map)),
        Expr::Exist(_) => as_operand(truth_of(e, map)),
        Expr::Truth(truth) => Some(Operand::Truth(*truth)),
    }
}

/// The value of an expression over properties, none where it has none and where that is a list. Operands are
/// taken left to right, and each property is looked up where it is mentioned. It recurses as deep as the tree is
/// high.
///
/// # Errors
///
/// `Memory` only when out of memory.
pub fn value_of(alloc: Global, e: &Expr, map: &List<Property>) -> Result<Option<Simple>, Memory>
    ensures { IfOk result (λ found. found ≡ simple_value map.now e.now) }
{
    match operand_of(e, map.as_slice()) {
        None => Ok(None),
        Some(operand) => Ok(Some(owned(alloc, operand)?)),
    }
}
