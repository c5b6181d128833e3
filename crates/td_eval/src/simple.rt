//! Simple values, and how they are held while an expression is evaluated.

ghost use Rattle.std.specs.Prelude.{◌≡◌, IfOk};
ghost use Rattle.td_eval.specs.Operands.{view};

use std::alloc::Global;
use td_cdr::{Memory, Text};

/// The value of an expression.
#[derive(Debug, Drop)]
pub enum Simple {
    /// A fraction: the numerator, of a size up to 2^63 - 1, and the denominator, from 1 to 2^63 - 1. It is never
    /// reduced.
    Number(i64, i64),
    Text(Text),
    Truth(bool),
}

/// What the items of a list are.
#[derive(Clone, Copy, Debug, PartialEq, Eq)]
pub(crate) enum Sort {
    Numbers,
    Texts,
    Truths,
}

/// A simple value whose text lies in the expression or in a property.
#[derive(Clone, Copy)]
pub(crate) enum Operand<'a> {
    Number(i64, i64),
    Text(&'a [u8]),
    Truth(bool),
}

/// The value, with a text of its own.
pub(crate) fn owned(alloc: Global, operand: Operand) -> Result<Simple, Memory>
    ensures { IfOk result (λ x. x ≡ view operand.entry) }
{
    match operand {
        Operand::Number(numerator, denominator) => Ok(Simple::Number(numerator, denominator)),
        Operand::Text(text) => Ok(Simple::Text(Text::from_slice(alloc, text)?)),
        Operand::Truth(truth) => Ok(Simple::Truth(truth)),
    }
}
