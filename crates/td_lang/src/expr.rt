//! The trees of the languages.

use td_cdr::{Boxed, List, Text};

/// An operator between two operands.
#[derive(Clone, Copy, Debug, PartialEq, Eq)]
pub enum Op {
    Or,
    And,
    Eq,
    Ne,
    Lt,
    Le,
    Gt,
    Ge,
    /// `~`: whether the left text occurs in the right one.
    Twiddle,
    Add,
    Sub,
    Mul,
    Div,
}

/// An expression over the properties of an offer.
#[derive(Debug, Drop)]
#[cycle(expr)]
pub enum Expr {
    Binary(Op, Boxed<Expr>, Boxed<Expr>),
    /// `in`: whether the value is an item of the property of that name.
    Within(Boxed<Expr>, Text),
    Not(Boxed<Expr>),
    /// Whether there is a property of that name.
    Exist(Text),
    /// The property of that name.
    Name(Text),
    Number(i64),
    Str(Text),
    Truth(bool),
}

/// What an importer asks of an offer.
#[derive(Debug)]
pub enum Constraint {
    /// Nothing is asked.
    Empty,
    Is(Expr),
}

// By hand, since a derived drop is written out at each exit, and proved again in each crate above.
impl Drop for Constraint {
    fn drop(self) {
        match self {
            Constraint::Empty => (),
            Constraint::Is(_inner) => (),
        }
    }
}

/// In which order an importer wants offers.
#[derive(Debug)]
pub enum Preference {
    /// Means the same as `First`.
    Empty,
    First,
    Random,
    Min(Expr),
    Max(Expr),
    With(Expr),
}

impl Drop for Preference {
    fn drop(self) {
        match self {
            Preference::Empty => (),
            Preference::First => (),
            Preference::Random => (),
            Preference::Min(_inner) => (),
            Preference::Max(_inner) => (),
            Preference::With(_inner) => (),
        }
    }
}

/// A part of a recipe.
#[derive(Debug, Drop)]
pub enum Part {
    Byte(u8),
    /// `$*`: the importer's constraint.
    Constraint,
    /// `$(name)`: the value of the property of that name.
    Property(Text),
}

/// How a proxy offer makes the constraint that it passes on.
#[derive(Debug)]
pub struct Recipe {
    pub parts: List<Part>,
}

impl Drop for Recipe {
    fn drop(self) {
        let Recipe { parts: _parts } = self;
    }
}
