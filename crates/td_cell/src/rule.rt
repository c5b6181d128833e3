//! The rule of a cell's table, and what each step tells.
ghost use Rattle.std.specs.Prelude.{◌≡◌, ℕ, [], ◌∷◌, false};
ghost use Rattle.td_cell.specs.Rules.{KeepsRule, first_view, TakesTurn, CountsChanges, Marks_counted, LearnsMet};
ghost use Rattle.td_cell.specs.Rules.{GivesView, opener};
ghost use Rattle.td_cell.specs.Rules.{split_off, met_view, gone};

use crate::book::Book;
use crate::pass::View;
use atomic_table::{Join, Play, Split, TableRule};
use std::snapshot::Snapshot;

/// The table's rule: what the cell holds is kept as the steps below tell it.
pub struct Turns;

impl<B: Book> TableRule<B, View<B>, Snapshot<B>> for Turns {
    ghost holds = { λ k s. KeepsRule B.later B.size B.remembers k.value s };

    ghost first = { λ k. first_view k.value (B.size k.value) (B.remembers k.value).count };
}

/// Takes the turn, with the book, where it is free.
pub struct TakeTurn;

impl<B: Book> Play<B, View<B>> for TakeTurn {
    ghost then = { TakesTurn B.later B.size B.remembers };
}

/// Counts the changes.
pub struct CountChanges;

impl<B: Book> Play<B, View<B>> for CountChanges {
    ghost then = { CountsChanges };
}

/// Counts the marks.
pub struct CountMarks;

impl<B: Book> Play<B, View<B>> for CountMarks {
    ghost then = { Marks_counted B.remembers };
}

/// Gives the book back.
pub struct GiveTurn;

impl<B: Book> Play<B, View<B>> for GiveTurn {
    ghost then = { GivesView B.remembers };
}

/// Learns what a pass that was met had seen.
pub struct Learn;

impl<B: Book> Play<B, View<B>> for Learn {
    ghost then = { LearnsMet B.later B.size B.remembers };
}

/// One more pass, with the next number.
pub struct SplitOff;

impl<B> Split<View<B>> for SplitOff {
    ghost left = { opener };

    ghost right = { split_off };
}

/// A pass that has ended.
pub struct Meeting;

impl<B> Join<View<B>> for Meeting {
    ghost both = { met_view };

    ghost spent = { gone };
}
