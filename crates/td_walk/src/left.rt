//! The answers that weren't read yet.

ghost use Rattle.std.specs.Prelude.{◌≡◌, [], ◌∷◌, MatchOption};

use crate::answer::StepAnswer;

/// The answers that weren't read yet.
#[derive(Drop)]
pub struct Left<'a> {
    pub answers: &'a [StepAnswer],
}

impl<'a> Left<'a> {
    ghost use Rattle.std.specs.Prelude.{◌≡◌, [], ◌∷◌, MatchOption};

    /// Reads the next answer, where there is one.
    pub fn read(&mut self) -> Option<&'a StepAnswer>
        ensures { MatchOption result ((self.old.answers.now ≡ []) × (self.new.answers.now ≡ []))
            (λ a. self.old.answers.now ≡ a.now ∷ self.new.answers.now) }
    {
        match self.answers.split_first() {
            None => None,
            Some((answer, rest)) => {
                self.answers = rest;
                Some(answer)
            }
        }
    }
}
