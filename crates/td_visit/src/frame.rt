//! A visit of a query, whose questions are asked one at a time.

use crate::advancing::{next_question, start_visit};
use crate::ending::end_visit;
use crate::progress::Progress;
use std::alloc::Global;
use std::marker::Model;
use td_cdr::{Boxed, List, Memory};
use td_out::Words;
use td_store::Local;
use td_walk::{Next, StepAnswer, SubAnswer};

/// A visit that waits for the answers to its questions. What was done for one question isn't done again for the next.
pub struct Frame {
    local: Boxed<Local>,
    answers: List<StepAnswer>,
    progress: Progress,
}

// By hand, since a derived drop is written out at each exit, and proved again in each crate above.
impl Drop for Frame {
    fn drop(self) {
        let Frame {
            local: _local,
            answers: _answers,
            progress: _progress,
        } = self;
    }
}

impl Model for Frame {
    ghost use Rattle.td_store.specs.contracts.local.Local as known;
    ghost use Rattle.td_walk.specs.contracts.answer.StepAnswer as answer;
    ghost use Rattle.td_visit.specs.Standing.{FrameState, standing_code};

    ghost Value = { FrameState };

    ghost coded = { standing_code known.the_row.coded answer.the_row.coded };

    ghost use Rattle.td_visit.specs.Resuming.{HasProgress};

    ghost view = { λ f. record { local = f.local; answers = f.answers } };

    ghost invariant = { λ f. HasProgress f.local f.answers f.progress };
}

impl Frame {
    ghost use Rattle.std.specs.Prelude.{◌≡◌, ℕ, [], ◌∷◌, ◌++◌, length, IfOk, OnOk, OnErr};
    ghost use Rattle.td_walk.specs.Answers.{IsAnswer, HasDrawn};
    ghost use Rattle.td_walk.specs.Visits.{next_of};
    ghost use Rattle.td_walk.specs.declared.answer.Next.TheVariants.{Done};

    /// A visit that has no answer yet.
    ///
    /// # Errors
    ///
    /// `Memory` only when out of memory.
    pub fn new(alloc: Global, local: Boxed<Local>) -> Result<Frame, Memory>
        ensures { IfOk result (λ f. f ≡ record { local = local; answers = [] }) }
    {
        let answers = List::new(alloc);
        let progress = start_visit(alloc, local.get(), answers.as_slice());
        Ok(Frame {
            local,
            answers,
            progress,
        })
    }

    /// The question that stands; it is repeated until it is answered.
    ///
    /// # Errors
    ///
    /// `Memory` only when out of memory.
    pub fn next(&mut self, alloc: Global) -> Result<Next, Memory>
        ensures question { IfOk result (λ q. q ≡ next_of self.old.local self.old.answers) }
        ensures kept { self.new ≡ self.old }
    {
        next_question(
            alloc,
            self.local.get(),
            self.answers.as_slice(),
            &mut self.progress,
        )
    }

    /// What the trader knew when the query came to it.
    pub fn local(&self) -> &Local
        ensures { result.now ≡ self.now.local }
    {
        self.local.get()
    }

    /// How many answers were taken.
    pub fn taken(&self) -> usize
        ensures { result ≡ length self.now.answers }
    {
        self.answers.len()
    }

    /// Takes the answer to the question that stands.
    ///
    /// # Errors
    ///
    /// `Memory` only when out of memory; the answer is then dropped.
    #[tactic(auto, using(crate::proofs::Progressed::take_steps))]
    pub fn take(&mut self, answer: StepAnswer) -> Result<(), Memory>
        ensures ok { OnOk result
            (self.new ≡ record {
              local = self.old.local;
              answers = self.old.answers ++ answer
                  ∷ [];
            }) }
        ensures err { OnErr result (self.new ≡ self.old) }
    {
        self.answers.push(answer)
    }

    /// What the visit answers, once no question is left: the offers that matched and those of the other traders,
    /// in the order of the preference and cut, with the limits.
    ///
    /// # Errors
    ///
    /// `Memory` only when out of memory; no word was then drawn.
    pub fn finish<W: Words>(self, alloc: Global, words: &mut W) -> Result<SubAnswer, Memory>
        requires { next_of self.local self.answers ≡ Done }
        ensures answer { IfOk result (λ a. IsAnswer self.local self.answers (W.word words.old) a) }
        ensures drawn { OnOk result (HasDrawn self.local self.answers (W.word words.old)
            (W.word words.new)) }
        ensures kept { OnErr result ((k : ℕ) → W.word words.new k ≡ W.word words.old k) }
        ensures seeding { W.last_seeding words.new ≡ W.last_seeding words.old }
        ensures same { W.same words.old words.new }
    {
        let Frame {
            local,
            answers,
            progress,
        } = self;
        let ended = end_visit(alloc, local.get(), answers, progress, words);
        drop(local);
        ended
    }
}
