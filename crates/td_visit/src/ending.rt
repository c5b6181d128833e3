//! The end of a visit.

ghost use Rattle.std.specs.Prelude.{◌≡◌, ℕ, ◌+◌, ◌≤◌, length, map, take, drop, IfOk, OnOk, OnErr};
ghost use Rattle.td_walk.specs.Answers.{IsAnswer, HasDrawn};
ghost use Rattle.td_visit.specs.Resuming.{IsEnd, HasProgress, visit_end};
ghost use Rattle.td_walk.specs.Visits.{next_of, sub_answer};
ghost use Rattle.td_walk.specs.declared.answer.Next.TheVariants.{Done};

use crate::advancing::go_to_end;
use crate::joining::answer_of;
use crate::progress::Progress;
use std::alloc::Global;
use td_cdr::{List, Memory};
use td_out::Words;
use td_store::Local;
use td_walk::{Gathered, StepAnswer, SubAnswer};

/// What an answer gives.
fn sub_answer(alloc: Global, answer: StepAnswer) -> SubAnswer
    ensures { result ≡ sub_answer answer }
{
    match answer {
        StepAnswer::Offers(given) => given,
        _ => SubAnswer {
            offers: List::new(alloc),
            limits: List::new(alloc),
        },
    }
}

/// What so many answers give behind those that were read.
fn sub_answers(
    alloc: Global,
    answers: List<StepAnswer>,
    read: usize,
    count: usize,
) -> Result<List<SubAnswer>, Memory>
    requires { read ≤ length answers }
    ensures { IfOk result (λ given. given ≡ map sub_answer (take count (drop read answers))) }
{
    let mut answers = answers.into_vec();
    let mut behind = answers.split_off(read)?;
    behind.truncate(count);
    let mut given = List::new(alloc);
    for answer in behind {
        given.push(sub_answer(alloc, answer))?;
    }
    Ok(given)
}

/// What the visit comes to before it is ranked. No offer is copied.
fn visit_end(
    alloc: Global,
    answers: List<StepAnswer>,
    progress: Progress,
) -> Result<Gathered, Memory>
    requires { progress.read + progress.others.given ≤ length answers }
    ensures { IfOk result (λ gathered. gathered ≡ visit_end answers progress) }
{
    let given = sub_answers(alloc, answers, progress.read, progress.others.given)?;
    let completion = progress.completion;
    Ok(Gathered {
        found: completion.complete,
        given,
    })
}

/// The answer of a visit that is at its end.
///
/// # Errors
///
/// `Memory` only when out of memory; no word was then drawn.
#[tactic(auto, using(crate::proofs::Progressed::end_steps))]
fn finish<W: Words>(
    alloc: Global,
    local: &Local,
    answers: List<StepAnswer>,
    progress: Progress,
    words: &mut W,
) -> Result<SubAnswer, Memory>
    requires { IsEnd local.now answers progress }
    ensures answer { IfOk result (λ a. IsAnswer local.now answers (W.word words.old) a) }
    ensures drawn { OnOk result (HasDrawn local.now answers (W.word words.old) (W.word words.new)) }
    ensures kept { OnErr result ((k : ℕ) → W.word words.new k ≡ W.word words.old k) }
    ensures seeding { W.last_seeding words.new ≡ W.last_seeding words.old }
    ensures same { W.same words.old words.new }
{
    let gathered = visit_end(alloc, answers, progress)?;
    answer_of(alloc, local, gathered, words)
}

/// The answer of a visit that has no question left.
///
/// # Errors
///
/// `Memory` only when out of memory; no word was then drawn.
pub(crate) fn end_visit<W: Words>(
    alloc: Global,
    local: &Local,
    answers: List<StepAnswer>,
    progress: Progress,
    words: &mut W,
) -> Result<SubAnswer, Memory>
    requires stands { HasProgress local.now answers progress }
    requires done { next_of local.now answers ≡ Done }
    ensures answer { IfOk result (λ a. IsAnswer local.now answers (W.word words.old) a) }
    ensures drawn { OnOk result (HasDrawn local.now answers (W.word words.old) (W.word words.new)) }
    ensures kept { OnErr result ((k : ℕ) → W.word words.new k ≡ W.word words.old k) }
    ensures seeding { W.last_seeding words.new ≡ W.last_seeding words.old }
    ensures same { W.same words.old words.new }
{
    let mut progress = progress;
    match go_to_end(alloc, local, answers.as_slice(), &mut progress) {
        Ok(()) => finish(alloc, local, answers, progress, words),
        Err(memory) => {
            drop(answers);
            drop(progress);
            Err(memory)
        }
    }
}
