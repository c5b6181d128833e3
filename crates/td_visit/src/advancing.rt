//! How far a visit comes with the answers that there are. What was done before isn't done again.

ghost use Rattle.std.specs.Prelude.{◌≡◌, ◌-◌, [], true, unwrap_or, IfOk, OnOk};
ghost use Rattle.td_visit.specs.Resuming.{start, asks_first, HasProgress, SearchesTo, CompletesTo, ComesTo, IsEnd};
ghost use Rattle.td_walk.specs.Visits.{next_of};
ghost use Rattle.td_walk.specs.declared.answer.Next.TheVariants.{Done};

use crate::progress::{Completion, Progress, Scan};
use crate::questions::{ask, asks_first, none_asked};
use crate::queue::Queue;
use crate::searching::{complete_all, search};
use std::alloc::Global;
use std::mem;
use td_cdr::{List, Memory};
use td_store::Local;
use td_walk::{Left, Next, StepAnswer};

/// Nothing was read yet; with a path nothing is searched. Takes no memory.
fn start(alloc: Global, along: bool) -> Progress
    ensures { result ≡ start along }
{
    Progress {
        read: 0,
        searched: along,
        completed: false,
        scan: Scan {
            tried: 0,
            made: List::new(alloc),
            found: List::new(alloc),
        },
        completion: Completion {
            waiting: Queue::new(alloc),
            complete: List::new(alloc),
        },
        others: none_asked(false, None),
    }
}

/// A visit at its beginning.
#[tactic(auto, using(crate::proofs::Progressed::starts))]
pub(crate) fn start_visit(alloc: Global, local: &Local, answers: &[StepAnswer]) -> Progress
    ensures { HasProgress local.now answers.now result }
{
    start(alloc, local.path.is_some())
}

/// The search is at its end: the offers that matched wait for their desired properties.
fn end_search(alloc: Global, progress: &mut Progress, read: usize)
    ensures { progress.new ≡ record {
      read = read;
      searched = true;
      completed = progress.old.completed;
      scan = record {
        tried = progress.old.scan.tried;
        made = progress.old.scan.made;
        found = [];
      };
      completion = record {
        waiting = progress.old.scan.found;
        complete = [];
      };
      others = progress.old.others;
    } }
{
    let found = mem::replace(&mut progress.scan.found, List::new(alloc));
    progress.completion = Completion {
        waiting: Queue::from_list(found),
        complete: List::new(alloc),
    };
    progress.searched = true;
    progress.read = read;
}

/// Goes on with the search, where it isn't at its end.
#[tactic(auto, using(crate::proofs::Progressed::search_steps))]
fn search_on(
    alloc: Global,
    local: &Local,
    answers: &[StepAnswer],
    progress: &mut Progress,
) -> Result<Option<Next>, Memory>
    requires { HasProgress local.now answers.now progress.old }
    ensures stands { OnOk result (HasProgress local.now answers.now progress.new) }
    ensures comes { IfOk result
        (λ question. SearchesTo local.now answers.now progress.new question) }
{
    if progress.searched {
        return Ok(None);
    }
    let (_read, behind) = answers.split_at(progress.read);
    let mut left = Left { answers: behind };
    match search(alloc, local, &mut progress.scan, &mut left)? {
        Some(question) => {
            progress.read = answers.len();
            Ok(Some(question))
        }
        None => {
            end_search(alloc, progress, answers.len() - left.answers.len());
            Ok(None)
        }
    }
}

/// All offers that matched are complete: other traders are asked, where there are any to ask.
fn end_completion(local: &Local, progress: &mut Progress, read: usize)
    ensures { progress.new ≡ record {
      read = read;
      searched = progress.old.searched;
      completed = true;
      scan = progress.old.scan;
      completion = progress.old.completion;
      others = asks_first local.now progress.old.completion.complete;
    } }
{
    let complete = progress.completion.complete.as_slice();
    progress.others = asks_first(local, complete);
    progress.completed = true;
    progress.read = read;
}

/// Goes on with the evaluation of desired properties, where it isn't at its end.
#[tactic(auto, using(crate::proofs::Progressed::complete_steps))]
fn complete_on(
    alloc: Global,
    local: &Local,
    answers: &[StepAnswer],
    progress: &mut Progress,
) -> Result<Option<Next>, Memory>
    requires stands { HasProgress local.now answers.now progress.old }
    requires searched { progress.old.searched ≡ true }
    ensures stands { OnOk result (HasProgress local.now answers.now progress.new) }
    ensures comes { IfOk result
        (λ question. CompletesTo local.now answers.now progress.new question) }
{
    if progress.completed {
        return Ok(None);
    }
    let (_read, behind) = answers.split_at(progress.read);
    let mut left = Left { answers: behind };
    let desired = &local.query.desired;
    match complete_all(alloc, desired, &mut progress.completion, &mut left)? {
        Some(question) => {
            progress.read = answers.len();
            Ok(Some(question))
        }
        None => {
            end_completion(local, progress, answers.len() - left.answers.len());
            Ok(None)
        }
    }
}

/// Goes on with the questions to other traders.
fn ask_on(
    alloc: Global,
    local: &Local,
    answers: &[StepAnswer],
    progress: &mut Progress,
) -> Result<Option<Next>, Memory>
    requires stands { HasProgress local.now answers.now progress.old }
    requires completed { CompletesTo local.now answers.now progress.old None }
    ensures stands { OnOk result (HasProgress local.now answers.now progress.new) }
    ensures comes { IfOk result (λ question. ComesTo local.now answers.now progress.new question) }
{
    let (_read, behind) = answers.split_at(progress.read);
    ask(
        alloc,
        local,
        progress.completion.complete.as_slice(),
        behind,
        &mut progress.others,
    )
}

/// Goes on as far as there are answers.
fn advance(
    alloc: Global,
    local: &Local,
    answers: &[StepAnswer],
    progress: &mut Progress,
) -> Result<Option<Next>, Memory>
    requires { HasProgress local.now answers.now progress.old }
    ensures stands { OnOk result (HasProgress local.now answers.now progress.new) }
    ensures comes { IfOk result (λ question. ComesTo local.now answers.now progress.new question) }
{
    let question = search_on(alloc, local, answers, progress)?;
    if question.is_some() {
        return Ok(question);
    }
    let question = complete_on(alloc, local, answers, progress)?;
    if question.is_some() {
        return Ok(question);
    }
    ask_on(alloc, local, answers, progress)
}

fn or_done(question: Option<Next>) -> Next
    ensures { result ≡ unwrap_or question Done }
{
    match question {
        None => Next::Done,
        Some(question) => question,
    }
}

/// The question that comes after these answers. After running out of memory the visit stands at its beginning again.
///
/// # Errors
///
/// `Memory` only when out of memory.
#[tactic(auto, using(crate::proofs::Progressed::next_asked))]
pub(crate) fn next_question(
    alloc: Global,
    local: &Local,
    answers: &[StepAnswer],
    progress: &mut Progress,
) -> Result<Next, Memory>
    requires { HasProgress local.now answers.now progress.old }
    ensures stands { HasProgress local.now answers.now progress.new }
    ensures question { IfOk result (λ question. question ≡ next_of local.now answers.now) }
{
    match advance(alloc, local, answers, progress) {
        Ok(question) => Ok(or_done(question)),
        Err(memory) => {
            *progress = start_visit(alloc, local, answers);
            Err(memory)
        }
    }
}

/// Goes on to the end, where no question is left.
///
/// # Errors
///
/// `Memory` only when out of memory.
#[tactic(auto, using(crate::proofs::Progressed::never_asked))]
pub(crate) fn go_to_end(
    alloc: Global,
    local: &Local,
    answers: &[StepAnswer],
    progress: &mut Progress,
) -> Result<(), Memory>
    requires stands { HasProgress local.now answers.now progress.old }
    requires ended { next_of local.now answers.now ≡ Done }
    ensures { OnOk result (IsEnd local.now answers.now progress.new) }
{
    match advance(alloc, local, answers, progress)? {
        None => Ok(()),
        Some(_) => unreachable!(),
    }
}
