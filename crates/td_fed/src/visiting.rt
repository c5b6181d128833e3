//! A query's visit of a trader, with all that it goes on to.

ghost use Rattle.std.specs.Prelude.{◌≡◌, ◌<◌, ℕ, List, [], ◌∷◌, ◌++◌, length, None, IfOk, OnOk};
ghost use Rattle.std.specs.Prelude.{OnErr};
ghost use Rattle.td_fed.specs.Entering.{IsEntered};
ghost use Rattle.td_targets.specs.Targets.{inside_group};
ghost use Rattle.td_fed.specs.Trails.{DrawsOn, Goes, IsShown};
ghost use Rattle.td_fed.specs.Turning.{HasQuestion, IsWalkTurn, IsTurnSoFar};
ghost use Rattle.td_fed.specs.Visiting.{BeginsVisit, WalksTo, VisitedSoFar, course};
ghost use Rattle.td_fed.specs.declared.entering.VisitStart.TheVariants as entry;
ghost use Rattle.td_ops.specs.declared.call.Query.{Query as Asked};
ghost use Rattle.td_trader.specs.Worlds.{View, Watches};
ghost use Rattle.td_walk.specs.declared.answer.Next.TheVariants.{Done};
ghost use Rattle.td_walk.specs.declared.trace.TraceItem.{TraceItem as Item};
ghost use Rattle.td_query_walk.specs.Faults.{CountsFaults};
ghost use Rattle.td_query_walk.specs.Reach.{HasReadPath};

use crate::entering::{VisitStart, enter};
use crate::innermost::{answer_innermost, end_innermost, next_of_innermost, open_innermost};
use crate::outside::{Asking, ask};
use std::alloc::Global;
use std::mem;
use td_cdr::{List, Memory, Shared};
use td_ops::Query;
use td_out::Words;
use td_trader::Traders;
use td_visit::Frame;
use td_walk::{Address, Next, Peers, Trace, TraceItem, Visit};

/// Visits a trader with a query, and all traders that it goes on to, and puts what came behind the trace. Those
/// of the group whose visits wait for an answer stand in a list, so that a walk takes no more of the processor's
/// stack however deep it goes.
///
/// # Errors
///
/// `Memory` only when out of memory. What came behind the trace is then the beginning of a walk: it shows how far the
/// query came, with each mark that was made and what each peer gave.
pub fn visit<T: Traders, P: Peers, W: Words>(
    alloc: Global,
    traders: &mut T,
    home: &Address,
    trader: usize,
    q: &Shared<Query>,
    peers: &mut P,
    words: &mut W,
    trace: &mut Trace,
) -> Result<Visit, Memory>
    requires { trader < length (T.world traders.old) }
    ensures same { T.same traders.old traders.new }
    ensures same_peers { P.same peers.old peers.new }
    ensures same_words { W.same words.old words.new }
    ensures visited { IfOk result (λ v. WalksTo T.others T.later home.now
        (course (T.world traders.old) (W.word words.old) (P.calls peers.old))
        trader q.now trace.old.items trace.new.items v
        (course (T.world traders.new) (W.word words.new) (P.calls peers.new))) }
    ensures so_far { OnErr result (VisitedSoFar T.others T.later home.now
        (course (T.world traders.old) (W.word words.old) (P.calls peers.old))
        trader q.now trace.old.items trace.new.items
        (course (T.world traders.new) (W.word words.new) (P.calls peers.new))) }
    ensures shown { IsShown (T.world traders.old)
        (P.calls peers.old) trace.old.items trace.new.items (T.world traders.new)
        (P.calls peers.new) }
    ensures goes { Goes T.others T.later (T.world traders.old) (T.world traders.new) }
    ensures draws { DrawsOn (W.word words.old) (W.word words.new) }
    ensures faults { CountsFaults (P.calls peers.old) (P.calls peers.new) (P.faults peers.old)
        (P.faults peers.new) }
{
    let items = mem::replace(&mut trace.items, List::new(alloc));
    let mut notes = items.into_vec();
    let visited = walk(alloc, traders, home, trader, q, peers, words, &mut notes);
    trace.items = List::from_vec(notes);
    visited
}

/// Visits a trader and all that its query goes on to.
#[tactic(auto, using(crate::proofs::Counted::nothing_counted))]
fn walk<T: Traders, P: Peers, W: Words>(
    alloc: Global,
    traders: &mut T,
    home: &Address,
    trader: usize,
    q: &Shared<Query>,
    peers: &mut P,
    words: &mut W,
    notes: &mut Vec<TraceItem>,
) -> Result<Visit, Memory>
    requires { trader < length (T.world traders.old) }
    ensures same { T.same traders.old traders.new }
    ensures same_peers { P.same peers.old peers.new }
    ensures same_words { W.same words.old words.new }
    ensures visited { IfOk result (λ v. WalksTo T.others T.later home.now
        (course (T.world traders.old) (W.word words.old) (P.calls peers.old))
        trader q.now notes.old.items notes.new.items v
        (course (T.world traders.new) (W.word words.new) (P.calls peers.new))) }
    ensures so_far { OnErr result (VisitedSoFar T.others T.later home.now
        (course (T.world traders.old) (W.word words.old) (P.calls peers.old))
        trader q.now notes.old.items notes.new.items
        (course (T.world traders.new) (W.word words.new) (P.calls peers.new))) }
    ensures shown { IsShown (T.world traders.old)
        (P.calls peers.old) notes.old.items notes.new.items (T.world traders.new)
        (P.calls peers.new) }
    ensures goes { Goes T.others T.later (T.world traders.old) (T.world traders.new) }
    ensures draws { DrawsOn (W.word words.old) (W.word words.new) }
    ensures faults { CountsFaults (P.calls peers.old) (P.calls peers.new) (P.faults peers.old)
        (P.faults peers.new) }
{
    match enter(alloc, traders, trader, q, notes)? {
        VisitStart::Ended(visit) => Ok(visit),
        VisitStart::Open(first) => walk_on(alloc, traders, home, peers, words, notes, first),
    }
}

/// Asks all questions of an open visit, and of those that it waits for.
#[tactic(auto, using(crate::proofs::Counted::nothing_counted))]
fn walk_on<T: Traders, P: Peers, W: Words>(
    alloc: Global,
    traders: &mut T,
    home: &Address,
    peers: &mut P,
    words: &mut W,
    notes: &mut Vec<TraceItem>,
    first: Frame,
) -> Result<Visit, Memory>
    requires { HasReadPath first.local }
    ensures same { T.same traders.old traders.new }
    ensures same_peers { P.same peers.old peers.new }
    ensures same_words { W.same words.old words.new }
    ensures visited { (w : List View) (k : ℕ) (q : Asked) (before : List Item) →
        IsEntered (BeginsVisit T.others T.later) w k q (entry.Open first) before notes.old.items
        (T.world traders.old) → IfOk result
        (λ v. WalksTo T.others T.later home.now (course w (W.word words.old) (P.calls peers.old))
        k q before notes.new.items v (course (T.world traders.new) (W.word words.new)
        (P.calls peers.new))) }
    ensures so_far { (w : List View) (k : ℕ) (q : Asked) (before : List Item) →
        IsEntered (BeginsVisit T.others T.later) w k q (entry.Open first) before notes.old.items
        (T.world traders.old) → OnErr result
        (VisitedSoFar T.others T.later home.now (course w (W.word words.old) (P.calls peers.old))
        k q before notes.new.items (course (T.world traders.new) (W.word words.new)
        (P.calls peers.new))) }
    ensures shown { IsShown (T.world traders.old)
        (P.calls peers.old) notes.old.items notes.new.items (T.world traders.new)
        (P.calls peers.new) }
    ensures goes { Goes T.others T.later (T.world traders.old) (T.world traders.new) }
    ensures draws { DrawsOn (W.word words.old) (W.word words.new) }
    ensures faults { CountsFaults (P.calls peers.old) (P.calls peers.new) (P.faults peers.old)
        (P.faults peers.new) }
{
    let mut stack: Vec<Frame> = Vec::new(alloc);
    stack.push(first)?;
    'turns: loop {
        match turn(alloc, traders, home, peers, words, notes, &mut stack)? {
            Some(visit) => return Ok(visit),
            None => {}
        }
    }
}

/// Asks the question of the innermost visit, or ends it. The outermost one's end is the walk's.
#[tactic(auto, using(crate::proofs::Counted::nothing_counted))]
fn turn<T: Traders, P: Peers, W: Words>(
    alloc: Global,
    traders: &mut T,
    home: &Address,
    peers: &mut P,
    words: &mut W,
    notes: &mut Vec<TraceItem>,
    stack: &mut Vec<Frame>,
) -> Result<Option<Visit>, Memory>
    requires { 0 < length stack.old.items }
    ensures same { T.same traders.old traders.new }
    ensures same_peers { P.same peers.old peers.new }
    ensures same_words { W.same words.old words.new }
    ensures turns { IfOk result (λ v. IsWalkTurn (BeginsVisit T.others T.later)
        (inside_group home.now)
        (course (T.world traders.old) (W.word words.old) (P.calls peers.old))
        stack.old.items v stack.new.items notes.old.items notes.new.items
        (course (T.world traders.new) (W.word words.new) (P.calls peers.new))) }
    ensures so_far { OnErr result (IsTurnSoFar (BeginsVisit T.others T.later)
        (Watches T.others T.later)
        (inside_group home.now) (course (T.world traders.old) (W.word words.old)
        (P.calls peers.old)) stack.old.items notes.old.items notes.new.items
        (course (T.world traders.new) (W.word words.new) (P.calls peers.new))) }
    ensures shown { IsShown (T.world traders.old)
        (P.calls peers.old) notes.old.items notes.new.items (T.world traders.new)
        (P.calls peers.new) }
    ensures goes { Goes T.others T.later (T.world traders.old) (T.world traders.new) }
    ensures draws { DrawsOn (W.word words.old) (W.word words.new) }
    ensures faults { CountsFaults (P.calls peers.old) (P.calls peers.new) (P.faults peers.old)
        (P.faults peers.new) }
{
    match next_of_innermost(alloc, stack)? {
        Next::Done => end_innermost(alloc, words, notes, stack),
        question => {
            ask_innermost(alloc, traders, home, peers, notes, stack, question)?;
            Ok(None)
        }
    }
}

/// Asks the question of the innermost visit. It takes the answer, or waits for a visit that begins.
fn ask_innermost<T: Traders, P: Peers>(
    alloc: Global,
    traders: &mut T,
    home: &Address,
    peers: &mut P,
    notes: &mut Vec<TraceItem>,
    stack: &mut Vec<Frame>,
    question: Next,
) -> Result<(), Memory>
    requires left { question ≡ Done → ⊥ }
    requires asks { HasQuestion stack.old.items question }
    ensures same { T.same traders.old traders.new }
    ensures same_peers { P.same peers.old peers.new }
    ensures turns { (words : ℕ → ℕ)
        → OnOk result (IsWalkTurn (BeginsVisit T.others T.later) (inside_group home.now)
        (course (T.world traders.old) words (P.calls peers.old))
        stack.old.items None stack.new.items notes.old.items notes.new.items
        (course (T.world traders.new) words (P.calls peers.new))) }
    ensures so_far { (words : ℕ → ℕ)
        → OnErr result (IsTurnSoFar (BeginsVisit T.others T.later) (Watches T.others T.later)
        (inside_group home.now) (course (T.world traders.old) words (P.calls peers.old))
        stack.old.items notes.old.items notes.new.items
        (course (T.world traders.new) words (P.calls peers.new))) }
    ensures shown { IsShown (T.world traders.old)
        (P.calls peers.old) notes.old.items notes.new.items (T.world traders.new)
        (P.calls peers.new) }
    ensures goes { Goes T.others T.later (T.world traders.old) (T.world traders.new) }
    ensures faults { CountsFaults (P.calls peers.old) (P.calls peers.new) (P.faults peers.old)
        (P.faults peers.new) }
{
    match ask(alloc, traders, home, peers, notes, question)? {
        Asking::Answered(answer) => answer_innermost(stack, answer),
        Asking::Open(visit) => open_innermost(stack, visit),
    }
}
