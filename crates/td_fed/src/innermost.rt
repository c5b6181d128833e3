//! The open visits of a walk, the innermost last: each waits for the one behind it.

ghost use Rattle.std.specs.Prelude.{◌≡◌, ◌^◌, ◌<◌, ℕ, List, [], ◌∷◌, ◌++◌, length, vec_len, vec_capacity};
ghost use Rattle.std.specs.Prelude.{IfOk, OnOk, OnErr};
ghost use Rattle.td_fed.specs.Entering.{IsEnd};
ghost use Rattle.td_fed.specs.Trails.{DrawsOn, IsShown};
ghost use Rattle.td_fed.specs.Turning.{HasQuestion, Closes, ClosesSoFar, Returns, TakesAnswer};
ghost use Rattle.td_fed.specs.Visiting.{course};
ghost use Rattle.td_trader.specs.Worlds.{View};
ghost use Rattle.td_walk.specs.Peering.{Exchange};
ghost use Rattle.td_walk.specs.Visits.{next_of};
ghost use Rattle.td_walk.specs.declared.answer.Next.TheVariants.{Done};
ghost use Rattle.td_walk.specs.declared.trace.TraceItem.TheVariants as item;

use crate::outside::answer_in;
use std::alloc::Global;
use td_cdr::Memory;
use td_out::Words;
use td_visit::Frame;
use td_walk::{Next, StepAnswer, TraceItem, Visit};

/// The question of the innermost visit.
pub(crate) fn next_of_innermost(alloc: Global, stack: &mut Vec<Frame>) -> Result<Next, Memory>
    requires { 0 < length stack.old.items }
    ensures kept { stack.new.items ≡ stack.old.items }
    ensures asks { IfOk result (λ question. HasQuestion stack.old.items question) }
{
    match stack.pop() {
        None => unreachable!(),
        Some(top) => {
            let mut top = top;
            let question = top.next(alloc);
            stack.push_reserved(top);
            question
        }
    }
}

/// Hands a visit the answer to its question.
fn take(visit: &mut Frame, answer: StepAnswer) -> Result<(), Memory>
    ensures ok { OnOk result
        (visit.new ≡ record {
          local = visit.old.local;
          answers = visit.old.answers ++ answer
              ∷ [];
        }) }
    ensures room { length visit.old.answers < 2 ^ 64 }
{
    // That there are fewer than 2^64 answers bounds how many questions a visit can ask.
    let _taken = visit.taken();
    visit.take(answer)
}

/// Hands the innermost visit the answer to its question.
pub(crate) fn answer_innermost(stack: &mut Vec<Frame>, answer: StepAnswer) -> Result<(), Memory>
    requires { 0 < length stack.old.items }
    ensures { OnOk result (TakesAnswer stack.old.items answer stack.new.items) }
{
    match stack.pop() {
        None => unreachable!(),
        Some(top) => {
            let mut top = top;
            let taken = take(&mut top, answer);
            stack.push_reserved(top);
            taken
        }
    }
}

/// Lets the innermost visit wait for one that begins.
pub(crate) fn open_innermost(stack: &mut Vec<Frame>, visit: Frame) -> Result<(), Memory>
    ensures opened { OnOk result (stack.new.items ≡ stack.old.items ++ visit ∷ []) }
    ensures few { visit.local.attributes.max_hop_count < 2 ^ 32 }
{
    // That there are fewer than 2^32 hops bounds how deep a walk can go.
    let _most = visit.local().attributes.max_hop_count;
    stack.push(visit)?;
    Ok(())
}

/// Ends the innermost visit, which has no question left. The outermost one's end is the walk's; any other one's goes
/// to the visit that waits for it. Room for the note is taken before words are drawn.
pub(crate) fn end_innermost<W: Words>(
    alloc: Global,
    words: &mut W,
    notes: &mut Vec<TraceItem>,
    stack: &mut Vec<Frame>,
) -> Result<Option<Visit>, Memory>
    requires { HasQuestion stack.old.items Done }
    ensures same { W.same words.old words.new }
    ensures closes { (w : List View) (calls : List Exchange) → IfOk result (λ v.
        Closes (course w (W.word words.old) calls) stack.old.items v stack.new.items
        (course w (W.word words.new) calls)) }
    ensures so_far { (w : List View) (calls : List Exchange) → OnErr result
        (ClosesSoFar (course w (W.word words.old) calls)
        stack.old.items notes.old.items notes.new.items (course w (W.word words.new) calls)) }
    ensures noted { OnOk result (notes.new.items ≡ notes.old.items ++ item.Leave ∷ []) }
    ensures shown { (w : List View) (calls : List Exchange) →
        IsShown w calls notes.old.items notes.new.items w calls }
    ensures draws { DrawsOn (W.word words.old) (W.word words.new) }
{
    notes.reserve(1)?;
    match stack.pop() {
        None => unreachable!(),
        Some(top) => {
            let visit = end(alloc, top, words, notes)?;
            give_back(alloc, stack, visit)
        }
    }
}

/// Ends a visit that has no question left, and notes it in the room that there is.
fn end<W: Words>(
    alloc: Global,
    visit: Frame,
    words: &mut W,
    notes: &mut Vec<TraceItem>,
) -> Result<Visit, Memory>
    requires done { next_of visit.local visit.answers ≡ Done }
    requires room { vec_len notes.old < vec_capacity notes.old }
    ensures same { W.same words.old words.new }
    ensures notes { OnOk result (notes.new.items ≡ notes.old.items ++ item.Leave ∷ []) }
    ensures unchanged { OnErr result (notes.new.items ≡ notes.old.items) }
    ensures kept { OnErr result ((k : ℕ) → W.word words.new k ≡ W.word words.old k) }
    ensures ends { IfOk result (λ v. (w : List View) (calls : List Exchange) →
        IsEnd (course w (W.word words.old) calls) visit v (course w (W.word words.new) calls)) }
    ensures draws { DrawsOn (W.word words.old) (W.word words.new) }
{
    let max_list = visit.local().attributes.max_list;
    let answer = visit.finish(alloc, words)?;
    notes.push_reserved(TraceItem::Leave);
    Ok(Visit::Answered { answer, max_list })
}

/// Gives what a visit came to to the innermost of those that are left, if one is.
fn give_back(alloc: Global, waiting: &mut Vec<Frame>, visit: Visit) -> Result<Option<Visit>, Memory>
    ensures { IfOk result (λ v. Returns visit waiting.old.items v waiting.new.items) }
{
    if waiting.is_empty() {
        return Ok(Some(visit));
    }
    answer_innermost(waiting, StepAnswer::Offers(answer_in(alloc, visit)))?;
    Ok(None)
}
