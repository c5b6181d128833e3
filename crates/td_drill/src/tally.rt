//! What walks come to, in numbers.

ghost use Rattle.std.specs.Prelude.{◌≡◌, ◌+◌, cond, count_by, length, IfOk};
ghost use Rattle.td_drill.specs.Tallies.{is_repeat, is_search, no_walk, tally_of, together};
ghost use Rattle.td_query_walk.specs.Walks.{answer_in};

use td_cdr::Memory;
use td_walk::{TraceItem, Visit};

/// What walks come to.
#[derive(Clone, Copy, Debug, PartialEq, Eq)]
pub struct Tally {
    /// How many walks there were.
    pub queries: u64,
    /// How many searches began in them.
    pub searched: u64,
    /// How many visits were repeats.
    pub repeats: u64,
    /// How many offers the answers have.
    pub returned: u64,
}

/// The sum of two counts.
///
/// # Errors
///
/// `Memory` where it has no place in 64 bits.
pub(crate) fn sum(a: u64, b: u64) -> Result<u64, Memory>
    ensures { IfOk result (λ n. n ≡ a + b) }
{
    match a.checked_add(b) {
        Some(n) => Ok(n),
        None => Err(Memory),
    }
}

/// No walk.
pub(crate) fn no_walk() -> Tally
    ensures { result ≡ no_walk }
{
    Tally {
        queries: 0,
        searched: 0,
        repeats: 0,
        returned: 0,
    }
}

/// What the walks of both come to.
///
/// # Errors
///
/// `Memory` where a number has no place in 64 bits.
pub(crate) fn together(a: Tally, b: Tally) -> Result<Tally, Memory>
    ensures { IfOk result (λ t. t ≡ together a b) }
{
    Ok(Tally {
        queries: sum(a.queries, b.queries)?,
        searched: sum(a.searched, b.searched)?,
        repeats: sum(a.repeats, b.repeats)?,
        returned: sum(a.returned, b.returned)?,
    })
}

#[tactic(auto, unfolding(crate::specs::Tallies::is_search))]
fn is_search(item: &TraceItem) -> bool
    ensures { result ≡ is_search item.now }
{
    match item {
        TraceItem::Search { .. } => true,
        TraceItem::Repeat { .. } => false,
        TraceItem::Refused { .. } => false,
        TraceItem::Path { .. } => false,
        TraceItem::Evaluated(_) => false,
        TraceItem::Unreachable => false,
        TraceItem::Outside(_) => false,
        TraceItem::Failed(_) => false,
        TraceItem::Leave => false,
    }
}

#[tactic(auto, unfolding(crate::specs::Tallies::is_repeat))]
fn is_repeat(item: &TraceItem) -> bool
    ensures { result ≡ is_repeat item.now }
{
    match item {
        TraceItem::Search { .. } => false,
        TraceItem::Repeat { .. } => true,
        TraceItem::Refused { .. } => false,
        TraceItem::Path { .. } => false,
        TraceItem::Evaluated(_) => false,
        TraceItem::Unreachable => false,
        TraceItem::Outside(_) => false,
        TraceItem::Failed(_) => false,
        TraceItem::Leave => false,
    }
}

/// 1 for what is so, and 0 for what isn't.
fn one_if(so: bool) -> u64
    ensures { result ≡ cond so 1 0 }
{
    if so { 1 } else { 0 }
}

fn count_searches(items: &[TraceItem]) -> Result<u64, Memory>
    ensures { IfOk result (λ n. n ≡ count_by is_search items.now) }
{
    let mut count = 0;
    for item in items {
        count = sum(count, one_if(is_search(item)))?;
    }
    Ok(count)
}

fn count_repeats(items: &[TraceItem]) -> Result<u64, Memory>
    ensures { IfOk result (λ n. n ≡ count_by is_repeat items.now) }
{
    let mut count = 0;
    for item in items {
        count = sum(count, one_if(is_repeat(item)))?;
    }
    Ok(count)
}

/// How many offers a visit gives.
fn count_offers(visit: &Visit) -> u64
    ensures { result ≡ length (answer_in visit.now).offers }
{
    match visit {
        Visit::Answered { answer, .. } => answer.offers.len() as u64,
        Visit::Refused(_) => 0,
    }
}

/// What one walk comes to.
///
/// # Errors
///
/// `Memory` where a number has no place in 64 bits.
pub(crate) fn tally_of(items: &[TraceItem], visit: &Visit) -> Result<Tally, Memory>
    ensures { IfOk result (λ t. t ≡ tally_of items.now visit.now) }
{
    Ok(Tally {
        queries: 1,
        searched: count_searches(items)?,
        repeats: count_repeats(items)?,
        returned: count_offers(visit),
    })
}
