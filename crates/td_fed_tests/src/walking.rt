//! Walks through a group of traders.

use crate::scripts::peers;
use std::alloc::Global;
use td_cdr::{List, Memory, Shared};
use td_fed::visit;
use td_ops::Query;
use td_out::MemWords;
use td_trader::{Solo, Traders};
use td_walk::{Address, Trace, TraceItem, Visit};

/// The letter of a trader behind this one.
fn letter(first: u8, trader: usize) -> u8 {
    first.saturating_add(u8::try_from(trader).unwrap_or(0))
}

/// An item as a letter: `A` a search, `a` a repeat, `0` a path, each of the first trader; `!` a refusal, `e` an
/// evaluation, `u` an evaluator that can't be reached, `o` an answer of a trader outside, `f` a call that failed, `.`
/// the end of a visit.
fn shown(item: &TraceItem) -> u8 {
    match item {
        TraceItem::Search { trader, .. } => letter(b'A', *trader),
        TraceItem::Repeat { trader, .. } => letter(b'a', *trader),
        TraceItem::Path { trader, .. } => letter(b'0', *trader),
        TraceItem::Refused { .. } => b'!',
        TraceItem::Evaluated(_) => b'e',
        TraceItem::Unreachable => b'u',
        TraceItem::Outside(_) => b'o',
        TraceItem::Failed(_) => b'f',
        TraceItem::Leave => b'.',
    }
}

/// Whether a trace shows this.
fn shows(trace: &Trace, expected: &[u8]) -> bool {
    if trace.items.len() != expected.len() {
        return false;
    }
    for (item, letter) in trace.items.as_slice().iter().zip(expected) {
        if shown(item) != *letter {
            return false;
        }
    }
    true
}

/// Whether a visit came to so many offers and limits.
fn came_to(visit: Result<Visit, Memory>, content: &str) -> bool {
    let (offers, limits) = content.split_once(' ').unwrap_or((content, ""));
    let passed = match &visit {
        Ok(Visit::Answered { answer, .. }) => offers.parse::<usize>() == Ok(answer.offers.len())
            && limits.parse::<usize>() == Ok(answer.limits.len()),
        _ => false,
    };
    drop(visit);
    passed
}

fn visits(
    alloc: Global,
    group: &mut Solo,
    home: &Address,
    query: &Shared<Query>,
    script: &str,
    content: &str,
) -> Result<bool, Memory> {
    if group.count() == 0 {
        return Ok(false);
    }
    let mut peers = peers(alloc, script, 0)?;
    let mut words = MemWords::new(List::new(alloc));
    let mut trace = Trace {
        items: List::new(alloc),
    };
    let visit = visit(
        alloc, group, home, 0, query, &mut peers, &mut words, &mut trace,
    );
    let (letters, counts) = content.split_once(' ').unwrap_or((content, ""));
    Ok(came_to(visit, counts) && shows(&trace, letters.as_bytes()))
}

/// Whether a walk from A on, where peers answer by this script, comes to what is told: what its trace shows, and how
/// many offers and limits there are. Behind a comma stands what the same query comes to once more.
pub(crate) fn walks(
    alloc: Global,
    group: &mut Solo,
    home: &Address,
    query: &Shared<Query>,
    script: &str,
    content: &str,
) -> bool {
    for part in content.split(',') {
        if !visits(alloc, group, home, query, script, part).unwrap_or(false) {
            return false;
        }
    }
    true
}
