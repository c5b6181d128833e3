//! What stands in place of an answer when memory runs out (CORBA, chapter "Standard Exceptions", NO_MEMORY).

ghost use Rattle.std.specs.Prelude.{◌≡◌, ◌<◌, length, if◌then◌else◌};
ghost use Rattle.std.specs.List.{list_any};
ghost use Rattle.td_lookup.specs.Answering.{is_no_memory, no_memory_entry, no_memory_with};
ghost use Rattle.td_lookup.specs.NoMemory.{completion_of, is_search, no_memory_outcome};

use td_ops::{COMPLETED_MAYBE, COMPLETED_NO, Outcome, SystemKind};
use td_servant::{Answer, Entry, ReplyBody};
use td_trader::Traders;
use td_walk::TraceItem;

fn is_search(item: &TraceItem) -> bool
    ensures { result ≡ is_search item.now }
{
    match item {
        TraceItem::Search { .. } => true,
        TraceItem::Repeat { .. } => false,
        TraceItem::Refused { .. } => false,
        TraceItem::Path { .. } => false,
        TraceItem::Evaluated(_) => false,
        TraceItem::Unreachable => false,
        TraceItem::Outside(_) => false,
        TraceItem::Failed(_) => false,
        TraceItem::Leave => false,
    }
}

fn has_search(items: &[TraceItem]) -> bool
    ensures { result ≡ list_any is_search items.now }
{
    items.iter().any(|item| is_search(item))
}

/// MAYBE exactly where the trace shows that a mark was made.
fn completion_of(entry: &Entry) -> u32
    ensures { result ≡ completion_of entry.now }
{
    match entry {
        Entry::Plain => COMPLETED_NO,
        Entry::Point { .. } => COMPLETED_NO,
        Entry::Asked { .. } => COMPLETED_NO,
        Entry::Walk(trace) => completion_after(trace.items.as_slice()),
    }
}

fn completion_after(items: &[TraceItem]) -> u32
    ensures { result ≡ (if list_any is_search items.now then 2 else 1) }
{
    if has_search(items) {
        COMPLETED_MAYBE
    } else {
        COMPLETED_NO
    }
}

/// NO_MEMORY for a call of which this is noted.
pub fn no_memory_outcome(entry: &Entry) -> Outcome
    ensures { result ≡ no_memory_outcome entry.now }
{
    Outcome::System {
        kind: SystemKind::NoMemory,
        minor: 0,
        completion: completion_of(entry),
    }
}

/// The answer when memory runs out, with what is noted.
pub(crate) fn no_memory_with(entry: Entry) -> Answer
    ensures { result ≡ no_memory_with entry }
{
    let outcome = no_memory_outcome(&entry);
    Answer {
        body: ReplyBody::Outcome(outcome),
        entry,
    }
}

/// What is noted in place of an entry of this trader whose answer is taken back, since memory runs out for it: what a
/// peer gave, at how many changes are seen now, a query's trace, and nothing of any other call.
pub fn entry_at_no_memory<T: Traders>(traders: &T, trader: usize, entry: Entry) -> Entry
    requires { trader < length (T.world traders.now) }
    ensures { result ≡ no_memory_entry (T.world traders.now) trader entry }
{
    match entry {
        Entry::Plain => Entry::Plain,
        Entry::Point { .. } => Entry::Plain,
        Entry::Asked { answer, .. } => Entry::Asked {
            trader,
            point: traders.point(trader),
            answer,
        },
        Entry::Walk(trace) => Entry::Walk(trace),
    }
}

/// Whether an outcome is NO_MEMORY.
pub(crate) fn is_no_memory(outcome: &Outcome) -> bool
    ensures { result ≡ is_no_memory outcome.now }
{
    match outcome {
        Outcome::Done(_) => false,
        Outcome::User(_) => false,
        Outcome::System { kind, .. } => match kind {
            SystemKind::NoMemory => true,
            SystemKind::Marshal => false,
            SystemKind::NoImplement => false,
            SystemKind::BadOperation => false,
            SystemKind::ObjectNotExist => false,
            SystemKind::ImpLimit => false,
        },
    }
}
