//! What a session notes of its Requests, as words.

use td_servant::Entry;
use td_walk::TraceItem;

/// The letter of a trader behind this one.
fn letter(first: u8, trader: usize) -> u8 {
    first.saturating_add(u8::try_from(trader).unwrap_or(0))
}

/// The letter for an item of a query's visits.
fn shown(item: &TraceItem) -> u8 {
    match item {
        TraceItem::Search { trader, .. } => letter(b'A', *trader),
        TraceItem::Repeat { trader, .. } => letter(b'a', *trader),
        TraceItem::Path { trader, .. } => letter(b'0', *trader),
        TraceItem::Refused { .. } => b'!',
        TraceItem::Evaluated(_) => b'e',
        TraceItem::Unreachable => b'u',
        TraceItem::Outside(_) => b'o',
        TraceItem::Failed(_) => b'f',
        TraceItem::Leave => b'.',
    }
}

/// The mark of a search or of a repeat.
fn mark_of(item: &TraceItem) -> Option<u64> {
    match item {
        TraceItem::Search { mark, .. } => Some(*mark),
        TraceItem::Repeat { mark, .. } => Some(*mark),
        _ => None,
    }
}

/// What is left behind the letter of an item, and behind the digit of its mark where one stands there; nothing where
/// another item or another mark is said.
fn behind<'a>(item: &TraceItem, letters: &'a [u8]) -> Option<&'a [u8]> {
    let (letter, rest) = letters.split_first()?;
    if *letter != shown(item) {
        return None;
    }
    match mark_of(item) {
        Some(mark) => behind_mark(mark, rest),
        None => Some(rest),
    }
}

fn behind_mark<'a>(mark: u64, letters: &'a [u8]) -> Option<&'a [u8]> {
    let Some((digit, rest)) = letters.split_first() else {
        return Some(letters);
    };
    if !digit.is_ascii_digit() {
        return Some(letters);
    }
    if u64::from(digit.wrapping_sub(b'0')) == mark {
        Some(rest)
    } else {
        None
    }
}

fn are_items(items: &[TraceItem], letters: &[u8]) -> bool {
    let mut left = letters;
    for item in items {
        match behind(item, left) {
            Some(rest) => left = rest,
            None => return false,
        }
    }
    left.is_empty()
}

fn is_point(point: u64, word: &str) -> bool {
    word.parse() == Ok(point)
}

fn is_entry(entry: &Entry, word: &str) -> bool {
    match entry {
        Entry::Plain => word == "-",
        Entry::Point { point, .. } => is_point(*point, word),
        Entry::Asked { point, .. } => match word.strip_prefix('?') {
            Some(rest) => is_point(*point, rest),
            None => false,
        },
        Entry::Walk(trace) => are_items(trace.items.as_slice(), word.as_bytes()),
    }
}

/// Whether these entries have these words, with a space between two.
pub fn is_noted(journal: &[Entry], words: &str) -> bool {
    if words.is_empty() {
        return journal.is_empty();
    }
    let mut left = words.split(' ');
    for entry in journal {
        if !is_entry(entry, left.next().unwrap_or("")) {
            return false;
        }
    }
    left.next().is_none()
}
