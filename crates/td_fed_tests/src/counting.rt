//! How many types, offers, proxy offers and links the traders of a file have.

use crate::looking::tells;
use std::alloc::Global;
use td_trader::Trader;

/// Whether a trader has so many types, offers, proxy offers and links.
fn has_counts(alloc: Global, trader: &Trader, content: &str) -> bool {
    let mut counts = content.split(' ');
    for word in "types offers proxies links".split(' ') {
        if !tells(alloc, trader, word, counts.next().unwrap_or("")) {
            return false;
        }
    }
    counts.next().is_none()
}

/// Whether a trader has this name and these counts, an empty history and no marks.
fn is_counted(alloc: Global, trader: &Trader, content: &str) -> bool {
    let (name, counts) = content.split_once(' ').unwrap_or((content, ""));
    trader.name().as_slice() == name.as_bytes()
        && trader.history().is_empty()
        && trader.point() == 0
        && trader.marks() == 0
        && has_counts(alloc, trader, counts)
}

/// Whether these traders have these names and counts; `none` is no trader.
pub(crate) fn are_counted(alloc: Global, traders: &[Trader], content: &str) -> bool {
    let mut rest = content;
    for trader in traders {
        let (part, behind) = rest.split_once(", ").unwrap_or((rest, ""));
        if !is_counted(alloc, trader, part) {
            return false;
        }
        rest = behind;
    }
    rest.is_empty() || rest == "none"
}
