//! Links to traders that the file doesn't have.

ghost use Rattle.std.specs.Prelude.{◌≡◌};
ghost use Rattle.td_file.specs.Openings.{is_known, is_missing, missing_among, missing_in};

use td_lines::{FileEntry, Numbered, TraderScript};

/// Whether a trader of the file has this name.
fn is_known(name: &[u8], traders: &[TraderScript]) -> bool
    ensures { result ≡ is_known name.now traders.now }
{
    traders.iter().any(|trader| name == trader.name.as_slice())
}

/// Whether an entry links to a trader that the file doesn't have.
fn is_missing(traders: &[TraderScript], entry: &FileEntry) -> bool
    ensures { result ≡ is_missing traders.now entry.now }
{
    match entry {
        FileEntry::Change(_) => false,
        FileEntry::Link { trader, .. } => !is_known(trader.as_slice(), traders),
    }
}

/// The first line of these entries that links to a missing trader.
fn missing_among(traders: &[TraderScript], entries: &[Numbered]) -> Option<u32>
    ensures { result ≡ missing_among traders.now entries.now }
{
    for one in entries {
        if is_missing(traders, &one.entry) {
            return Some(one.line);
        }
    }
    None
}

/// The first line of these traders that links to one that isn't among all.
pub(crate) fn missing_in(all: &[TraderScript], traders: &[TraderScript]) -> Option<u32>
    ensures { result ≡ missing_in all.now traders.now }
{
    for trader in traders {
        match missing_among(all, trader.entries.as_slice()) {
            Some(line) => return Some(line),
            None => {}
        }
    }
    None
}
