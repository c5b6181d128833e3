//! The order in which offers are wanted.

use crate::lang::support::cut;
use crate::making::{names, offers};
use std::alloc::Global;
use td_cdr::{Boxed, List, Text};
use td_eval::rank;
use td_lang::{LangFault, read_preference};
use td_out::{MemWords, Words};

const COSTS: &str = "1=Cost long  5|2=Cost long  7|3=|4=Cost long  7";

/// Preferences, and the names of these offers in the order that each asks for.
const BY_COST: &str = "max Cost => 2413
min Cost => 1243
max Cost / 2 => 2413
min 1 - Cost => 2413
first => 1234
 => 1234
with Cost => 1234";

const OWNED: &str =
    "1=Own boolean  FALSE|2=|3=Own boolean  TRUE|4=Own boolean  FALSE|5=Own boolean  TRUE";

const BY_OWNER: &str = "with Own => 35142
max Own => 12345";

/// The names of offers in the order that a preference asks for, and how many words are left.
fn ranked(
    alloc: Global,
    preference: &str,
    line: &str,
    words: &mut MemWords,
) -> Result<Text, LangFault> {
    let preference = Boxed::new(alloc, read_preference(alloc, preference.as_bytes())?)?;
    let ranked = rank(preference.get(), offers(alloc, line)?, words)?;
    Ok(names(alloc, &ranked)?)
}

/// Whether the preference of a line ranks these offers as the line says.
fn is_ranked(alloc: Global, offers: &str, line: &str) -> Result<bool, LangFault> {
    let (preference, wanted) = cut(line);
    let mut words = MemWords::new(List::new(alloc));
    let found = ranked(alloc, preference, offers, &mut words)?;
    Ok(found.as_slice() == wanted.as_bytes())
}

#[test]
fn offers_are_ranked(rt: HostRuntime) {
    for (offers, table) in [(COSTS, BY_COST), (OWNED, BY_OWNER)] {
        for line in table.lines() {
            assert!(rt;
                is_ranked(rt.alloc(), offers, line) == Ok(true),
                "at {line}"
            );
        }
    }
}

fn exchanges(alloc: Global) -> Result<bool, LangFault> {
    let mut words = MemWords::new(List::from_slice(alloc, &[7, 4, 9])?);
    let found = ranked(alloc, "random", "1=|2=|3=", &mut words)?;
    Ok(found.as_slice() == b"312".as_slice() && words.next() == 9)
}

#[test]
fn random_exchanges_by_the_words_that_it_draws(rt: HostRuntime) {
    assert!(rt; exchanges(rt.alloc()) == Ok(true));
}
