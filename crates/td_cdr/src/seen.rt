//! Names that were met.

ghost use Rattle.std.specs.Prelude.{◌≡◌, ◌<◌, ◌≤◌, List, ℕ, [], ◌||◌, not, IfOk, OnOk};
ghost use Rattle.std.specs.Str.{bytes_eq};
ghost use Rattle.td_cdr.specs.Seen.{has_seen, is_among, names_of, HaveSeen};

use crate::memory::Memory;
use std::alloc::Global;
use std::collections::BTreeSet;
use std::marker::Model;

/// How many names are compared one by one.
const FEW: usize = 16;

/// Names that were met. The first 16 stand in place and are compared one by one, which takes no memory;
/// those behind them stand in a set. Contracts see it as the names.
pub struct Seen<'a> {
    first: [&'a [u8]; 16],
    /// How many of `first` are names.
    count: usize,
    others: BTreeSet<&'a [u8]>,
}

impl<'a> Drop for Seen<'a> {
    fn drop(self) {
        let Seen {
            first: _first,
            count: _count,
            others: _others,
        } = self;
    }
}

impl<'a> Model for Seen<'a> {
    ghost use Rattle.std.specs.Prelude.{◌≡◌, ◌<◌, ◌≤◌, ◌++◌, [], List, ℕ, take};
    ghost use Rattle.td_cdr.specs.Seen.{names_of};

    ghost Value = { List (List ℕ) };

    ghost view = { λ s. names_of (take s.count s.first) ++ names_of s.others.keys };

    ghost invariant = { λ s. (s.count ≤ 16) × (s.count < 16 → s.others.keys ≡ []) };
}

/// No names.
pub fn nothing_seen<'a>(alloc: Global) -> Seen<'a>
    ensures { HaveSeen result [] }
{
    Seen {
        first: [b"".as_slice(); 16],
        count: 0,
        others: BTreeSet::new(alloc),
    }
}

/// Adds a name, and answers whether it wasn't there.
///
/// # Errors
///
/// `Memory` only when out of memory; never for one of the first 16.
#[tactic(auto, using(crate::proofs::Sets::met))]
pub fn see<'a>(seen: &mut Seen<'a>, name: &'a [u8]) -> Result<bool, Memory>
    ensures fresh { IfOk result (λ fresh. fresh ≡ not (has_seen seen.old name.now)) }
    ensures added { OnOk result ((other : List ℕ) → has_seen seen.new other
        ≡ (bytes_eq name.now other || has_seen seen.old other)) }
{
    let count = seen.count;
    if is_among(name, &seen.first[..count]) {
        return Ok(false);
    }
    if count < FEW {
        seen.first[count] = name;
        seen.count = count + 1;
        return Ok(true);
    }
    Ok(seen.others.insert(name)?)
}

/// Whether a name is among these.
fn is_among(name: &[u8], names: &[&[u8]]) -> bool
    ensures { result ≡ is_among name.now (names_of names.now) }
{
    for other in names {
        if name == *other {
            return true;
        }
    }
    false
}
