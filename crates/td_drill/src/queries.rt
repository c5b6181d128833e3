//! The queries of a drill.

ghost use Rattle.std.specs.Prelude.{◌≡◌, ◌<◌, length, map, IfOk};
ghost use Rattle.td_drill.specs.Drills.{DrillsAll, WalksFromTrader, DrillsFirst, drill_query};
ghost use Rattle.td_fed.specs.Visiting.{course};
ghost use Rattle.td_trader.specs.Solos.{solo_view};

use crate::tally::{Tally, no_walk, tally_of, together};
use std::alloc::Global;
use td_cdr::{List, Memory, Shared, Text};
use td_fed::visit;
use td_ops::Query;
use td_out::Words;
use td_peers::MemPeers;
use td_trader::{Solo, Traders};
use td_value::SpecifiedProps;
use td_walk::{Address, Trace};

/// The query that each trader is asked.
///
/// # Errors
///
/// `Memory` only when out of memory.
pub fn drill_query(alloc: Global) -> Result<Query, Memory>
    ensures { IfOk result (λ q. q ≡ drill_query) }
{
    let service_type = Text::from_slice(alloc, b"Base")?;
    let constraint = Text::from_slice(alloc, b"Cost < 6")?;
    let preference = Text::from_slice(alloc, b"min Cost")?;
    Ok(Query {
        service_type,
        constraint,
        preference,
        policies: List::new(alloc),
        desired: SpecifiedProps::None,
        how_many: 100,
    })
}

/// Asks a trader, and counts what its walk comes to.
fn ask<W: Words>(
    alloc: Global,
    solo: &mut Solo,
    home: &Address,
    trader: usize,
    q: &Shared<Query>,
    peers: &mut MemPeers,
    words: &mut W,
) -> Result<Tally, Memory>
    requires { trader < length (map solo_view solo.old.traders.items) }
    ensures comes { IfOk result (λ t. WalksFromTrader home.now q.now
        (course (map solo_view solo.old.traders.items) (W.word words.old) peers.old.calls) trader t
        (course (map solo_view solo.new.traders.items) (W.word words.new) peers.new.calls)) }
    ensures many { length (map solo_view solo.new.traders.items)
        ≡ length (map solo_view solo.old.traders.items) }
{
    let mut trace = Trace {
        items: List::new(alloc),
    };
    let visited = visit(alloc, solo, home, trader, q, peers, words, &mut trace)?;
    let tally = tally_of(trace.items.as_slice(), &visited);
    drop(visited);
    tally
}

/// Asks each trader, in order, of which there are so many.
fn ask_each<W: Words>(
    alloc: Global,
    solo: &mut Solo,
    home: &Address,
    count: usize,
    q: &Shared<Query>,
    peers: &mut MemPeers,
    words: &mut W,
) -> Result<Tally, Memory>
    requires { count ≡ length (map solo_view solo.old.traders.items) }
    ensures { IfOk result (λ t. DrillsFirst home.now q.now
        (course (map solo_view solo.old.traders.items) (W.word words.old) peers.old.calls) count t
        (course (map solo_view solo.new.traders.items) (W.word words.new) peers.new.calls)) }
{
    let mut all = no_walk();
    for trader in 0..count {
        let one = ask(alloc, solo, home, trader, q, peers, words)?;
        let more = together(all, one)?;
        all = more;
    }
    Ok(all)
}

/// Asks each trader the query of the drill. No peer outside is there.
pub(crate) fn ask_all<W: Words>(
    alloc: Global,
    solo: &mut Solo,
    home: &Address,
    words: &mut W,
) -> Result<Tally, Memory>
    ensures { IfOk result (λ t. DrillsAll (W.word words.old) home.now solo.old.traders.items t) }
{
    let query = Shared::new(alloc, drill_query(alloc)?)?;
    let mut peers = MemPeers::new(alloc, List::new(alloc), List::new(alloc));
    let count = solo.count();
    let tally = ask_each(alloc, solo, home, count, &query, &mut peers, words);
    drop(peers);
    drop(query);
    tally
}
