//! How a query begins at a trader's store where nothing was marked, and what it is served with there, by the calls that
//! keep nothing.

ghost use Rattle.std.specs.Prelude.{◌≡◌, IfOk};
ghost use Rattle.td_trader.specs.Queries.{parts_of};

use crate::answers::is_begun;
use std::alloc::Global;
use td_cdr::{Boxed, List, Memory, Octets};
use td_changes::Bounds;
use td_marks::Ring;
use td_ops::{Call, OpsFault, Query};
use td_store::LinkRecord;
use td_trader::{Begin, Parts, Trader, begin_query, judge, path_local, search_local};

/// Whether a query begins so: `begin QUERY`, or, where its parts are read first, `search QUERY` and `path QUERY`.
pub fn is_alone(
    alloc: Global,
    trader: &Trader,
    how: &str,
    call: Result<Boxed<Call>, OpsFault>,
    content: &str,
) -> bool {
    let Ok(call) = call else {
        return false;
    };
    match call.get() {
        Call::Query(query) => is_begun(served(alloc, trader, how, query), content),
        _ => false,
    }
}

fn served(alloc: Global, trader: &Trader, how: &str, query: &Query) -> Result<Begin, Memory> {
    match how {
        "search" => search(alloc, trader, query),
        "path" => path(alloc, trader, query),
        _ => begin(alloc, trader, query),
    }
}

fn begin(alloc: Global, trader: &Trader, query: &Query) -> Result<Begin, Memory> {
    let bounds = Bounds {
        ring: 2,
        changes: 1,
        begins: 5,
    };
    let mut ring = Ring::new(alloc, 2)?;
    let begun = begin_query(
        alloc,
        &bounds,
        trader.store(),
        trader.point(),
        &mut ring,
        query,
    );
    drop(ring);
    begun
}

/// What the query says.
fn parts(alloc: Global, trader: &Trader, query: &Query) -> Result<Parts, Memory>
    ensures { IfOk result (λ parts. parts ≡ parts_of query.now) }
{
    let bounds = Bounds {
        ring: 2,
        changes: 1,
        begins: 5,
    };
    match judge(alloc, &bounds, 0, trader.store(), query) {
        Ok(parts) => Ok(parts),
        Err(fault) => {
            drop(fault);
            Err(Memory)
        }
    }
}

/// Searched under the identifier `q`, with the mark 1.
fn search(alloc: Global, trader: &Trader, query: &Query) -> Result<Begin, Memory> {
    let identifier = Octets::from_slice(alloc, b"q")?;
    match parts(alloc, trader, query) {
        Ok(parts) => Ok(Begin::Search(search_local(
            alloc,
            trader.store(),
            query,
            parts,
            trader.point(),
            1,
            identifier,
        )?)),
        Err(memory) => {
            drop(identifier);
            Err(memory)
        }
    }
}

/// Passed on over the first link.
fn path(alloc: Global, trader: &Trader, query: &Query) -> Result<Begin, Memory> {
    let links: List<LinkRecord> = trader.store().links.records(alloc)?;
    let begun = match links.get(0) {
        Some(link) => path_over(alloc, trader, query, link),
        None => Err(Memory),
    };
    drop(links);
    begun
}

fn path_over(
    alloc: Global,
    trader: &Trader,
    query: &Query,
    link: &LinkRecord,
) -> Result<Begin, Memory> {
    let parts = parts(alloc, trader, query)?;
    Ok(Begin::Path(path_local(alloc, trader.store(), query, parts, trader.point(), link)?))
}
