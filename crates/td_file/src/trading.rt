//! The traders of the file, in the stores with which they open.

ghost use Rattle.std.specs.Prelude.{◌≡◌, ◌≤◌, length, IfOk};
ghost use Rattle.td_file.specs.Openings.{all_traders, bounds, new_store, store_after, trader_of};
ghost use Rattle.td_file.specs.Stages.{GivesOrRefuses};
ghost use Rattle.td_lines.specs.Laws.{AreShort};
ghost use Rattle.td_objects.specs.References.{IsAddress};
ghost use Rattle.td_trader.specs.OfferLimits.{HasLimitedOffers};
ghost use Rattle.td_trader.specs.PlainTraders.{new_trader};

use crate::entering::enter_all;
use crate::fault::FileFault;
use crate::opening::new_store;
use std::alloc::Global;
use td_cdr::{List, Memory, Text, Twin};
use td_changes::Bounds;
use td_lines::{Numbered, TraderScript};
use td_store::Store;
use td_trader::Trader;
use td_walk::Address;

/// The bounds of each trader.
fn bounds() -> Bounds
    ensures { result ≡ bounds }
{
    Bounds {
        ring: 4096,
        changes: 1000000,
        begins: 1099511627776,
    }
}

/// The store behind a trader's entries.
fn store_of(
    alloc: Global,
    home: &Address,
    name: &Text,
    interfaces: List<(Text, List<Text>)>,
    entries: List<Numbered>,
) -> Result<Store, FileFault>
    requires { IsAddress home.now }
    ensures gives { GivesOrRefuses (store_after home.now (new_store home.now name.now interfaces)
        entries)
        result }
    ensures limited { IfOk result HasLimitedOffers }
{
    let mut store = new_store(alloc, home, name, interfaces)?;
    match enter_all(alloc, home, &mut store, entries) {
        Ok(()) => Ok(store),
        Err(fault) => {
            drop(store);
            Err(fault)
        }
    }
}

/// A trader in this store, with an empty history and no marks.
fn trader_in(alloc: Global, name: Text, store: Store) -> Result<Trader, Memory>
    requires limited { HasLimitedOffers store }
    requires stem { length store.attributes.request_id_stem ≤ 64 }
    ensures { IfOk result (λ t. t ≡ new_trader name store bounds) }
{
    match store.attributes.request_id_stem.copy(alloc) {
        Ok(stem) => Trader::new(alloc, name, store, stem, bounds()),
        Err(memory) => {
            drop(name);
            drop(store);
            Err(memory)
        }
    }
}

/// A trader of the file.
fn open_trader(alloc: Global, home: &Address, content: TraderScript) -> Result<Trader, FileFault>
    requires home { IsAddress home.now }
    requires short { length content.name ≤ 32 }
    ensures { GivesOrRefuses (trader_of home.now content) result }
{
    let TraderScript {
        name,
        interfaces,
        entries,
    } = content;
    match store_of(alloc, home, &name, interfaces, entries) {
        Ok(store) => Ok(trader_in(alloc, name, store)?),
        Err(fault) => Err(fault),
    }
}

/// The traders of the file in order, up to the first entry that is refused.
pub(crate) fn open_all(
    alloc: Global,
    home: &Address,
    content: List<TraderScript>,
) -> Result<List<Trader>, FileFault>
    requires home { IsAddress home.now }
    requires short { AreShort content }
    ensures { GivesOrRefuses (all_traders home.now content) result }
{
    let mut traders = List::new(alloc);
    for one in content.into_vec() {
        let trader = open_trader(alloc, home, one)?;
        traders.push(trader)?;
    }
    Ok(traders)
}
