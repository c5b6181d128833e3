//! How much a trader has.

ghost use Rattle.std.specs.Prelude.{◌≡◌, ◌++◌, length, IfOk, OnOk};
ghost use Rattle.td_check.specs.Checked.{count_line};
ghost use Rattle.td_trader.specs.PlainTraders.{store_of};

use std::alloc::Global;
use td_cdr::Memory;
use td_forms::{put, put_counted};
use td_store::Store;
use td_trader::Trader;
use td_types::TypesReply;

/// How many types a store has.
fn count_types(store: &Store) -> Result<usize, Memory>
    ensures { IfOk result (λ n. n ≡ length store.now.types.types) }
{
    match store.types.list(None) {
        Ok(TypesReply::Names(names)) => Ok(names.len()),
        // No other reply comes to a listing.
        Ok(_) => Err(Memory),
        Err(_) => Err(Memory),
    }
}

/// How many links a store has.
#[tactic(auto, using(crate::proofs::Counted::as_many_named))]
fn count_links(alloc: Global, store: &Store) -> Result<usize, Memory>
    ensures { IfOk result (λ n. n ≡ length store.now.links) }
{
    let names = store.links.names(alloc)?;
    Ok(names.len())
}

/// Appends how many types, offers and links the trader of a name has.
fn put_counts(
    text: &mut Vec<u8>,
    name: &[u8],
    types: usize,
    offers: usize,
    links: usize,
) -> Result<(), Memory>
    ensures { OnOk result (text.new.items
        ≡ text.old.items ++ count_line name.now types offers links) }
{
    put(text, b"trader ")?;
    put(text, name)?;
    put_counted(text, b" types ", types as u64)?;
    put_counted(text, b" offers ", offers as u64)?;
    put_counted(text, b" links ", links as u64)?;
    put(text, b"\n")
}

/// Appends how many types, offers and links a trader has.
pub(crate) fn put_count_line(
    alloc: Global,
    text: &mut Vec<u8>,
    trader: &Trader,
) -> Result<(), Memory>
    ensures { OnOk result (text.new.items ≡ text.old.items ++ count_line trader.now.name
        (length (store_of trader.now).types.types) (length (store_of trader.now).offers)
        (length (store_of trader.now).links)) }
{
    let store = trader.store();
    let types = count_types(store)?;
    let links = count_links(alloc, store)?;
    let name = trader.name().as_slice();
    put_counts(text, name, types, store.offers.len(), links)
}
