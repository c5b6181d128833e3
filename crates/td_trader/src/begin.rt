//! How a query begins at a trader (OMG's Trading Object Service, interface Lookup, query).

ghost use Rattle.std.specs.Prelude.{◌≡◌, ◌+◌, ◌<◌, ◌≤◌, ◌^◌, None, IfOk, OnErr, option_copied};
ghost use Rattle.td_cdr.specs.Marks.{remembered};
ghost use Rattle.td_marks.specs.Keeping.{most_kept};
ghost use Rattle.td_trader.specs.Beginning.{after_begin, begin_along, begin_here, begin_of, query_identifier};
ghost use Rattle.td_trader.specs.Beginning.{repeated_in};
ghost use Rattle.td_trader.specs.Beginning.{searched_under};
ghost use Rattle.td_trader.specs.Caching.{IsCacheOf};
ghost use Rattle.td_trader.specs.Queries.{parts_of, path_link};
ghost use Rattle.td_register.specs.Causes.{refusal_outcome};
ghost use Rattle.td_trader.specs.Serving.{local_of};
ghost use Rattle.td_trader.specs.declared.begin.Begin.TheVariants as way;

use crate::cache::Cache;
use crate::local::{path_cached, search_cached};
use crate::query::{Parts, first_name, judge};
use std::alloc::Global;
use td_cdr::{Boxed, Memory, Octets, Shared, Twin};
use td_changes::Bounds;
use td_marks::{Made, Ring};
use td_ops::{Outcome, Query};
use td_policy::Stated;
use td_register::{Fault, Refusal, refusal_outcome};
use td_store::{LinkRecord, Links, Local, Store};

/// How a query begins at one trader.
#[derive(Drop)]
pub enum Begin {
    /// It is refused, with this outcome.
    Refused(Boxed<Outcome>),
    /// It was searched here before: its identifier is remembered under the mark of this number.
    Repeat(u64),
    /// It is searched here, and was marked.
    Search(Boxed<Local>),
    /// It is passed on over the first link of its path.
    Path(Boxed<Local>),
}

/// Begins a query at a trader with this store, at this point of its history: marks it where it is to be
/// searched here, and nowhere else. All that it is served with is found before it is marked.
///
/// # Errors
///
/// `Memory` only when out of memory; nothing is marked then.
#[tactic(auto, using(crate::proofs::Cached::nothing_kept))]
pub fn begin_query(
    alloc: Global,
    bounds: &Bounds,
    store: &Store,
    point: u64,
    ring: &mut Ring,
    query: &Query,
) -> Result<Begin, Memory>
    requires { bounds.now.begins ≤ 2 ^ 40 }
    ensures begin { IfOk result (λ b. b ≡ begin_of bounds.now store.now point ring.old query.now) }
    ensures after { IfOk result (λ b. ring.new ≡ after_begin store.now ring.old query.now b) }
    ensures unchanged { OnErr result (ring.new ≡ ring.old) }
{
    let mut cache = Cache::new();
    let query = Shared::of(alloc, query)?;
    begin_cached(alloc, bounds, store, &mut cache, point, ring, &query)
}

/// The same at a trader that keeps what queries at its store have in common.
///
/// # Errors
///
/// `Memory` only when out of memory; nothing is marked then.
#[tactic(auto, unfolding(crate::specs::Beginning::begin_of, crate::specs::Beginning::after_begin))]
pub(crate) fn begin_cached(
    alloc: Global,
    bounds: &Bounds,
    store: &Store,
    cache: &mut Cache,
    point: u64,
    ring: &mut Ring,
    query: &Shared<Query>,
) -> Result<Begin, Memory>
    requires begins { bounds.now.begins ≤ 2 ^ 40 }
    requires cache { IsCacheOf store.now cache.old }
    ensures begin { IfOk result (λ b. b ≡ begin_of bounds.now store.now point ring.old query.now) }
    ensures after { IfOk result (λ b. ring.new ≡ after_begin store.now ring.old query.now b) }
    ensures unchanged { OnErr result (ring.new ≡ ring.old) }
    ensures cache { IsCacheOf store.now cache.new }
{
    match judge(alloc, bounds, ring.count(), store, query.get()) {
        Ok(parts) => begin_taken(alloc, store, cache, point, ring, query, parts),
        Err(Fault::Refused(refusal)) => refuse(alloc, refusal),
        Err(Fault::Memory) => Err(Memory),
    }
}

/// Begins a query that is refused.
fn refuse(alloc: Global, refusal: Refusal) -> Result<Begin, Memory>
    ensures { IfOk result (λ b. b ≡ way.Refused (refusal_outcome refusal)) }
{
    let outcome = Boxed::new(alloc, refusal_outcome(refusal))?;
    Ok(Begin::Refused(outcome))
}

/// Begins a query that is taken.
#[tactic(auto, unfolding(crate::specs::Beginning::after_begin))]
fn begin_taken(
    alloc: Global,
    store: &Store,
    cache: &mut Cache,
    point: u64,
    ring: &mut Ring,
    query: &Shared<Query>,
    parts: Parts,
) -> Result<Begin, Memory>
    requires parts { parts ≡ parts_of query.now }
    requires cache { IsCacheOf store.now cache.old }
    requires few { ring.old.count < 2 ^ 40 }
    ensures begin { IfOk result (λ b. b ≡ begin_along store.now point ring.old query.now
        (path_link store.now.links parts.stated)) }
    ensures after { IfOk result (λ b. ring.new ≡ after_begin store.now ring.old query.now b) }
    ensures unchanged { OnErr result (ring.new ≡ ring.old) }
    ensures cache { IsCacheOf store.now cache.new }
{
    match path_link(&store.links, &parts.stated) {
        Some(link) => Ok(Begin::Path(path_cached(alloc, store, cache, query, parts, point, link)?)),
        None => begin_here(alloc, store, cache, point, ring, query, parts),
    }
}

/// The link over which a query goes on that starts at another trader.
fn path_link<'a>(links: &'a Links, stated: &Stated) -> Option<&'a LinkRecord>
    ensures { option_copied result ≡ path_link links.now stated.now }
{
    match first_name(stated) {
        None => None,
        Some(name) => links.get(name),
    }
}

/// Begins a query that no path leads away.
#[tactic(auto, unfolding(crate::specs::Beginning::after_begin))]
fn begin_here(
    alloc: Global,
    store: &Store,
    cache: &mut Cache,
    point: u64,
    ring: &mut Ring,
    query: &Shared<Query>,
    parts: Parts,
) -> Result<Begin, Memory>
    requires parts { parts ≡ parts_of query.now }
    requires cache { IsCacheOf store.now cache.old }
    requires few { ring.old.count < 2 ^ 40 }
    ensures begin { IfOk result (λ b. b ≡ begin_here store.now point ring.old query.now
        (repeated_in ring.old parts.stated)) }
    ensures after { IfOk result (λ b. ring.new ≡ after_begin store.now ring.old query.now b) }
    ensures unchanged { OnErr result (ring.new ≡ ring.old) }
    ensures cache { IsCacheOf store.now cache.new }
{
    match repeated(ring, &parts.stated) {
        Some(number) => {
            drop(parts);
            Ok(Begin::Repeat(number))
        }
        None => begin_search(alloc, store, cache, point, ring, query, parts),
    }
}

/// The number under which the identifier is remembered that is stated.
fn repeated(ring: &Ring, stated: &Stated) -> Option<u64>
    ensures { result ≡ repeated_in ring.now stated.now }
{
    match &stated.request_id {
        None => None,
        Some(identifier) => ring.remembered(identifier.as_slice()),
    }
}

/// Marks a query that is searched here.
#[tactic(auto, unfolding(crate::specs::Beginning::after_begin))]
fn begin_search(
    alloc: Global,
    store: &Store,
    cache: &mut Cache,
    point: u64,
    ring: &mut Ring,
    query: &Shared<Query>,
    parts: Parts,
) -> Result<Begin, Memory>
    requires parts { parts ≡ parts_of query.now }
    requires cache { IsCacheOf store.now cache.old }
    requires few { ring.old.count < 2 ^ 40 }
    requires fresh { repeated_in ring.old parts.stated ≡ None }
    ensures begin { IfOk result (λ b. b ≡ begin_here store.now point ring.old query.now None) }
    ensures after { IfOk result (λ b. ring.new ≡ after_begin store.now ring.old query.now b) }
    ensures unchanged { OnErr result (ring.new ≡ ring.old) }
    ensures cache { IsCacheOf store.now cache.new }
{
    match identify(
        alloc,
        ring,
        &store.attributes.request_id_stem,
        &parts.stated,
    ) {
        Ok(made) => begin_marked(alloc, store, cache, point, ring, query, parts, made),
        Err(memory) => {
            drop(parts);
            Err(memory)
        }
    }
}

/// The identifier under which a query is searched: the one that it states, or one that is made.
fn identify(alloc: Global, ring: &Ring, stem: &Octets, stated: &Stated) -> Result<Made, Memory>
    requires few { ring.now.count ≤ 2 ^ 40 }
    requires fresh { repeated_in ring.now stated.now ≡ None }
    ensures made { IfOk result (λ made. made
        ≡ query_identifier ring.now stem.now stated.now.request_id) }
    ensures fresh { IfOk result (λ made. remembered ring.now made.identifier ≡ None) }
    ensures up { IfOk result (λ made. ring.now.counter ≤ made.counter) }
    ensures near { IfOk result (λ made. made.counter ≤ ring.now.counter + most_kept + 1) }
{
    match &stated.request_id {
        None => ring.make(alloc, stem.as_slice()),
        Some(identifier) => Ok(Made {
            identifier: identifier.copy(alloc)?,
            counter: ring.counter(),
        }),
    }
}

/// Finds what the query is searched with, and marks it then.
#[tactic(auto, unfolding(crate::specs::Beginning::after_begin))]
fn begin_marked(
    alloc: Global,
    store: &Store,
    cache: &mut Cache,
    point: u64,
    ring: &mut Ring,
    query: &Shared<Query>,
    parts: Parts,
    made: Made,
) -> Result<Begin, Memory>
    requires parts { parts ≡ parts_of query.now }
    requires cache { IsCacheOf store.now cache.old }
    requires few { ring.old.count < 2 ^ 40 }
    requires made { made ≡ searched_under store.now ring.old query.now }
    requires fresh { remembered ring.old made.identifier ≡ None }
    requires up { ring.old.counter ≤ made.counter }
    requires near { made.counter ≤ ring.old.counter + most_kept + 1 }
    ensures begin { IfOk result (λ b. b ≡ begin_here store.now point ring.old query.now None) }
    ensures after { IfOk result (λ b. ring.new ≡ after_begin store.now ring.old query.now b) }
    ensures unchanged { OnErr result (ring.new ≡ ring.old) }
    ensures cache { IsCacheOf store.now cache.new }
{
    let local = local_under(
        alloc,
        store,
        cache,
        point,
        ring.count() + 1,
        query,
        parts,
        &made,
    )?;
    match ring.mark(alloc, made.identifier.as_slice(), made.counter) {
        Ok(_) => Ok(Begin::Search(local)),
        Err(memory) => {
            drop(local);
            Err(memory)
        }
    }
}

/// What a query is searched with under this identifier.
fn local_under(
    alloc: Global,
    store: &Store,
    cache: &mut Cache,
    point: u64,
    mark: u64,
    query: &Shared<Query>,
    parts: Parts,
    made: &Made,
) -> Result<Boxed<Local>, Memory>
    requires parts { parts ≡ parts_of query.now }
    requires cache { IsCacheOf store.now cache.old }
    ensures served { IfOk result (λ l. l
        ≡ local_of store.now point mark made.now.identifier query.now) }
    ensures cache { IsCacheOf store.now cache.new }
{
    match made.identifier.copy(alloc) {
        Ok(identifier) => search_cached(alloc, store, cache, query, parts, point, mark, identifier),
        Err(memory) => {
            drop(parts);
            Err(memory)
        }
    }
}
