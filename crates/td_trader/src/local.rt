//! What a query is served with at one trader (OMG's Trading Object Service, interface Lookup, query).

ghost use Rattle.std.specs.Prelude.{◌≡◌, [], IfOk, IfSome};
ghost use Rattle.td_ops.specs.declared.call.Query.{Query as Asked};
ghost use Rattle.td_store.specs.Candidates.{candidates};
ghost use Rattle.td_trader.specs.Queries.{parts_of};
ghost use Rattle.td_trader.specs.Caching.{IsCacheOf, IsSearchAt};
ghost use Rattle.td_trader.specs.Serving.{bare_local, candidates_of, copies_of, local_of, path_of};
ghost use Rattle.td_register.specs.Stores.{Store as Kept};

use crate::cache::{
    Cache, CachedSearch, search_to_keep, searched_before, share, share_links, uses_of,
};
use crate::query::Parts;
use std::alloc::Global;
use std::marker::Brand;
use std::sync::ledger::{Blank, Ledger};
use td_cdr::{Boxed, List, Memory, Octets, Shared, Twin};
use td_ops::Query;
use td_policy::{Attributes, Effective, Stated, effective_of};
use td_store::{LinkRecord, Local, OfferRecord, Steps, Store};

/// What a query is searched with at this point, under this identifier and with this mark. What queries
/// at this store have in common is taken from what is kept, or is kept then.
///
/// # Errors
///
/// `Memory` only when out of memory.
#[tactic(auto, unfolding(crate::specs::Serving::local_of))]
pub(crate) fn search_cached(
    alloc: Global,
    store: &Store,
    cache: &mut Cache,
    query: &Shared<Query>,
    parts: Parts,
    point: u64,
    mark: u64,
    identifier: Octets,
) -> Result<Boxed<Local>, Memory>
    requires parts { parts ≡ parts_of query.now }
    requires cache { IsCacheOf store.now cache.old }
    ensures served { IfOk result (λ local. local
        ≡ local_of store.now point mark identifier query.now) }
    ensures cache { IsCacheOf store.now cache.new }
{
    match copy_searched(alloc, store, cache, query, &parts.stated) {
        Ok((copies, searched)) => {
            let mut local = bare_local(parts, copies, searched, point, Some(identifier));
            local.mark = mark;
            Boxed::new(alloc, local)
        }
        Err(memory) => {
            drop(parts);
            drop(identifier);
            Err(memory)
        }
    }
}

/// What a query is searched with at this point, under this identifier and with this mark.
///
/// # Errors
///
/// `Memory` only when out of memory.
#[tactic(auto, using(crate::proofs::Cached::nothing_kept))]
pub fn search_local(
    alloc: Global,
    store: &Store,
    query: &Query,
    parts: Parts,
    point: u64,
    mark: u64,
    identifier: Octets,
) -> Result<Boxed<Local>, Memory>
    requires { parts ≡ parts_of query.now }
    ensures { IfOk result (λ local. local ≡ local_of store.now point mark identifier query.now) }
{
    match Shared::of(alloc, query) {
        Ok(query) => {
            let mut cache = Cache::new();
            search_cached(
                alloc, store, &mut cache, &query, parts, point, mark, identifier,
            )
        }
        Err(memory) => {
            drop(parts);
            drop(identifier);
            Err(memory)
        }
    }
}

/// What a query is passed on with over this link, at this point. What queries at this store have in
/// common is taken from what is kept, or is kept then.
///
/// # Errors
///
/// `Memory` only when out of memory.
#[tactic(auto, unfolding(crate::specs::Serving::path_of))]
pub(crate) fn path_cached(
    alloc: Global,
    store: &Store,
    cache: &mut Cache,
    query: &Shared<Query>,
    parts: Parts,
    point: u64,
    link: &LinkRecord,
) -> Result<Boxed<Local>, Memory>
    requires parts { parts ≡ parts_of query.now }
    requires cache { IsCacheOf store.now cache.old }
    ensures served { IfOk result (λ local. local ≡ path_of store.now point link.now query.now) }
    ensures cache { IsCacheOf store.now cache.new }
{
    match copy_passed(alloc, store, cache, query, &parts.stated, link) {
        Ok((copies, passed)) => {
            let Passed {
                searched,
                link,
                identifier,
            } = passed;
            let mut local = bare_local(parts, copies, searched, point, identifier);
            local.path = Some(link);
            Boxed::new(alloc, local)
        }
        Err(memory) => {
            drop(parts);
            Err(memory)
        }
    }
}

/// What a query is passed on with over this link, at this point.
///
/// # Errors
///
/// `Memory` only when out of memory.
#[tactic(auto, using(crate::proofs::Cached::nothing_kept))]
pub fn path_local(
    alloc: Global,
    store: &Store,
    query: &Query,
    parts: Parts,
    point: u64,
    link: &LinkRecord,
) -> Result<Boxed<Local>, Memory>
    requires { parts ≡ parts_of query.now }
    ensures { IfOk result (λ local. local ≡ path_of store.now point link.now query.now) }
{
    match Shared::of(alloc, query) {
        Ok(query) => {
            let mut cache = Cache::new();
            path_cached(alloc, store, &mut cache, &query, parts, point, link)
        }
        Err(memory) => {
            drop(parts);
            Err(memory)
        }
    }
}

/// What every query is served with beside its own words.
#[derive(Drop)]
pub(crate) struct Copies {
    query: Shared<Query>,
    attributes: Shared<Attributes>,
    effective: Effective,
}

/// What is searched: offers by rising number, and links in the order of adding.
#[derive(Drop)]
pub(crate) struct Searched {
    candidates: Shared<List<OfferRecord>>,
    links: Shared<List<LinkRecord>>,
}

/// What a query is served with that is passed on.
#[derive(Drop)]
pub(crate) struct Passed {
    /// Nothing is.
    searched: Searched,
    link: LinkRecord,
    identifier: Option<Octets>,
}

/// What a query is served with.
fn bare_local(
    parts: Parts,
    copies: Copies,
    searched: Searched,
    point: u64,
    identifier: Option<Octets>,
) -> Local
    ensures { (s : Kept) (q : Asked) → parts ≡ parts_of q → copies ≡ copies_of s q parts.stated →
        result ≡ record (bare_local s point identifier q) {
          candidates = searched.candidates;
          links = searched.links;
        } }
{
    Local {
        point,
        mark: 0,
        path: None,
        query: copies.query,
        identifier,
        stated: parts.stated,
        effective: copies.effective,
        attributes: copies.attributes,
        constraint: parts.constraint,
        preference: parts.preference,
        candidates: searched.candidates,
        links: searched.links,
    }
}

/// The query, with what the trader serves it with.
fn copies_of(
    alloc: Global,
    store: &Store,
    cache: &mut Cache,
    query: &Shared<Query>,
    stated: &Stated,
) -> Result<Copies, Memory>
    requires { IsCacheOf store.now cache.old }
    ensures copies { IfOk result (λ copies. copies ≡ copies_of store.now query.now stated.now) }
    ensures cache { IsCacheOf store.now cache.new }
{
    let effective = effective_of(alloc, stated, &store.attributes)?;
    let query = query.copy(alloc)?;
    let attributes = share(alloc, &store.attributes, &mut cache.attributes)?;
    Ok(Copies {
        query,
        attributes,
        effective,
    })
}

/// The same, with what is searched.
fn copy_searched(
    alloc: Global,
    store: &Store,
    cache: &mut Cache,
    query: &Shared<Query>,
    stated: &Stated,
) -> Result<(Copies, Searched), Memory>
    requires { IsCacheOf store.now cache.old }
    ensures copied { IfOk result (λ copied. copied
        ≡ (
          copies_of store.now query.now stated.now,
          record {
            candidates = candidates_of store.now query.now stated.now;
            links = store.now.links;
          },
        )) }
    ensures cache { IsCacheOf store.now cache.new }
{
    let copies = copies_of(alloc, store, cache, query, stated)?;
    let count = copies.effective.search_card;
    match find_searched(alloc, store, cache, query, stated, count) {
        Ok(searched) => Ok((copies, searched)),
        Err(memory) => {
            drop(copies);
            Err(memory)
        }
    }
}

/// The first so many offers that a query searches, and all links.
fn find_searched(
    alloc: Global,
    store: &Store,
    cache: &mut Cache,
    query: &Query,
    stated: &Stated,
    count: u32,
) -> Result<Searched, Memory>
    requires { IsCacheOf store.now cache.old }
    ensures searched { IfOk result (λ found. found ≡ record {
      candidates = candidates store.now.types.types store.now.attributes stated.now
          query.now.service_type count store.now.offers;
      links = store.now.links;
    }) }
    ensures cache { IsCacheOf store.now cache.new }
{
    let links = share_links(alloc, &store.links, &mut cache.links)?;
    let candidates = share_candidates(alloc, store, &mut cache.search, query, stated, count)?;
    Ok(Searched { candidates, links })
}

/// The first so many offers that a query searches: those of the search that is kept, where it is the
/// same. Others are kept then.
#[tactic(auto, using(crate::proofs::Cached::by_uses, crate::proofs::Cached::from_uses))]
fn share_candidates(
    alloc: Global,
    store: &Store,
    kept: &mut Option<CachedSearch>,
    query: &Query,
    stated: &Stated,
    count: u32,
) -> Result<Shared<List<OfferRecord>>, Memory>
    requires { IfSome kept.old (IsSearchAt store.now) }
    ensures found { IfOk result (λ found. found
        ≡ candidates store.now.types.types store.now.attributes stated.now query.now.service_type
        count store.now.offers) }
    ensures kept { IfSome kept.new (IsSearchAt store.now) }
{
    let uses = uses_of(stated);
    match searched_before(alloc, kept, uses, &query.service_type, count) {
        Some(found) => Ok(found),
        None => {
            let candidates = candidates_of(alloc, store, query, stated, count)?;
            let found = Shared::new(alloc, candidates)?;
            *kept = search_to_keep(alloc, uses, &query.service_type, count, &found);
            Ok(found)
        }
    }
}

/// The first so many offers that a query searches, found on a counter of its own.
fn candidates_of(
    alloc: Global,
    store: &Store,
    query: &Query,
    stated: &Stated,
    count: u32,
) -> Result<List<OfferRecord>, Memory>
    ensures { IfOk result (λ found. found
        ≡ candidates store.now.types.types store.now.attributes stated.now query.now.service_type
        count store.now.offers) }
{
    counted_candidates::<Brand>(alloc, store, query, stated, count, Blank::new(1))
}

fn counted_candidates<L: Ledger>(
    alloc: Global,
    store: &Store,
    query: &Query,
    stated: &Stated,
    count: u32,
    blank: Blank,
) -> Result<List<OfferRecord>, Memory>
    requires name { blank.name ≡ L.name }
    requires parts { blank.parts ≡ L.parts }
    requires one { L.parts ≡ 1 }
    ensures { IfOk result (λ found. found
        ≡ candidates store.now.types.types store.now.attributes stated.now query.now.service_type
        count store.now.offers) }
{
    let mut steps = Steps::<L>::new(blank);
    store.offers.candidates(
        alloc,
        &store.types,
        &store.attributes,
        stated,
        &query.service_type,
        count,
        &mut steps,
    )
}

/// The query with what the trader serves it with, the link over which it is passed on, and the
/// identifier that it states.
fn copy_passed(
    alloc: Global,
    store: &Store,
    cache: &mut Cache,
    query: &Shared<Query>,
    stated: &Stated,
    link: &LinkRecord,
) -> Result<(Copies, Passed), Memory>
    requires { IsCacheOf store.now cache.old }
    ensures copied { IfOk result (λ copied. copied ≡ (
      copies_of store.now query.now stated.now,
      record {
        searched = record { candidates = []; links = [] };
        link = link.now;
        identifier = stated.now.request_id;
      },
    )) }
    ensures cache { IsCacheOf store.now cache.new }
{
    let copies = copies_of(alloc, store, cache, query, stated)?;
    match copy_for_path(alloc, link, stated) {
        Ok(passed) => Ok((copies, passed)),
        Err(memory) => {
            drop(copies);
            Err(memory)
        }
    }
}

/// A query that is passed on searches nothing.
fn nothing_searched(alloc: Global) -> Result<Searched, Memory>
    ensures { IfOk result (λ searched. searched ≡ record { candidates = []; links = [] }) }
{
    let candidates = Shared::new(alloc, List::new(alloc))?;
    let links = Shared::new(alloc, List::new(alloc))?;
    Ok(Searched { candidates, links })
}

fn copy_for_path(alloc: Global, link: &LinkRecord, stated: &Stated) -> Result<Passed, Memory>
    ensures { IfOk result (λ passed. passed ≡ record {
      searched = record { candidates = []; links = [] };
      link = link.now;
      identifier = stated.now.request_id;
    }) }
{
    let (link, identifier) = copy_link(alloc, link, stated)?;
    match nothing_searched(alloc) {
        Ok(searched) => Ok(Passed {
            searched,
            link,
            identifier,
        }),
        Err(memory) => {
            drop(link);
            drop(identifier);
            Err(memory)
        }
    }
}

fn copy_link(
    alloc: Global,
    link: &LinkRecord,
    stated: &Stated,
) -> Result<(LinkRecord, Option<Octets>), Memory>
    ensures { IfOk result (λ copied. copied ≡ (link.now, stated.now.request_id)) }
{
    let identifier = copy_identifier(alloc, stated)?;
    let link = link.copy(alloc)?;
    Ok((link, identifier))
}

/// The identifier that is stated, if one is.
fn copy_identifier(alloc: Global, stated: &Stated) -> Result<Option<Octets>, Memory>
    ensures { IfOk result (λ identifier. identifier ≡ stated.now.request_id) }
{
    match &stated.request_id {
        None => Ok(None),
        Some(identifier) => Ok(Some(identifier.copy(alloc)?)),
    }
}
