//! What a trader keeps of what queries were served with, until it accepts a change.

ghost use Rattle.std.specs.Prelude.{◌≡◌, IsTrue, IfOk, IfSome};
ghost use Rattle.td_register.specs.Stores.{Store as Kept};
ghost use Rattle.td_store.specs.Candidates.{uses};
ghost use Rattle.td_trader.specs.Caching.{IsCacheOf, IsSearchAt, IsSearchFor, nothing_cached, searched_by, uses_of};

use std::alloc::Global;
use td_cdr::{List, Memory, Shared, Text, Twin, copy_two};
use td_policy::{Attributes, Stated};
use td_store::{LinkRecord, Links, OfferRecord};

/// What queries were served with at a trader's store (OMG's Trading Object Service, interface Lookup, query): one value
/// of each for all queries. What isn't here is found once a query wants it.
pub struct Cache {
    pub(crate) attributes: Option<Shared<Attributes>>,
    /// In the order of adding.
    pub(crate) links: Option<Shared<List<LinkRecord>>>,
    /// What the last search searched.
    pub(crate) search: Option<CachedSearch>,
}

// By hand, since a derived drop is written out at each exit, and proved again in each crate above.
impl Drop for Cache {
    fn drop(self) {
        let Cache {
            attributes: _attributes,
            links: _links,
            search: _search,
        } = self;
    }
}

/// The offers that a query searched, and what decides at a store which these are.
pub struct CachedSearch {
    service_type: Text,
    uses: Uses,
    /// How many offers were searched at most.
    count: u32,
    offers: Shared<List<OfferRecord>>,
}

impl Drop for CachedSearch {
    fn drop(self) {
        let CachedSearch {
            service_type: _service_type,
            uses: _uses,
            count: _count,
            offers: _offers,
        } = self;
    }
}

/// Which offers a query's policies let it use.
#[derive(Clone, Copy, PartialEq, Eq)]
pub struct Uses {
    /// None of the types below the asked one (exact_type_match).
    exact: bool,
    proxies: bool,
    dynamic: bool,
    modifiable: bool,
}

impl Cache {
    /// Nothing is kept. Takes no memory.
    pub(crate) fn new() -> Cache
        ensures { result ≡ nothing_cached }
    {
        Cache {
            attributes: None,
            links: None,
            search: None,
        }
    }
}

/// One owner more.
fn owner<T>(alloc: Global, shared: &Shared<T>) -> Option<Shared<T>>
    ensures { IfSome result (λ s. s ≡ shared.now) }
{
    match shared.copy(alloc) {
        Ok(owner) => Some(owner),
        Err(_) => None,
    }
}

/// The value in a block that is kept.
///
/// # Errors
///
/// `Memory` only when out of memory.
pub(crate) fn share<T: Twin + Drop>(
    alloc: Global,
    value: &T,
    kept: &mut Option<Shared<T>>,
) -> Result<Shared<T>, Memory>
    requires { IfSome kept.old (λ k. k ≡ value.now) }
    ensures shared { IfOk result (λ s. s ≡ value.now) }
    ensures kept { IfSome kept.new (λ k. k ≡ value.now) }
{
    match kept {
        Some(shared) => shared.copy(alloc),
        None => {
            let shared = Shared::of(alloc, value)?;
            *kept = owner(alloc, &shared);
            Ok(shared)
        }
    }
}

/// The links in a block that is kept.
///
/// # Errors
///
/// `Memory` only when out of memory.
pub(crate) fn share_links(
    alloc: Global,
    links: &Links,
    kept: &mut Option<Shared<List<LinkRecord>>>,
) -> Result<Shared<List<LinkRecord>>, Memory>
    requires { IfSome kept.old (λ k. k ≡ links.now) }
    ensures shared { IfOk result (λ s. s ≡ links.now) }
    ensures kept { IfSome kept.new (λ k. k ≡ links.now) }
{
    match kept {
        Some(shared) => shared.copy(alloc),
        None => {
            let records = links.records(alloc)?;
            let shared = Shared::new(alloc, records)?;
            *kept = owner(alloc, &shared);
            Ok(shared)
        }
    }
}

/// What is used where a policy states this: all, where it isn't stated.
fn is_used(stated: Option<bool>) -> bool
    ensures { result ≡ uses stated }
{
    stated.unwrap_or(true)
}

/// Which offers these policies let a query use.
pub(crate) fn uses_of(stated: &Stated) -> Uses
    ensures { result ≡ uses_of stated.now }
{
    Uses {
        exact: stated.exact.unwrap_or(false),
        proxies: is_used(stated.use_proxy),
        dynamic: is_used(stated.use_dynamic),
        modifiable: is_used(stated.use_modifiable),
    }
}

/// Whether the search is one for this type by these policies, of so many offers.
fn is_search_for(search: &CachedSearch, uses: Uses, service_type: &Text, count: u32) -> bool
    ensures { IsTrue result → IsSearchFor search.now uses service_type.now count }
{
    if search.count != count {
        return false;
    }
    if search.uses != uses {
        return false;
    }
    search.service_type.as_slice() == service_type.as_slice()
}

/// The offers of the search that is kept, where it is one for this type by these policies, of so many offers.
#[tactic(auto, using(crate::proofs::Cached::searched_before))]
pub(crate) fn searched_before(
    alloc: Global,
    kept: &Option<CachedSearch>,
    uses: Uses,
    service_type: &Text,
    count: u32,
) -> Option<Shared<List<OfferRecord>>>
    ensures { (s : Kept) → IfSome kept.now (IsSearchAt s)
        → IfSome result (λ found. found ≡ searched_by s uses service_type.now count) }
{
    match kept {
        None => None,
        Some(search) => {
            if !is_search_for(search, uses, service_type, count) {
                return None;
            }
            owner(alloc, &search.offers)
        }
    }
}

/// A search that may be kept.
fn cached_search(
    alloc: Global,
    uses: Uses,
    service_type: &Text,
    count: u32,
    found: &Shared<List<OfferRecord>>,
) -> Result<CachedSearch, Memory>
    ensures { IfOk result (λ search.
        search ≡ record {
          service_type = service_type.now;
          uses = uses;
          count = count;
          offers = found.now;
        }) }
{
    let (service_type, offers) = copy_two(alloc, service_type, found)?;
    Ok(CachedSearch {
        service_type,
        uses,
        count,
        offers,
    })
}

/// The search of these offers, to be kept. Where there is no memory for its key, none is.
pub(crate) fn search_to_keep(
    alloc: Global,
    uses: Uses,
    service_type: &Text,
    count: u32,
    found: &Shared<List<OfferRecord>>,
) -> Option<CachedSearch>
    ensures { (s : Kept) → found.now ≡ searched_by s uses service_type.now count
        → IfSome result (IsSearchAt s) }
{
    match cached_search(alloc, uses, service_type, count, found) {
        Ok(search) => Some(search),
        Err(_) => None,
    }
}
