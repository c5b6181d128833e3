//! Looks at a store.

ghost use Rattle.std.specs.Prelude.{◌≡◌, IfOk};
ghost use Rattle.td_changes.specs.Applying.{seek, seen};
ghost use Rattle.td_register.specs.Judged.{IsOutcomeOrNoMemory};

use std::alloc::Global;
use td_admin::{
    describe_link, describe_type, fully_describe_type, get, list_links, list_offers, list_proxies,
    list_types,
};
use td_cdr::Memory;
use td_ops::{Look, Outcome};
use td_register::{describe, describe_proxy};
use td_store::Store;

/// What a look is answered with.
#[tactic(auto, unfolding(crate::specs::Applying::seen))]
fn seen(alloc: Global, store: &Store, l: &Look) -> Result<Outcome, Memory>
    ensures { IsOutcomeOrNoMemory (seen store.now l.now) result }
{
    match l {
        Look::Describe { id } => describe(alloc, store, id),
        Look::DescribeLink { name } => describe_link(alloc, store, name),
        Look::ListLinks => list_links(alloc, store),
        Look::DescribeProxy { id } => describe_proxy(alloc, store, id),
        Look::ListOffers { .. } => list_offers(alloc, store),
        Look::ListProxies { .. } => list_proxies(alloc, store),
        Look::ListTypes { which } => list_types(store, which),
        Look::DescribeType { name } => describe_type(store, name),
        Look::FullyDescribeType { name } => fully_describe_type(store, name),
        Look::Get(attribute) => get(alloc, store, *attribute),
    }
}

/// What a look is answered with, and the store's max_list, by which a session cuts a list of ids.
///
/// # Errors
///
/// `Memory` only when out of memory.
pub fn seek(alloc: Global, store: &Store, l: &Look) -> Result<(Outcome, u32), Memory>
    ensures { IfOk result (λ a. a ≡ seek store.now l.now) }
{
    let outcome = seen(alloc, store, l)?;
    Ok((outcome, store.attributes.max_list))
}
