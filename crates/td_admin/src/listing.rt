//! The ids of all offers (OMG's Trading Object Service, interface Admin, list_offers and list_proxies).

ghost use Rattle.std.specs.Prelude.{◌≡◌, map, IfOk};
ghost use Rattle.td_admin.specs.Administration.{ids_of, list_offers, list_proxies};
ghost use Rattle.td_register.specs.Ids.{id_of};
ghost use Rattle.td_register.specs.Judged.{IsOutcomeOrNoMemory};

use std::alloc::Global;
use td_cdr::{List, Memory, Text};
use td_exceptions::UserException;
use td_ior::nil;
use td_ops::{Outcome, Reply};
use td_register::id_of;
use td_store::{Offers, Store};

/// The ids of these numbers.
fn spelled(alloc: Global, numbers: &[u32]) -> Result<List<Text>, Memory>
    ensures { IfOk result (λ ids. ids ≡ map id_of numbers.now) }
{
    let mut ids = List::with_room(alloc, numbers.len())?;
    for number in numbers {
        let id = id_of(alloc, *number)?;
        ids.push(id)?;
    }
    Ok(ids)
}

/// The ids of the proxy offers, or of the ordinary offers.
fn ids_of(alloc: Global, offers: &Offers, proxies: bool) -> Result<List<Text>, Memory>
    ensures { IfOk result (λ ids. ids ≡ ids_of proxies offers.now) }
{
    let numbers = offers.ids(alloc, proxies)?;
    spelled(alloc, numbers.as_slice())
}

/// The ids of all ordinary offers, by rising number (list_offers).
///
/// # Errors
///
/// `Memory` only when out of memory.
#[tactic(auto, unfolding(crate::specs::Administration::list_offers))]
pub fn list_offers(alloc: Global, store: &Store) -> Result<Outcome, Memory>
    ensures { IsOutcomeOrNoMemory (list_offers store.now) result }
{
    let ids = ids_of(alloc, &store.offers, false)?;
    Ok(Outcome::Done(Reply::Ids {
        ids,
        iterator: nil(alloc),
    }))
}

/// The ids of all proxy offers, by rising number (list_proxies); `NotImplemented` where the trader supports none.
///
/// # Errors
///
/// `Memory` only when out of memory.
#[tactic(auto, unfolding(crate::specs::Administration::list_proxies))]
pub fn list_proxies(alloc: Global, store: &Store) -> Result<Outcome, Memory>
    ensures { IsOutcomeOrNoMemory (list_proxies store.now) result }
{
    if !store.attributes.supports_proxy_offers {
        return Ok(Outcome::User(UserException::NotImplemented));
    }
    let ids = ids_of(alloc, &store.offers, true)?;
    Ok(Outcome::Done(Reply::Ids {
        ids,
        iterator: nil(alloc),
    }))
}
