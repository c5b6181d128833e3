//! Offers that join those that were gathered.

ghost use Rattle.std.specs.Prelude.{◌≡◌, ◌++◌, length, IfOk, OnOk, OnErr};
ghost use Rattle.std.specs.List.{list_all};
ghost use Rattle.td_remote_query.specs.Draining.{is_small, may_join};

use std::alloc::Global;
use td_cdr::{List, Memory};
use td_value::{Offer, offer_size};

/// The most offers of one query.
const MOST_OFFERS: usize = 1_000_000;

/// The most encoded bytes of an offer.
const LARGEST_OFFER: usize = 6_291_456;

fn is_small(alloc: Global, offer: &Offer) -> Result<bool, Memory>
    ensures { IfOk result (λ small. small ≡ is_small offer.now) }
{
    let size = offer_size(alloc, &offer.reference, &offer.properties)?;
    Ok(size <= LARGEST_OFFER)
}

fn are_small(alloc: Global, offers: &[Offer]) -> Result<bool, Memory>
    ensures { IfOk result (λ small. small ≡ list_all is_small offers.now) }
{
    for offer in offers {
        if !is_small(alloc, offer)? {
            return Ok(false);
        }
    }
    Ok(true)
}

/// Whether these offers may join so many others: there are no more than may be, and none is too large.
///
/// # Errors
///
/// `Memory` only when out of memory.
#[tactic(auto, unfolding(crate::specs::Draining::may_join))]
pub(crate) fn may_join(alloc: Global, count: usize, offers: &[Offer]) -> Result<bool, Memory>
    ensures { IfOk result (λ may. may ≡ may_join count offers.now) }
{
    if count > MOST_OFFERS || offers.len() > MOST_OFFERS - count {
        return Ok(false);
    }
    are_small(alloc, offers)
}

/// Puts offers behind those that were gathered.
///
/// # Errors
///
/// `Memory` only when out of memory; the gathered ones are then unchanged.
pub(crate) fn join(gathered: &mut Vec<Offer>, offers: List<Offer>) -> Result<(), Memory>
    ensures ok { OnOk result (gathered.new.items ≡ gathered.old.items ++ offers) }
    ensures err { OnErr result (gathered.new.items ≡ gathered.old.items) }
{
    let mut offers = offers.into_vec();
    gathered.append(&mut offers)?;
    Ok(())
}
