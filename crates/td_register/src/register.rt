//! Offers that are described and withdrawn (OMG's Trading Object Service, interface Register).

ghost use Rattle.std.specs.Prelude.{◌≡◌, Ok, is_some, option_map, IfOk, MatchResult};
ghost use Rattle.td_ops.specs.declared.call.Change.TheVariants as change;
ghost use Rattle.td_ops.specs.declared.outcome.Reply.TheVariants as reply;
ghost use Rattle.td_store.specs.OfferLists.{offer_of};
ghost use Rattle.td_store.specs.Stores.{offer_info_of};
ghost use Rattle.td_register.specs.Causes.{unless_full};
ghost use Rattle.td_register.specs.Ids.{ordinary};
ghost use Rattle.td_register.specs.Judged.{AcceptsChange, IsAbsent, IsOutcomeOrNoMemory};
ghost use Rattle.td_register.specs.Needs.{NeedsNone};
ghost use Rattle.td_register.specs.Registers.{describe, withdraw_cause, without_id};

use crate::change_reply::ChangeReply;
use crate::history::{Accepted, entry_of};
use crate::ids::number_in;
use crate::refusal::{Fault, Refusal, raised, refusal_outcome};
use std::alloc::Global;
use td_cdr::{Memory, Text, Twin, copy_three};
use td_exceptions::UserException;
use td_ops::{Change, Outcome, Reply};
use td_store::{OfferRecord, Offers, Store};
use td_value::OfferInfo;

/// Whether the offer of a number is a proxy offer, if there is one.
pub fn is_proxy(offers: &Offers, number: u32) -> Option<bool>
    ensures { result ≡ option_map (λ o. is_some o.proxy) (offer_of offers.now number) }
{
    match offers.get(number) {
        None => None,
        Some(offer) => Some(offer.proxy.is_some()),
    }
}

/// The ordinary offer of an id.
///
/// # Errors
///
/// `IllegalOfferId`; `UnknownOfferId`; `ProxyOfferId`; `Memory` when out of memory.
pub fn ordinary<'a>(alloc: Global, offers: &'a Offers, id: &Text) -> Result<&'a OfferRecord, Fault>
    ensures { MatchResult result (λ o. ordinary offers.now id.now ≡ Ok o.now)
        (IsAbsent (ordinary offers.now id.now)) }
{
    let Some(number) = number_in(id.as_slice()) else {
        return Err(raised(UserException::IllegalOfferId {
            id: id.copy(alloc)?,
        }));
    };
    let Some(offer) = offers.get(number) else {
        return Err(raised(UserException::UnknownOfferId {
            id: id.copy(alloc)?,
        }));
    };
    if offer.proxy.is_some() {
        return Err(raised(UserException::ProxyOfferId {
            id: id.copy(alloc)?,
        }));
    }
    Ok(offer)
}

/// Withdraws an ordinary offer. Takes no memory.
///
/// # Errors
///
/// `IllegalOfferId`, `UnknownOfferId`, `ProxyOfferId`; IMP_LIMIT where no more changes are accepted.
pub fn withdraw(store: &mut Store, full: bool, id: Text) -> Result<Accepted, Fault>
    ensures accepts { AcceptsChange (change.Withdraw id)
        (unless_full full (withdraw_cause store.old id)
        reply.Nothing (without_id store.old id)) store.old store.new result }
    ensures free { NeedsNone result }
{
    let Some(number) = number_in(id.as_slice()) else {
        return Err(raised(UserException::IllegalOfferId { id }));
    };
    match is_proxy(&store.offers, number) {
        None => Err(raised(UserException::UnknownOfferId { id })),
        Some(true) => Err(raised(UserException::ProxyOfferId { id })),
        Some(false) => {
            if full {
                return Err(Fault::Refused(Refusal::Limit));
            }
            store.offers.remove(number);
            Ok(entry_of(Change::Withdraw { id }, ChangeReply::nothing()))
        }
    }
}

/// An offer as its exporter sees it.
fn offer_info(alloc: Global, offer: &OfferRecord) -> Result<OfferInfo, Memory>
    ensures { IfOk result (λ i. i ≡ offer_info_of offer.now) }
{
    let (reference, (service_type, properties)) = copy_three(
        alloc,
        offer.reference.get(),
        offer.service_type.get(),
        offer.properties.get(),
    )?;
    Ok(OfferInfo {
        reference,
        service_type,
        properties,
    })
}

/// What an ordinary offer is (describe), or the refusal as an outcome.
///
/// # Errors
///
/// `Memory` only when out of memory.
#[tactic(auto, unfolding(crate::specs::Registers::describe))]
pub fn describe(alloc: Global, store: &Store, id: &Text) -> Result<Outcome, Memory>
    ensures { IsOutcomeOrNoMemory (describe store.now id.now) result }
{
    match ordinary(alloc, &store.offers, id) {
        Ok(offer) => Ok(Outcome::Done(Reply::Offer(offer_info(alloc, offer)?))),
        Err(Fault::Refused(refusal)) => Ok(refusal_outcome(refusal)),
        Err(Fault::Memory) => Err(Memory),
    }
}
