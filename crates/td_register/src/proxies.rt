//! Proxy offers that are described and withdrawn (OMG's Trading Object Service, interface Proxy).

ghost use Rattle.std.specs.Prelude.{◌≡◌, None, Ok, Some, IfOk, MatchResult};
ghost use Rattle.td_ops.specs.declared.call.Change.TheVariants as change;
ghost use Rattle.td_ops.specs.declared.outcome.Reply.TheVariants as reply;
ghost use Rattle.td_register.specs.Causes.{unless_full};
ghost use Rattle.td_register.specs.Ids.{proxy};
ghost use Rattle.td_register.specs.Judged.{AcceptsChange, IsAbsent, IsOutcomeOrNoMemory};
ghost use Rattle.td_register.specs.Needs.{NeedsNone};
ghost use Rattle.td_register.specs.Proxies.{describe_proxy, proxy_info, proxy_info_of, withdraw_proxy_cause};
ghost use Rattle.td_register.specs.Registers.{without_id};

use crate::change_reply::ChangeReply;
use crate::history::{Accepted, entry_of};
use crate::ids::number_in;
use crate::refusal::{Fault, Refusal, raised, refusal_outcome};
use crate::register::is_proxy;
use std::alloc::Global;
use td_cdr::{Boxed, List, Memory, Text, Twin, copy_three, copy_two};
use td_exceptions::UserException;
use td_ops::{Change, Outcome, Reply};
use td_store::{OfferRecord, Offers, ProxyPart, Store};
use td_value::ProxyInfo;

/// The proxy offer of an id.
fn proxy<'a>(alloc: Global, offers: &'a Offers, id: &Text) -> Result<&'a OfferRecord, Fault>
    ensures { MatchResult result (λ o. proxy offers.now id.now ≡ Ok o.now)
        (IsAbsent (proxy offers.now id.now)) }
{
    let Some(number) = number_in(id.as_slice()) else {
        return Err(raised(UserException::IllegalOfferId {
            id: id.copy(alloc)?,
        }));
    };
    let Some(offer) = offers.get(number) else {
        return Err(raised(UserException::UnknownOfferId {
            id: id.copy(alloc)?,
        }));
    };
    if offer.proxy.is_none() {
        return Err(raised(UserException::NotProxyOfferId {
            id: id.copy(alloc)?,
        }));
    }
    Ok(offer)
}

/// Withdraws a proxy offer. Takes no memory.
///
/// # Errors
///
/// NO_IMPLEMENT where proxy offers aren't supported; `IllegalOfferId`, `UnknownOfferId`,
/// `NotProxyOfferId`; IMP_LIMIT where no more changes are accepted.
pub fn withdraw_proxy(store: &mut Store, full: bool, id: Text) -> Result<Accepted, Fault>
    ensures accepts { AcceptsChange (change.WithdrawProxy id)
        (unless_full full (withdraw_proxy_cause store.old id) reply.Nothing
        (without_id store.old id)) store.old store.new result }
    ensures free { NeedsNone result }
{
    if !store.attributes.supports_proxy_offers {
        return Err(Fault::Refused(Refusal::NotSupported));
    }
    let Some(number) = number_in(id.as_slice()) else {
        return Err(raised(UserException::IllegalOfferId { id }));
    };
    match is_proxy(&store.offers, number) {
        None => Err(raised(UserException::UnknownOfferId { id })),
        Some(false) => Err(raised(UserException::NotProxyOfferId { id })),
        Some(true) => {
            if full {
                return Err(Fault::Refused(Refusal::Limit));
            }
            store.offers.remove(number);
            Ok(entry_of(Change::WithdrawProxy { id }, ChangeReply::nothing()))
        }
    }
}

/// What is told of an offer without a proxy's part.
fn plain_info(alloc: Global, offer: &OfferRecord) -> Result<ProxyInfo, Memory>
    ensures { IfOk result (λ i. i ≡ proxy_info_of offer.now None) }
{
    let (service_type, (target, properties)) = copy_three(
        alloc,
        offer.service_type.get(),
        offer.reference.get(),
        offer.properties.get(),
    )?;
    Ok(ProxyInfo {
        service_type,
        target,
        properties,
        if_match_all: false,
        recipe: Text::new(alloc),
        policies_to_pass_on: List::new(alloc),
    })
}

/// What is told of an offer with its proxy's part.
fn whole_info(alloc: Global, offer: &OfferRecord, part: &ProxyPart) -> Result<ProxyInfo, Memory>
    ensures { IfOk result (λ i. i ≡ proxy_info_of offer.now (Some part.now)) }
{
    let (recipe, policies_to_pass_on) = copy_two(alloc, &part.recipe, &part.policies)?;
    let (service_type, (target, properties)) = copy_three(
        alloc,
        offer.service_type.get(),
        offer.reference.get(),
        offer.properties.get(),
    )?;
    Ok(ProxyInfo {
        service_type,
        target,
        properties,
        if_match_all: part.if_match_all,
        recipe,
        policies_to_pass_on,
    })
}

/// A proxy offer as its exporter sees it.
fn proxy_info(alloc: Global, offer: &OfferRecord) -> Result<ProxyInfo, Memory>
    ensures { IfOk result (λ i. i ≡ proxy_info offer.now) }
{
    match &offer.proxy {
        None => plain_info(alloc, offer),
        Some(part) => whole_info(alloc, offer, part),
    }
}

/// What a proxy offer is (describe_proxy), or the refusal as an outcome.
///
/// # Errors
///
/// `Memory` only when out of memory.
#[tactic(auto, unfolding(crate::specs::Proxies::describe_proxy))]
pub fn describe_proxy(alloc: Global, store: &Store, id: &Text) -> Result<Outcome, Memory>
    ensures { IsOutcomeOrNoMemory (describe_proxy store.now id.now) result }
{
    if !store.attributes.supports_proxy_offers {
        return Ok(refusal_outcome(Refusal::NotSupported));
    }
    match proxy(alloc, &store.offers, id) {
        Ok(offer) => {
            let info = Boxed::new(alloc, proxy_info(alloc, offer)?)?;
            Ok(Outcome::Done(Reply::Proxy(info)))
        }
        Err(Fault::Refused(refusal)) => Ok(refusal_outcome(refusal)),
        Err(Fault::Memory) => Err(Memory),
    }
}
