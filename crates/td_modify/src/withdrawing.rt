//! Offers that are withdrawn by a constraint (OMG's Trading Object Service, interface Register,
//! withdraw_using_constraint).

ghost use Rattle.std.specs.Prelude.{◌≡◌, None, Ok, filter, map, not, IfOk, MatchResult};
ghost use Rattle.td_ops.specs.declared.call.Change.TheVariants as change;
ghost use Rattle.td_ops.specs.declared.outcome.Reply.TheVariants as reply;
ghost use Rattle.td_store.specs.Candidates.{has_conforming_type};
ghost use Rattle.td_register.specs.Causes.{with_cause, unless_full};
ghost use Rattle.td_register.specs.Judged.{AcceptsChange, IsAbsent, IsMet, IsFirstCause};
ghost use Rattle.td_register.specs.Named.{type_found};
ghost use Rattle.td_register.specs.Registers.{asked_in, is_met, no_more, none_met, static_properties};
ghost use Rattle.td_register.specs.Registers.{withdraw_met_cause, without_met};
ghost use Rattle.td_modify.specs.Withdrawals.{IsWithdrawal, meets, without_offers};

use std::alloc::Global;
use std::marker::Brand;
use std::sync::ledger::{Blank, Ledger};
use td_cdr::{List, Memory, Text, Twin, is_word_name};
use td_eval::matches;
use td_exceptions::UserException;
use td_lang::{Constraint, LangFault, read_constraint};
use td_ops::Change;
use td_register::{
    Accepted, ChangeReply, Fault, Refusal, entry_of, illegal_type, push_copy, raised, unknown_type,
};
use td_store::{OfferRecord, Offers, Steps, Store};
use td_types::Types;
use td_value::{Property, is_dynamic};

/// Refuses a name that no type has.
fn check_known(alloc: Global, types: &Types, name: &Text) -> Result<(), Fault>
    ensures { IsFirstCause (with_cause (type_found types.now.types name.now) no_more) result }
{
    if !is_word_name(name.as_slice()) {
        return Err(illegal_type(name.copy(alloc)?));
    }
    if types.interface_of(name.as_slice()).is_none() {
        return Err(unknown_type(name.copy(alloc)?));
    }
    Ok(())
}

/// The constraint of a text.
fn asked_in(alloc: Global, text: &Text) -> Result<Constraint, Fault>
    ensures { MatchResult result (λ c. asked_in text.now ≡ Ok c) (IsAbsent (asked_in text.now)) }
{
    match read_constraint(alloc, text.as_slice()) {
        Ok(constraint) => Ok(constraint),
        Err(LangFault::Memory) => Err(Fault::Memory),
        Err(_) => Err(raised(UserException::IllegalConstraint {
            constraint: text.copy(alloc)?,
        })),
    }
}

/// The properties that aren't dynamic.
fn static_properties(alloc: Global, properties: &[Property]) -> Result<List<Property>, Memory>
    ensures { IfOk result (λ kept. kept ≡ static_properties properties.now) }
{
    let mut kept = List::new(alloc);
    for property in properties {
        if !is_dynamic(&property.value.code) {
            push_copy(alloc, &mut kept, property)?;
        }
    }
    Ok(kept)
}

/// Whether the offer is an ordinary one and its properties match.
fn meets(alloc: Global, constraint: &Constraint, offer: &OfferRecord) -> Result<bool, Memory>
    ensures { IfOk result (λ met. met ≡ meets constraint.now offer.now) }
{
    if offer.proxy.is_some() {
        return Ok(false);
    }
    let kept = static_properties(alloc, offer.properties.as_slice())?;
    matches(constraint, &kept)
}

/// The numbers of those that match.
fn met_among(
    alloc: Global,
    constraint: &Constraint,
    offers: &[&OfferRecord],
) -> Result<List<u32>, Memory>
    ensures { IfOk result (λ met. met
        ≡ map (λ o. o.number) (filter (meets constraint.now) (map (λ r. r.now) offers.now))) }
{
    let mut met = List::new(alloc);
    for offer in offers {
        if meets(alloc, constraint, offer)? {
            met.push(offer.number)?;
        }
    }
    Ok(met)
}

/// The offers whose type conforms. It walks the chains of these types and no others.
fn conforming<'a, L: Ledger>(
    alloc: Global,
    store: &'a Store,
    asked: &Text,
    blank: Blank,
) -> Result<Vec<&'a OfferRecord>, Memory>
    requires name { blank.name ≡ L.name }
    requires parts { blank.parts ≡ L.parts }
    requires one { L.parts ≡ 1 }
    ensures { IfOk result (λ v. map (λ r. r.now) v.items
        ≡ filter (has_conforming_type store.now.types.types asked.now) store.now.offers) }
{
    let mut steps = Steps::<L>::new(blank);
    store
        .offers
        .conforming(alloc, &store.types, asked, &mut steps)
}

/// The numbers of the offers that are withdrawn.
fn all_met(
    alloc: Global,
    store: &Store,
    asked: &Text,
    constraint: &Constraint,
) -> Result<List<u32>, Memory>
    ensures { IfOk result (λ met. met
        ≡ map (λ o. o.number) (filter (is_met store.now.types.types asked.now constraint.now)
        store.now.offers)) }
{
    let offers = conforming::<Brand>(alloc, store, asked, Blank::new(1))?;
    met_among(alloc, constraint, offers.as_slice())
}

/// The numbers of the offers that are withdrawn, of which there must be one.
fn some_met(
    alloc: Global,
    store: &Store,
    asked: &Text,
    text: &Text,
    constraint: &Constraint,
) -> Result<List<u32>, Fault>
    ensures { MatchResult result
        (λ met. (none_met store.now asked.now text.now constraint.now ≡ None)
        × (without_offers met store.now.offers
        ≡ filter (λ o. not (is_met store.now.types.types asked.now constraint.now o))
        store.now.offers)) (IsMet (none_met store.now asked.now text.now constraint.now)) }
{
    let numbers = all_met(alloc, store, asked, constraint)?;
    if numbers.is_empty() {
        return Err(raised(UserException::NoMatchingOffers {
            constraint: text.copy(alloc)?,
        }));
    }
    // The call says that numbers rise: each leads to one offer.
    let _count = store.offers.len();
    Ok(numbers)
}

/// The numbers of the offers that are withdrawn, where nothing is at fault.
fn met_numbers(
    alloc: Global,
    store: &Store,
    service_type: &Text,
    constraint: &Text,
) -> Result<List<u32>, Fault>
    ensures { IsWithdrawal store.now service_type.now constraint.now result }
{
    check_known(alloc, &store.types, service_type)?;
    let asked = asked_in(alloc, constraint)?;
    let numbers = some_met(alloc, store, service_type, constraint, &asked);
    drop(asked);
    numbers
}

/// Takes the offers of these numbers away. Takes no memory.
fn remove_all(offers: &mut Offers, numbers: &[u32])
    ensures { offers.new ≡ without_offers numbers.now offers.old }
{
    for number in numbers {
        offers.remove(*number);
    }
}

/// Withdraws all ordinary offers whose type conforms and whose properties match; dynamic properties count
/// as absent. What it costs is bounded by the offers whose type conforms. The offers that match are found
/// first, and then removed without memory.
///
/// # Errors
///
/// `IllegalServiceType`, `UnknownServiceType`; `IllegalConstraint`; `NoMatchingOffers`; IMP_LIMIT where no
/// more changes are accepted; `Memory` when out of memory.
pub fn withdraw_using_constraint(
    alloc: Global,
    store: &mut Store,
    full: bool,
    service_type: Text,
    constraint: Text,
) -> Result<Accepted, Fault>
    ensures { AcceptsChange (change.WithdrawUsingConstraint service_type constraint)
        (unless_full full (withdraw_met_cause store.old service_type constraint) reply.Nothing
        (without_met store.old service_type constraint)) store.old store.new result }
{
    let numbers = met_numbers(alloc, store, &service_type, &constraint)?;
    if full {
        return Err(Fault::Refused(Refusal::Limit));
    }
    remove_all(&mut store.offers, numbers.as_slice());
    Ok(entry_of(
        Change::WithdrawUsingConstraint {
            service_type,
            constraint,
        },
        ChangeReply::nothing(),
    ))
}
