//! Offers that are modified (OMG's Trading Object Service, interface Register, modify).

ghost use Rattle.std.specs.Prelude.{◌≡◌, ◌++◌, List, ℕ, [], IfOk, OnOk, map, filter, not};
ghost use Rattle.td_cdr.specs.Seen.{HaveSeen};
ghost use Rattle.td_ops.specs.declared.call.Change.TheVariants as change;
ghost use Rattle.td_ops.specs.declared.outcome.Reply.TheVariants as reply;
ghost use Rattle.td_types.specs.Repository.{is_among};
ghost use Rattle.td_value.specs.declared.structures.Property.{Property as Kept};
ghost use Rattle.td_register.specs.Causes.{unless_full, ◌otherwise◌};
ghost use Rattle.td_register.specs.Judged.{AcceptsChange, IsRenewal, IsFirstCause, Yields};
ghost use Rattle.td_register.specs.Properties.{carries};
ghost use Rattle.td_register.specs.Registers.{changes_cause, deletion_cause, deletions_cause, modified_properties};
ghost use Rattle.td_register.specs.Registers.{modify_cause};
ghost use Rattle.td_register.specs.Registers.{offer_changes_cause, readonly_cause, replacement_of, with_modified};

use std::alloc::Global;
use td_cdr::{List, Memory, Seen, Shared, Text, Twin, copy_two, nothing_seen};
use td_exceptions::UserException;
use td_ops::{Change, is_among};
use td_register::{
    Accepted, ChangeReply, Fault, Refusal, carries, check_name, check_size, check_value, entry_of,
    mode_of, ordinary, push_copy, raised, type_properties,
};
use td_store::{OfferRecord, Store};
use td_types::{is_mandatory, is_readonly};
use td_value::{PropStruct, Property};

/// Refuses to delete a property that the offer lacks or must keep.
fn check_deletion(
    alloc: Global,
    type_properties: &[PropStruct],
    offer: &OfferRecord,
    name: &Text,
) -> Result<(), Fault>
    ensures { IsFirstCause (deletion_cause type_properties.now offer.now name.now) result }
{
    if !carries(offer.properties.as_slice(), name.as_slice()) {
        return Err(raised(UserException::UnknownPropertyName {
            name: name.copy(alloc)?,
        }));
    }
    let mode = mode_of(type_properties, name.as_slice());
    if is_mandatory(mode) {
        let (service_type, name) = copy_two(alloc, offer.service_type.get(), name)?;
        return Err(raised(UserException::MandatoryProperty { service_type, name }));
    }
    if is_readonly(mode) {
        let (service_type, name) = copy_two(alloc, offer.service_type.get(), name)?;
        return Err(raised(UserException::ReadonlyProperty { service_type, name }));
    }
    Ok(())
}

/// Refuses the first name that can't be deleted, and notes all as met.
fn check_deletions<'a>(
    alloc: Global,
    type_properties: &[PropStruct],
    offer: &OfferRecord,
    seen: &mut Seen<'a>,
    names: &'a [Text],
) -> Result<(), Fault>
    requires { HaveSeen seen.old [] }
    ensures judged { IsFirstCause (deletions_cause type_properties.now offer.now [] names.now)
        result }
    ensures noted { OnOk result (HaveSeen seen.new names.now) }
{
    for name in names {
        check_name(alloc, seen, name)?;
        check_deletion(alloc, type_properties, offer, name)?;
    }
    Ok(())
}

/// Refuses another value of a readonly property that the offer has.
fn check_readonly(
    alloc: Global,
    type_properties: &[PropStruct],
    offer: &OfferRecord,
    name: &Text,
) -> Result<(), Fault>
    ensures { IsFirstCause (readonly_cause type_properties.now offer.now name.now) result }
{
    if is_readonly(mode_of(type_properties, name.as_slice()))
        && carries(offer.properties.as_slice(), name.as_slice())
    {
        let (service_type, name) = copy_two(alloc, offer.service_type.get(), name)?;
        return Err(raised(UserException::ReadonlyProperty { service_type, name }));
    }
    Ok(())
}

/// Refuses the first property that can't be set.
fn check_changes<'a>(
    alloc: Global,
    supported: bool,
    type_properties: &[PropStruct],
    offer: &OfferRecord,
    seen: &mut Seen<'a>,
    changed: &'a [Property],
) -> Result<(), Fault>
    ensures { (deleted : List (List ℕ)) → HaveSeen seen.old deleted →
        IsFirstCause (changes_cause supported type_properties.now offer.now deleted changed.now)
        result }
{
    for property in changed {
        check_name(alloc, seen, &property.name)?;
        check_value(
            alloc,
            supported,
            &offer.service_type,
            type_properties,
            property,
        )?;
        check_readonly(alloc, type_properties, offer, &property.name)?;
    }
    Ok(())
}

/// Refuses what is at fault with the names and the properties.
fn check_modify(
    alloc: Global,
    supported: bool,
    type_properties: &[PropStruct],
    offer: &OfferRecord,
    deleted: &[Text],
    changed: &[Property],
) -> Result<(), Fault>
    ensures { IsFirstCause (deletions_cause type_properties.now offer.now [] deleted.now
        otherwise changes_cause supported type_properties.now offer.now deleted.now changed.now)
        result }
{
    let mut seen = nothing_seen(alloc);
    check_deletions(alloc, type_properties, offer, &mut seen, deleted)?;
    check_changes(alloc, supported, type_properties, offer, &mut seen, changed)
}

/// The property that is given in place of this one, or else this one.
fn renewed<'a>(changed: &'a [Property], property: &'a Property) -> &'a Property
    ensures { result.now ≡ replacement_of changed.now property.now }
{
    for other in changed {
        if other.name.as_slice() == property.name.as_slice() {
            return other;
        }
    }
    property
}

/// The properties that stay, with their new values.
fn kept(
    alloc: Global,
    properties: &[Property],
    deleted: &[Text],
    changed: &[Property],
) -> Result<List<Property>, Memory>
    ensures { IfOk result (λ kept. kept ≡ map (replacement_of changed.now)
        (filter (λ (p : Kept). not (is_among p.name deleted.now)) properties.now)) }
{
    let mut kept = List::new(alloc);
    for property in properties {
        if !is_among(property.name.as_slice(), deleted) {
            push_copy(alloc, &mut kept, renewed(changed, property))?;
        }
    }
    Ok(kept)
}

/// Puts the properties that the offer lacked behind the others.
fn add_new(
    alloc: Global,
    all: &mut List<Property>,
    properties: &[Property],
    changed: &[Property],
) -> Result<(), Memory>
    ensures { OnOk result (all.new
        ≡ all.old ++ filter (λ (p : Kept). not (carries properties.now p.name)) changed.now) }
{
    for property in changed {
        if !carries(properties, property.name.as_slice()) {
            push_copy(alloc, all, property)?;
        }
    }
    Ok(())
}

/// The offer's properties as they are afterwards.
fn modified(
    alloc: Global,
    properties: &[Property],
    deleted: &[Text],
    changed: &[Property],
) -> Result<List<Property>, Memory>
    ensures { IfOk result (λ all. all ≡ modified_properties properties.now deleted.now
        changed.now) }
{
    let mut all = kept(alloc, properties, deleted, changed)?;
    match add_new(alloc, &mut all, properties, changed) {
        Ok(()) => Ok(all),
        Err(memory) => Err(memory),
    }
}

/// The offer's properties as they are afterwards, where nothing is at fault.
fn new_properties(
    alloc: Global,
    store: &Store,
    offer: &OfferRecord,
    deleted: &[Text],
    changed: &[Property],
) -> Result<List<Property>, Fault>
    ensures { Yields (offer_changes_cause store.now deleted.now changed.now offer.now)
        (modified_properties offer.now.properties deleted.now changed.now) result }
{
    check_modify(
        alloc,
        store.attributes.supports_dynamic_properties,
        type_properties(&store.types, offer),
        offer,
        deleted,
        changed,
    )?;
    let properties = modified(alloc, offer.properties.as_slice(), deleted, changed)?;
    match check_size(alloc, &offer.reference, &properties) {
        Ok(()) => Ok(properties),
        Err(fault) => Err(fault),
    }
}

/// The number of the offer, and its properties as they are afterwards, where nothing is at fault.
fn renewal(
    alloc: Global,
    store: &Store,
    id: &Text,
    deleted: &[Text],
    changed: &[Property],
) -> Result<(u32, Shared<List<Property>>), Fault>
    ensures { IsRenewal store.now id.now deleted.now changed.now result }
{
    if !store.attributes.supports_modifiable_properties {
        return Err(raised(UserException::NotImplemented));
    }
    let offer = ordinary(alloc, &store.offers, id)?;
    let properties = new_properties(alloc, store, offer, deleted, changed)?;
    let properties = Shared::new(alloc, properties)?;
    Ok((offer.number, properties))
}

/// Modifies an ordinary offer: takes properties away, sets others, and adds those that it lacks.
///
/// # Errors
///
/// `NotImplemented`; `IllegalOfferId`, `UnknownOfferId`, `ProxyOfferId`; what is at fault with a name
/// that is to be deleted, and then with a property; IMP_LIMIT past a limit, and where no more changes are
/// accepted; `Memory` when out of memory.
pub fn modify(
    alloc: Global,
    store: &mut Store,
    full: bool,
    id: Text,
    deleted: List<Text>,
    changed: List<Property>,
) -> Result<Accepted, Fault>
    ensures { AcceptsChange (change.Modify id deleted changed)
        (unless_full full (modify_cause store.old id deleted changed) reply.Nothing
        (with_modified store.old id deleted changed)) store.old store.new result }
{
    let (number, properties) = renewal(alloc, store, &id, deleted.as_slice(), changed.as_slice())?;
    if full {
        return Err(Fault::Refused(Refusal::Limit));
    }
    store.offers.modify(number, properties);
    Ok(entry_of(
        Change::Modify {
            id,
            deleted,
            changed,
        },
        ChangeReply::nothing(),
    ))
}
