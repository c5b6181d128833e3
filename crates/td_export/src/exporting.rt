//! Offers that are exported (OMG's Trading Object Service, interface Register, export).

ghost use Rattle.std.specs.Prelude.{◌≡◌, ◌≤◌, ◌<◌, None, length, IfOk};
ghost use Rattle.std.specs.List.{AllByRecursion};
ghost use Rattle.td_ior.specs.Nil.{is_nil};
ghost use Rattle.td_ops.specs.declared.call.Change.TheVariants as change;
ghost use Rattle.td_ops.specs.declared.outcome.Reply.TheVariants as reply;
ghost use Rattle.td_exceptions.specs.declared.exception.UserException.TheVariants as user;
ghost use Rattle.td_store.specs.OfferLists.{most_offers};
ghost use Rattle.td_store.specs.declared.record.OfferRecord.{OfferRecord as Kept};
ghost use Rattle.td_register.specs.Causes.{with_cause, limit_if, raise_if, unless_full};
ghost use Rattle.td_register.specs.Judged.{AcceptsChange, IsAdded, IsFirstCause};
ghost use Rattle.td_register.specs.Registers.{export_cause, exported_offer, incarnation_now, last_number, next_id};
ghost use Rattle.td_register.specs.Named.{open_type};
ghost use Rattle.td_register.specs.Registers.{interface_cause, offer_cause, passes_limit, with_offer};

use std::alloc::Global;
use td_cdr::{List, Memory, Shared, Text, Twin, copy_three};
use td_exceptions::UserException;
use td_ior::is_nil;
use td_ops::Change;
use td_register::{
    Accepted, ChangeReply, Fault, Refusal, check_interface, check_missing, check_open,
    check_properties, check_size, entry_of, raised,
};
use td_store::{OfferRecord, Store, StoreFault};
use td_value::{Ior, Property};

/// How many offers there are at most.
const MOST_OFFERS: usize = 1_000_000;

/// Refuses a nil reference.
fn check_reference(alloc: Global, reference: &Ior) -> Result<(), Fault>
    ensures { IsFirstCause (raise_if (is_nil reference.now) (user.InvalidObjectRef reference.now))
        result }
{
    if is_nil(reference) {
        return Err(raised(UserException::InvalidObjectRef {
            reference: reference.copy(alloc)?,
        }));
    }
    Ok(())
}

/// Refuses a type that isn't open to new offers, and a reference whose interface doesn't conform to
/// the type's.
fn check_type(alloc: Global, store: &Store, type_name: &Text, reference: &Ior) -> Result<(), Fault>
    ensures { IsFirstCause (with_cause (open_type store.now.types.types type_name.now)
        (interface_cause store.now type_name.now reference.now)) result }
{
    check_open(alloc, &store.types, type_name)?;
    check_interface(alloc, store, type_name, reference)
}

/// Refuses properties that a new offer of the type can't have.
pub(crate) fn check_offer(
    alloc: Global,
    store: &Store,
    type_name: &Text,
    properties: &List<Property>,
) -> Result<(), Fault>
    ensures { IsFirstCause (offer_cause store.now type_name.now properties.now) result }
{
    let properties = properties.as_slice();
    let demanded = store.types.full_properties(type_name.as_slice());
    check_properties(
        alloc,
        store.attributes.supports_dynamic_properties,
        type_name,
        demanded,
        properties,
    )?;
    check_missing(alloc, type_name, demanded, properties)
}

/// Refuses an offer where there are as many as may be, where no number is left, or that is too large.
pub(crate) fn check_limits(
    alloc: Global,
    store: &Store,
    reference: &Ior,
    properties: &List<Property>,
) -> Result<(), Fault>
    ensures { IsFirstCause (limit_if (passes_limit store.now reference.now properties.now)) result }
{
    if store.offers.len() >= MOST_OFFERS {
        return Err(Fault::Refused(Refusal::Limit));
    }
    if store.last_offer == u32::MAX {
        return Err(Fault::Refused(Refusal::Limit));
    }
    check_size(alloc, reference, properties)?;
    Ok(())
}

/// Refuses an offer that can't be exported.
fn check_export(
    alloc: Global,
    store: &Store,
    reference: &Ior,
    type_name: &Text,
    properties: &List<Property>,
) -> Result<(), Fault>
    ensures { IsFirstCause (export_cause store.now reference.now type_name.now properties.now)
        result }
{
    check_reference(alloc, reference)?;
    check_type(alloc, store, type_name, reference)?;
    check_offer(alloc, store, type_name, properties)?;
    check_limits(alloc, store, reference, properties)
}

/// The incarnation that the type of a name has, 0 where there is none.
pub(crate) fn incarnation_now(store: &Store, type_name: &Text) -> u64
    ensures { result ≡ incarnation_now store.now type_name.now }
{
    match store.types.incarnation_of(type_name.as_slice()) {
        Some(incarnation) => incarnation,
        None => 0,
    }
}

/// The offer that is exported, as the store keeps it.
fn new_offer(
    alloc: Global,
    store: &Store,
    reference: &Shared<Ior>,
    type_name: &Shared<Text>,
    properties: &Shared<List<Property>>,
) -> Result<OfferRecord, Memory>
    requires { store.now.last_offer < last_number }
    ensures { IfOk result (λ o. o ≡ exported_offer store.now reference.now type_name.now
        properties.now) }
{
    let (reference, (service_type, properties)) = copy_three(
        alloc, reference, type_name, properties,
    )?;
    let incarnation = incarnation_now(store, type_name);
    Ok(OfferRecord {
        number: store.last_offer + 1,
        reference,
        service_type,
        incarnation,
        properties,
        proxy: None,
    })
}

/// Adds an offer of the next number, and answers its id.
pub(crate) fn add_offer(store: &mut Store, offer: OfferRecord) -> Result<ChangeReply, Memory>
    requires above { AllByRecursion (λ (o : Kept). o.number < offer.number) store.old.offers }
    requires few { length store.old.offers < most_offers }
    ensures { IsAdded offer store.old store.new result }
{
    let number = offer.number;
    match store.offers.insert(offer) {
        Ok(()) => {
            store.last_offer = number;
            Ok(ChangeReply::id(number))
        }
        Err(StoreFault::Full) => unreachable!(),
        Err(StoreFault::Memory) => Err(Memory),
    }
}

/// Adds the offer that is exported, and answers its id.
fn add_export(
    alloc: Global,
    store: &mut Store,
    reference: &Shared<Ior>,
    service_type: &Shared<Text>,
    properties: &Shared<List<Property>>,
) -> Result<ChangeReply, Memory>
    requires given { AllByRecursion (λ (o : Kept). (0 < o.number)
        × (o.number ≤ store.old.last_offer)) store.old.offers }
    requires none { export_cause store.old reference.now service_type.now properties.now ≡ None }
    ensures { IsAdded (exported_offer store.old reference.now service_type.now properties.now)
        store.old
        store.new result }
{
    let offer = new_offer(alloc, store, reference, service_type, properties)?;
    add_offer(store, offer)
}

/// Exports an offer, and answers its id.
///
/// # Errors
///
/// `InvalidObjectRef`; `IllegalServiceType`, `UnknownServiceType`; `InterfaceTypeMismatch`; what is at
/// fault with a property; IMP_LIMIT past a limit, and where no more changes are accepted; `Memory` when out
/// of memory.
pub fn export(
    alloc: Global,
    store: &mut Store,
    full: bool,
    reference: Shared<Ior>,
    service_type: Shared<Text>,
    properties: Shared<List<Property>>,
) -> Result<Accepted, Fault>
    // The numbers of the offers were given.
    requires given { AllByRecursion (λ (o : Kept). (0 < o.number)
        × (o.number ≤ store.old.last_offer)) store.old.offers }
    ensures { AcceptsChange (change.Export reference service_type properties)
        (unless_full full (export_cause store.old reference service_type properties)
        (reply.Id (next_id store.old))
        (with_offer store.old (exported_offer store.old reference service_type properties)))
        store.old store.new result }
{
    check_export(alloc, store, &reference, &service_type, &properties)?;
    if full {
        return Err(Fault::Refused(Refusal::Limit));
    }
    let reply = add_export(alloc, store, &reference, &service_type, &properties)?;
    Ok(entry_of(
        Change::Export {
            reference,
            service_type,
            properties,
        },
        reply,
    ))
}
