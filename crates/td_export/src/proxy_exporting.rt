//! Proxy offers that are exported (OMG's Trading Object Service, interface Proxy, export_proxy).

ghost use Rattle.std.specs.Prelude.{◌≡◌, ◌≤◌, ◌<◌, not, is_some, [], None, IfOk};
ghost use Rattle.std.specs.List.{AllByRecursion};
ghost use Rattle.td_exceptions.specs.declared.exception.UserException.TheVariants as user;
ghost use Rattle.td_ior.specs.Profiles.{iiop_of};
ghost use Rattle.td_ops.specs.declared.call.Change.TheVariants as change;
ghost use Rattle.td_ops.specs.declared.outcome.Reply.TheVariants as reply;
ghost use Rattle.td_store.specs.declared.record.OfferRecord.{OfferRecord as Kept};
ghost use Rattle.td_register.specs.Causes.{raise_if, with_cause, unless_full, unless_supported};
ghost use Rattle.td_register.specs.Judged.{AcceptsChange, IsAdded, IsFirstCause, is_recipe_fault};
ghost use Rattle.td_register.specs.Proxies.{export_proxy_cause, exported_proxy, is_recipe, policies_cause};
ghost use Rattle.td_register.specs.Registers.{last_number, next_id, with_offer};

use crate::exporting::{add_offer, check_limits, check_offer, incarnation_now};
use std::alloc::Global;
use td_cdr::{List, Memory, Shared, Text, Twin, copy_three, nothing_seen, see};
use td_exceptions::UserException;
use td_ior::{IorFault, iiop_of};
use td_lang::{LangFault, read_recipe};
use td_ops::Change;
use td_register::{
    Accepted, ChangeReply, Fault, Refusal, check_open, entry_of, invalid_lookup, raised,
};
use td_store::{OfferRecord, ProxyPart, Store};
use td_value::{Ior, Policy, Property};

/// Whether a reference has an IIOP profile. Memory is taken only for a copy of one.
fn has_profile(alloc: Global, target: &Ior) -> bool
    ensures { result ≡ is_some (iiop_of target.now) }
{
    match iiop_of(alloc, target) {
        Ok(_) => true,
        Err(IorFault::NoIiop) => false,
        Err(_) => true,
    }
}

/// Whether a text with this fault is a recipe: it isn't, if the fault isn't running out of memory.
fn is_recipe_fault(fault: LangFault) -> Result<bool, Memory>
    ensures { result ≡ is_recipe_fault fault }
{
    match fault {
        LangFault::Memory => Err(Memory),
        LangFault::Syntax(_) | LangFault::Float(_) | LangFault::Depth(_) | LangFault::TooLong => {
            Ok(false)
        }
    }
}

/// Whether the text is a recipe.
fn is_recipe(alloc: Global, text: &[u8]) -> Result<bool, Memory>
    ensures { IfOk result (λ passes. passes ≡ is_recipe text.now) }
{
    match read_recipe(alloc, text) {
        Ok(_) => Ok(true),
        Err(fault) => is_recipe_fault(fault),
    }
}

/// Refuses proxy offers where they aren't supported.
fn check_supported(supported: bool) -> Result<(), Fault>
    ensures { IsFirstCause (unless_supported supported) result }
{
    if supported {
        Ok(())
    } else {
        Err(Fault::Refused(Refusal::NotSupported))
    }
}

/// Refuses a target that has no IIOP profile.
fn check_target(alloc: Global, target: &Ior) -> Result<(), Fault>
    ensures { IsFirstCause (raise_if (not (is_some (iiop_of target.now)))
        (user.InvalidLookupRef target.now)) result }
{
    if !has_profile(alloc, target) {
        return Err(invalid_lookup(alloc, target)?);
    }
    Ok(())
}

/// Refuses a text that is no recipe.
fn check_recipe(alloc: Global, recipe: &Text) -> Result<(), Fault>
    ensures { IsFirstCause (raise_if (not (is_recipe recipe.now)) (user.IllegalRecipe recipe.now))
        result }
{
    if !is_recipe(alloc, recipe.as_slice())? {
        return Err(raised(UserException::IllegalRecipe {
            recipe: recipe.copy(alloc)?,
        }));
    }
    Ok(())
}

/// Refuses the first policy whose name is that of one before it.
fn check_policies(alloc: Global, policies: &[Policy]) -> Result<(), Fault>
    ensures { IsFirstCause (policies_cause [] policies.now) result }
{
    let mut seen = nothing_seen(alloc);
    for policy in policies {
        if !see(&mut seen, policy.name.as_slice())? {
            return Err(raised(UserException::DuplicatePolicyName {
                name: policy.name.copy(alloc)?,
            }));
        }
    }
    Ok(())
}

/// Refuses a proxy offer that can't be exported.
fn check_export_proxy(
    alloc: Global,
    store: &Store,
    target: &Ior,
    type_name: &Text,
    properties: &List<Property>,
    part: &ProxyPart,
) -> Result<(), Fault>
    ensures { IsFirstCause (export_proxy_cause store.now target.now type_name.now properties.now
        part.now.recipe part.now.policies) result }
{
    check_supported(store.attributes.supports_proxy_offers)?;
    check_open(alloc, &store.types, type_name)?;
    check_target(alloc, target)?;
    check_offer(alloc, store, type_name, properties)?;
    check_recipe(alloc, &part.recipe)?;
    check_policies(alloc, part.policies.as_slice())?;
    check_limits(alloc, store, target, properties)
}

/// The proxy offer that is exported, as the store keeps it.
fn new_proxy(
    alloc: Global,
    store: &Store,
    target: &Shared<Ior>,
    type_name: &Shared<Text>,
    properties: &Shared<List<Property>>,
    part: &ProxyPart,
) -> Result<OfferRecord, Memory>
    requires { store.now.last_offer < last_number }
    ensures { IfOk result (λ o.
        o ≡ exported_proxy store.now target.now type_name.now properties.now part.now) }
{
    let part = Shared::of(alloc, part)?;
    let (reference, (service_type, properties)) = copy_three(alloc, target, type_name, properties)?;
    let incarnation = incarnation_now(store, type_name);
    Ok(OfferRecord {
        number: store.last_offer + 1,
        reference,
        service_type,
        incarnation,
        properties,
        proxy: Some(part),
    })
}

/// Adds the proxy offer that is exported, and answers its id.
fn add_proxy(
    alloc: Global,
    store: &mut Store,
    target: &Shared<Ior>,
    service_type: &Shared<Text>,
    properties: &Shared<List<Property>>,
    part: &ProxyPart,
) -> Result<ChangeReply, Memory>
    requires given { AllByRecursion (λ (o : Kept). (0 < o.number)
        × (o.number ≤ store.old.last_offer)) store.old.offers }
    requires none { export_proxy_cause store.old target.now service_type.now properties.now
        part.now.recipe part.now.policies ≡ None }
    ensures { IsAdded (exported_proxy store.old target.now service_type.now properties.now part.now)
        store.old store.new result }
{
    let offer = new_proxy(alloc, store, target, service_type, properties, part)?;
    add_offer(store, offer)
}

/// Exports a proxy offer, and answers its id.
///
/// # Errors
///
/// NO_IMPLEMENT; `IllegalServiceType`, `UnknownServiceType`; `InvalidLookupRef`; what is at fault with a
/// property; `IllegalRecipe`; `DuplicatePolicyName`; IMP_LIMIT past a limit, and where no more changes are
/// accepted; `Memory` when out of memory.
pub fn export_proxy(
    alloc: Global,
    store: &mut Store,
    full: bool,
    target: Shared<Ior>,
    service_type: Shared<Text>,
    properties: Shared<List<Property>>,
    if_match_all: bool,
    recipe: Text,
    policies: List<Policy>,
) -> Result<Accepted, Fault>
    // The numbers of the offers were given.
    requires given { AllByRecursion (λ (o : Kept). (0 < o.number)
        × (o.number ≤ store.old.last_offer)) store.old.offers }
    ensures { AcceptsChange (change.ExportProxy target service_type properties if_match_all recipe
        policies) (unless_full full (export_proxy_cause store.old target service_type properties
        recipe policies) (reply.Id (next_id store.old)) (with_offer store.old
        (exported_proxy store.old target service_type properties
        (record { if_match_all = if_match_all; recipe = recipe; policies = policies }))))
        store.old store.new result }
{
    let part = ProxyPart {
        if_match_all,
        recipe,
        policies,
    };
    check_export_proxy(alloc, store, &target, &service_type, &properties, &part)?;
    if full {
        return Err(Fault::Refused(Refusal::Limit));
    }
    let reply = add_proxy(alloc, store, &target, &service_type, &properties, &part)?;
    Ok(entry_of(
        Change::ExportProxy {
            target,
            service_type,
            properties,
            if_match_all,
            recipe: part.recipe,
            policies: part.policies,
        },
        reply,
    ))
}
