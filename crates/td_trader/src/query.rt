//! Whether a query is taken, and what it says (OMG's Trading Object Service, interface Lookup, query).

ghost use Rattle.std.specs.Prelude.{◌≡◌, [], None, MatchResult, Result as Answer, option_copied, nat_le};
ghost use Rattle.td_cdr.specs.Format.{Unless};
ghost use Rattle.td_exceptions.specs.declared.exception.UserException.TheVariants as user;
ghost use Rattle.td_policy.specs.Faults.{is_memory};
ghost use Rattle.td_policy.specs.declared.fault.PolicyFault.{PolicyFault as Bad};
ghost use Rattle.td_policy.specs.declared.stated.Stated.{Stated as Said};
ghost use Rattle.td_register.specs.Causes.{◌otherwise◌, with_cause, limit_if};
ghost use Rattle.td_register.specs.Judged.{IsAbsent, IsFirstCause};
ghost use Rattle.td_register.specs.Named.{type_found};
ghost use Rattle.td_trader.specs.Queries.{desired_cause, first_name, link_cause, names_cause, others_cause};
ghost use Rattle.td_trader.specs.Queries.{parts_cause, parts_of, preferred_in, refusal, start_cause, start_policy};
ghost use Rattle.td_trader.specs.Queries.{stated_in, unless_fault};
ghost use Rattle.td_trader.specs.Reading.{IsRaised, ReadsOrFaults};
ghost use Rattle.td_register.specs.Registers.{asked_in, no_more};

use std::alloc::Global;
use td_cdr::{Boxed, List, Text, Twin, is_identifier, is_word_name, nothing_seen, see};
use td_changes::Bounds;
use td_exceptions::UserException;
use td_lang::{Constraint, LangFault, Preference, read_constraint, read_preference};
use td_ops::{Desired, Query};
use td_policy::{PolicyFault, Stated, read_policies};
use td_register::{Fault, Refusal, raised};
use td_store::{Links, Store};
use td_types::Types;
use td_value::Policy;

/// What a query says by its texts and its policies.
#[derive(Drop)]
pub struct Parts {
    pub constraint: Constraint,
    pub preference: Preference,
    pub stated: Stated,
}

/// What a query says, where a trader takes it that made so many marks.
///
/// # Errors
///
/// In this order: `IllegalServiceType`, `UnknownServiceType`; `IllegalConstraint`; `IllegalPreference`;
/// policy by policy `IllegalPolicyName`, `DuplicatePolicyName`, `PolicyTypeMismatch`,
/// `InvalidPolicyValue`; by desired name `IllegalPropertyName`, `DuplicatePropertyName`;
/// `InvalidPolicyValue` where no link has the first name of starting_trader; `Limit` where as many
/// marks were made as may be. `Memory` when out of memory.
#[tactic(auto, unfolding(crate::specs::Queries::refusal))]
pub fn judge(
    alloc: Global,
    bounds: &Bounds,
    count: u64,
    store: &Store,
    query: &Query,
) -> Result<Parts, Fault>
    ensures { ReadsOrFaults (refusal bounds.now count store.now query.now)
        (λ parts. parts ≡ parts_of query.now) result }
{
    check_type(alloc, &store.types, &query.service_type)?;
    let parts = read_parts(alloc, query)?;
    match check_others(alloc, bounds, count, &store.links, query, &parts.stated) {
        Ok(()) => Ok(parts),
        Err(fault) => {
            drop(parts);
            Err(fault)
        }
    }
}

/// Refuses a name that no type has.
fn check_type(alloc: Global, types: &Types, name: &Text) -> Result<(), Fault>
    ensures { IsFirstCause (with_cause (type_found types.now.types name.now) no_more) result }
{
    if !is_word_name(name.as_slice()) {
        return Err(raised(UserException::IllegalServiceType {
            service_type: name.copy(alloc)?,
        }));
    }
    match types.interface_of(name.as_slice()) {
        Some(_) => Ok(()),
        None => Err(raised(UserException::UnknownServiceType {
            service_type: name.copy(alloc)?,
        })),
    }
}

// ---- texts and policies

/// What a query says by its texts and its policies.
fn read_parts(alloc: Global, query: &Query) -> Result<Parts, Fault>
    ensures { ReadsOrFaults (parts_cause query.now) (λ parts. parts ≡ parts_of query.now) result }
{
    let constraint = read_asked(alloc, &query.constraint)?;
    match read_preferred_and_stated(alloc, query) {
        Ok((preference, stated)) => Ok(Parts {
            constraint,
            preference,
            stated,
        }),
        Err(fault) => {
            drop(constraint);
            Err(fault)
        }
    }
}

fn read_preferred_and_stated(alloc: Global, query: &Query) -> Result<(Preference, Stated), Fault>
    ensures { ReadsOrFaults (with_cause (preferred_in query.now.preference) no_more otherwise
        with_cause
        (stated_in query.now.policies) no_more) (λ p. (p.0 ≡ (parts_of query.now).preference)
        × (p.1 ≡ (parts_of query.now).stated)) result }
{
    let preference = read_preferred(alloc, &query.preference)?;
    match read_stated(alloc, &query.policies) {
        Ok(stated) => Ok((preference, stated)),
        Err(fault) => {
            drop(preference);
            Err(fault)
        }
    }
}

/// The constraint of a text.
fn read_asked(alloc: Global, text: &Text) -> Result<Constraint, Fault>
    ensures { MatchResult result (λ c. asked_in text.now ≡ Ok c) (IsAbsent (asked_in text.now)) }
{
    match read_constraint(alloc, text.as_slice()) {
        Ok(constraint) => Ok(constraint),
        Err(LangFault::Syntax(_)) => Err(illegal_constraint(alloc, text)),
        Err(LangFault::Float(_)) => Err(illegal_constraint(alloc, text)),
        Err(LangFault::Depth(_)) => Err(illegal_constraint(alloc, text)),
        Err(LangFault::TooLong) => Err(illegal_constraint(alloc, text)),
        Err(LangFault::Memory) => Err(Fault::Memory),
    }
}

fn illegal_constraint(alloc: Global, text: &Text) -> Fault
    ensures { IsRaised (user.IllegalConstraint text.now) result }
{
    match text.copy(alloc) {
        Ok(constraint) => raised(UserException::IllegalConstraint { constraint }),
        Err(_) => Fault::Memory,
    }
}

/// The preference of a text.
fn read_preferred(alloc: Global, text: &Text) -> Result<Preference, Fault>
    ensures { MatchResult result (λ p. preferred_in text.now ≡ Ok p)
        (IsAbsent (preferred_in text.now)) }
{
    match read_preference(alloc, text.as_slice()) {
        Ok(preference) => Ok(preference),
        Err(LangFault::Syntax(_)) => Err(illegal_preference(alloc, text)),
        Err(LangFault::Float(_)) => Err(illegal_preference(alloc, text)),
        Err(LangFault::Depth(_)) => Err(illegal_preference(alloc, text)),
        Err(LangFault::TooLong) => Err(illegal_preference(alloc, text)),
        Err(LangFault::Memory) => Err(Fault::Memory),
    }
}

fn illegal_preference(alloc: Global, text: &Text) -> Fault
    ensures { IsRaised (user.IllegalPreference text.now) result }
{
    match text.copy(alloc) {
        Ok(preference) => raised(UserException::IllegalPreference { preference }),
        Err(_) => Fault::Memory,
    }
}

/// What the policies state.
fn read_stated(alloc: Global, policies: &List<Policy>) -> Result<Stated, Fault>
    ensures { MatchResult result (λ s. stated_in policies.now ≡ Ok s)
        (IsAbsent (stated_in policies.now)) }
{
    match read_policies(alloc, policies) {
        Ok(stated) => Ok(stated),
        Err(fault) => Err(policy_fault(fault)),
    }
}

/// A fault of policies as the reason of a refusal.
fn policy_fault(fault: PolicyFault) -> Fault
    ensures { (comes : Answer Said Bad) → Unless (is_memory fault) (comes ≡ Err fault)
        → IsAbsent (unless_fault comes) result }
{
    match fault {
        PolicyFault::DuplicatePolicyName(name) => raised(UserException::DuplicatePolicyName {
            name,
        }),
        PolicyFault::IllegalPolicyName(name) => raised(UserException::IllegalPolicyName { name }),
        PolicyFault::PolicyTypeMismatch(policy) => raised(UserException::PolicyTypeMismatch {
            policy,
        }),
        PolicyFault::InvalidPolicyValue(policy) => raised(UserException::InvalidPolicyValue {
            policy,
        }),
        PolicyFault::Memory => Fault::Memory,
    }
}

// ---- what else may be at fault

/// Refuses desired names, a first name of starting_trader that no link has, and a mark too many.
fn check_others(
    alloc: Global,
    bounds: &Bounds,
    count: u64,
    links: &Links,
    query: &Query,
    stated: &Stated,
) -> Result<(), Fault>
    ensures { IsFirstCause (others_cause bounds.now count links.now query.now stated.now) result }
{
    check_desired(alloc, &query.desired)?;
    check_start(alloc, links, query.policies.as_slice(), stated)?;
    check_count(bounds, count)
}

/// Refuses desired names that are none, or that stand twice.
fn check_desired(alloc: Global, desired: &Desired) -> Result<(), Fault>
    ensures { IsFirstCause (desired_cause desired.now) result }
{
    match desired {
        Desired::None => Ok(()),
        Desired::Some(names) => check_names(alloc, names.as_slice()),
        Desired::All => Ok(()),
    }
}

/// Refuses the first name that is none, or that stands before.
fn check_names(alloc: Global, names: &[Text]) -> Result<(), Fault>
    ensures { IsFirstCause (names_cause [] names.now) result }
{
    let mut seen = nothing_seen(alloc);
    for name in names {
        if !is_identifier(name.as_slice()) {
            return Err(raised(UserException::IllegalPropertyName {
                name: name.copy(alloc)?,
            }));
        }
        if !see(&mut seen, name.as_slice())? {
            return Err(raised(UserException::DuplicatePropertyName {
                name: name.copy(alloc)?,
            }));
        }
    }
    Ok(())
}

/// Refuses a first name of starting_trader that no link has.
fn check_start(
    alloc: Global,
    links: &Links,
    policies: &[Policy],
    stated: &Stated,
) -> Result<(), Fault>
    ensures { IsFirstCause (start_cause links.now policies.now (first_name stated.now)) result }
{
    let Some(name) = first_name(stated) else {
        return Ok(());
    };
    match links.get(name) {
        Some(_) => Ok(()),
        None => refuse_start(alloc, policies),
    }
}

/// The first name of starting_trader, where this is stated and has one.
pub(crate) fn first_name(stated: &Stated) -> Option<&Text>
    ensures { option_copied result ≡ first_name stated.now }
{
    match &stated.start {
        None => None,
        Some(names) => names.get(0),
    }
}

/// Refuses starting_trader, as it is stated.
fn refuse_start(alloc: Global, policies: &[Policy]) -> Result<(), Fault>
    ensures { IsFirstCause (link_cause policies.now None) result }
{
    match start_policy(policies) {
        None => Ok(()),
        Some(policy) => Err(raised(UserException::InvalidPolicyValue {
            policy: Boxed::copy_of(alloc, policy)?,
        })),
    }
}

/// The policy starting_trader, if it is among these.
fn start_policy(policies: &[Policy]) -> Option<&Policy>
    ensures { option_copied result ≡ start_policy policies.now }
{
    for policy in policies {
        if policy.name.as_slice() == b"starting_trader".as_slice() {
            return Some(policy);
        }
    }
    None
}

/// Refuses one mark more than may be.
fn check_count(bounds: &Bounds, count: u64) -> Result<(), Fault>
    ensures { IsFirstCause (limit_if (nat_le bounds.now.begins count)) result }
{
    if bounds.begins <= count {
        return Err(Fault::Refused(Refusal::Limit));
    }
    Ok(())
}
