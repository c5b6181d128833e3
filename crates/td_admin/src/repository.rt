//! The changes and looks of the type repository (OMG's Trading Object Service, interface
//! CosTradingRepos::ServiceTypeRepository).

ghost use Rattle.std.specs.Prelude.{◌≡◌, Ok, Err};
ghost use Rattle.td_ops.specs.declared.call.Change.TheVariants as change;
ghost use Rattle.td_ops.specs.declared.outcome.Reply.TheVariants as reply;
ghost use Rattle.td_types.specs.Calls as types;
ghost use Rattle.td_types.specs.Repository.{Repository};
ghost use Rattle.td_register.specs.declared.refusal.Fault.TheVariants as fault;
ghost use Rattle.td_register.specs.declared.refusal.Refusal.TheVariants as refusal;
ghost use Rattle.td_register.specs.Judged.{AcceptsChange, IsOutcomeOrNoMemory};
ghost use Rattle.td_admin.specs.RepositoryJudged.{IsRepositoryAnswer, IsFullFault, IsOfChange};
ghost use Rattle.td_register.specs.Needs.{NeedsNone};
ghost use Rattle.td_register.specs.Causes.{unless_full};
ghost use Rattle.td_admin.specs.Repositories.{describe_type, exception_of, fully_describe_type, list_types, added_reply};
ghost use Rattle.td_admin.specs.Repositories.{number_of, outcome_of, reply_of, since, types_cause, with_types};

use std::alloc::Global;
use td_cdr::{List, Memory, Text, Twin, copy_four};
use td_exceptions::UserException;
use td_ops::{Change, Outcome, Reply};
use td_register::{
    Accepted, ChangeReply, Fault, Refusal, entry_of, illegal_type, raised, refusal_outcome,
    unknown_type,
};
use td_store::Store;
use td_types::{Judgement, RepoFault, TypesFault, TypesReply, halves};
use td_value::{IncarnationNumber, PropStruct, SpecifiedServiceTypes};

/// Adds a type (add_type).
///
/// # Errors
///
/// `IllegalServiceType`, `ServiceTypeExists`; `IllegalPropertyName`, `DuplicatePropertyName`;
/// `UnknownServiceType`, `DuplicateServiceTypeName`, `InterfaceTypeMismatch` for a supertype;
/// `ValueTypeRedefinition`; IMP_LIMIT past a limit, and where no more changes are accepted; `Memory` when
/// out of memory.
pub fn add_type(
    alloc: Global,
    store: &mut Store,
    full: bool,
    name: Text,
    if_name: Text,
    props: List<PropStruct>,
    super_types: List<Text>,
) -> Result<Accepted, Fault>
    ensures { AcceptsChange (change.AddType name if_name props super_types)
        (unless_full full
        (types_cause (types.add_type store.old.types name if_name props super_types))
        (added_reply store.old)
        (with_types store.old (types.add_type store.old.types name if_name props super_types)))
        store.old store.new result }
{
    if full {
        let judged = store
            .types
            .judge_add(alloc, &name, &if_name, &props, &super_types);
        return Err(full_fault(judged));
    }
    let (name_twin, (if_twin, (props_twin, supers_twin))) = copy_four(
        alloc,
        &name,
        &if_name,
        &props,
        &super_types,
    )?;
    let answer = store.types.add(name_twin, if_twin, props_twin, supers_twin);
    let reply = change_reply(answer)?;
    Ok(entry_of(
        Change::AddType {
            name,
            if_name,
            props,
            super_types,
        },
        reply,
    ))
}

/// Removes a type (remove_type).
///
/// # Errors
///
/// `IllegalServiceType`, `UnknownServiceType`; `HasSubTypes`; IMP_LIMIT where no more changes are accepted;
/// `Memory` when out of memory.
pub fn remove_type(
    alloc: Global,
    store: &mut Store,
    full: bool,
    name: Text,
) -> Result<Accepted, Fault>
    ensures { AcceptsChange (change.RemoveType name)
        (unless_full full (types_cause (types.remove_type store.old.types name)) reply.Nothing
        (with_types store.old (types.remove_type store.old.types name))) store.old store.new
        result }
{
    match store.types.judge_remove(&name) {
        Judgement::Accepted => {
            if full {
                return Err(Fault::Refused(Refusal::Limit));
            }
            let answer = store.types.remove(&name);
            let reply = change_reply(answer)?;
            Ok(entry_of(Change::RemoveType { name }, reply))
        }
        Judgement::IllegalServiceType => Err(illegal_type(name)),
        Judgement::UnknownServiceType => Err(unknown_type(name)),
        Judgement::HasSubTypes(sub_type) => {
            let sub_type = sub_type.copy(alloc)?;
            Err(raised(UserException::HasSubTypes {
                the_type: name,
                sub_type,
            }))
        }
        Judgement::AlreadyMasked => Err(raised(UserException::AlreadyMasked { name })),
        Judgement::NotMasked => Err(raised(UserException::NotMasked { name })),
    }
}

/// Masks a type (mask_type). Takes no memory.
///
/// # Errors
///
/// `IllegalServiceType`, `UnknownServiceType`; `AlreadyMasked`; IMP_LIMIT where no more changes are accepted.
pub fn mask_type(store: &mut Store, full: bool, name: Text) -> Result<Accepted, Fault>
    ensures accepts { AcceptsChange (change.MaskType name)
        (unless_full full (types_cause (types.mask_type store.old.types name)) reply.Nothing
        (with_types store.old (types.mask_type store.old.types name))) store.old store.new result }
    ensures free { NeedsNone result }
{
    match store.types.judge_mask(&name) {
        Judgement::Accepted => {
            if full {
                return Err(Fault::Refused(Refusal::Limit));
            }
            let answer = store.types.mask(&name);
            let reply = change_reply(answer)?;
            Ok(entry_of(Change::MaskType { name }, reply))
        }
        Judgement::IllegalServiceType => Err(illegal_type(name)),
        Judgement::UnknownServiceType => Err(unknown_type(name)),
        Judgement::AlreadyMasked => Err(raised(UserException::AlreadyMasked { name })),
        Judgement::HasSubTypes(_) => unreachable!(),
        Judgement::NotMasked => unreachable!(),
    }
}

/// Takes the mask from a type (unmask_type). Takes no memory.
///
/// # Errors
///
/// `IllegalServiceType`, `UnknownServiceType`; `NotMasked`; IMP_LIMIT where no more changes are accepted.
pub fn unmask_type(store: &mut Store, full: bool, name: Text) -> Result<Accepted, Fault>
    ensures accepts { AcceptsChange (change.UnmaskType name)
        (unless_full full (types_cause (types.unmask_type store.old.types name)) reply.Nothing
        (with_types store.old (types.unmask_type store.old.types name))) store.old store.new
        result }
    ensures free { NeedsNone result }
{
    match store.types.judge_unmask(&name) {
        Judgement::Accepted => {
            if full {
                return Err(Fault::Refused(Refusal::Limit));
            }
            let answer = store.types.unmask(&name);
            let reply = change_reply(answer)?;
            Ok(entry_of(Change::UnmaskType { name }, reply))
        }
        Judgement::IllegalServiceType => Err(illegal_type(name)),
        Judgement::UnknownServiceType => Err(unknown_type(name)),
        Judgement::NotMasked => Err(raised(UserException::NotMasked { name })),
        Judgement::HasSubTypes(_) => unreachable!(),
        Judgement::AlreadyMasked => unreachable!(),
    }
}

/// Why a call of the repository isn't done.
fn fault_from(fault: TypesFault) -> Fault
    ensures { IsRepositoryAnswer (Err fault) (Err result) }
{
    match fault {
        TypesFault::User(fault) => raised(exception_of(fault)),
        TypesFault::Full => Fault::Refused(Refusal::Limit),
        TypesFault::Memory => Fault::Memory,
    }
}

/// Why a type that was judged so isn't added where no more changes are accepted.
fn full_fault(judged: Result<(), TypesFault>) -> Fault
    ensures { IsFullFault judged result }
{
    match judged {
        Ok(()) => Fault::Refused(Refusal::Limit),
        Err(fault) => fault_from(fault),
    }
}

/// What the repository's answer to a change is as a reply.
fn change_reply(answer: Result<TypesReply, TypesFault>) -> Result<ChangeReply, Fault>
    requires { IsOfChange answer }
    ensures { IsRepositoryAnswer answer result }
{
    match answer {
        Ok(TypesReply::Added(incarnation)) => Ok(ChangeReply::incarnation(halves(incarnation))),
        Ok(TypesReply::Removed | TypesReply::Masked | TypesReply::Unmasked) => {
            Ok(ChangeReply::nothing())
        }
        Ok(TypesReply::Names(_) | TypesReply::Described(_)) => unreachable!(),
        Err(fault) => Err(fault_from(fault)),
    }
}

/// What the repository's answer is as a reply.
fn reply_from(answer: Result<TypesReply, TypesFault>) -> Result<Reply, Fault>
    ensures { IsRepositoryAnswer answer result }
{
    match answer {
        Ok(reply) => Ok(reply_of(reply)),
        Err(fault) => Err(fault_from(fault)),
    }
}

fn reply_of(reply: TypesReply) -> Reply
    ensures { result ≡ reply_of reply }
{
    match reply {
        TypesReply::Added(incarnation) => Reply::Incarnation(halves(incarnation)),
        TypesReply::Removed | TypesReply::Masked | TypesReply::Unmasked => Reply::Nothing,
        TypesReply::Names(names) => Reply::Names(names),
        TypesReply::Described(described) => Reply::Typed(described),
    }
}

/// The exception by which the repository's fault is raised (interface CosTradingRepos::ServiceTypeRepository).
fn exception_of(fault: RepoFault) -> UserException
    ensures { result ≡ exception_of fault }
{
    match fault {
        RepoFault::IllegalServiceType(service_type) => {
            UserException::IllegalServiceType { service_type }
        }
        RepoFault::UnknownServiceType(service_type) => {
            UserException::UnknownServiceType { service_type }
        }
        RepoFault::ServiceTypeExists(name) => UserException::ServiceTypeExists { name },
        RepoFault::IllegalPropertyName(name) => UserException::IllegalPropertyName { name },
        RepoFault::DuplicatePropertyName(name) => UserException::DuplicatePropertyName { name },
        RepoFault::DuplicateServiceTypeName(name) => {
            UserException::DuplicateServiceTypeName { name }
        }
        RepoFault::InterfaceTypeMismatch {
            base_service,
            base_if,
            derived_service,
            derived_if,
        } => UserException::ReposInterfaceTypeMismatch {
            base_service,
            base_if,
            derived_service,
            derived_if,
        },
        RepoFault::ValueTypeRedefinition {
            type_1,
            definition_1,
            type_2,
            definition_2,
        } => UserException::ValueTypeRedefinition {
            type_1,
            definition_1,
            type_2,
            definition_2,
        },
        RepoFault::HasSubTypes { the_type, sub_type } => {
            UserException::HasSubTypes { the_type, sub_type }
        }
        RepoFault::AlreadyMasked(name) => UserException::AlreadyMasked { name },
        RepoFault::NotMasked(name) => UserException::NotMasked { name },
    }
}

/// From which incarnation on types are listed.
fn since(which: &SpecifiedServiceTypes) -> Option<u64>
    ensures { result ≡ since which.now }
{
    match which {
        SpecifiedServiceTypes::All => None,
        SpecifiedServiceTypes::Since(incarnation) => Some(number_of(incarnation)),
    }
}

/// The number that two halves give.
fn number_of(incarnation: &IncarnationNumber) -> u64
    ensures { result ≡ number_of incarnation.now }
{
    u64::from(incarnation.high) * 4294967296 + u64::from(incarnation.low)
}

/// What the repository's answer to a look is as an outcome.
fn outcome_of_reply(answer: Result<TypesReply, TypesFault>) -> Result<Outcome, Memory>
    ensures { (comes : types.RepositoryResult) (r : Repository)
        → types.AnswersRepositoryCall comes r r answer →
        IsOutcomeOrNoMemory (outcome_of comes) result }
{
    match reply_from(answer) {
        Ok(reply) => Ok(Outcome::Done(reply)),
        Err(Fault::Refused(refusal)) => Ok(refusal_outcome(refusal)),
        Err(Fault::Memory) => Err(Memory),
    }
}

/// The names of types (list_types).
///
/// # Errors
///
/// `Memory` only when out of memory.
#[tactic(auto, unfolding(crate::specs::Repositories::list_types))]
pub fn list_types(store: &Store, which: &SpecifiedServiceTypes) -> Result<Outcome, Memory>
    ensures { IsOutcomeOrNoMemory (list_types store.now which.now) result }
{
    outcome_of_reply(store.types.list(since(which)))
}

/// A type with its own properties (describe_type).
///
/// # Errors
///
/// `Memory` only when out of memory.
#[tactic(auto, unfolding(crate::specs::Repositories::describe_type))]
pub fn describe_type(store: &Store, name: &Text) -> Result<Outcome, Memory>
    ensures { IsOutcomeOrNoMemory (describe_type store.now name.now) result }
{
    outcome_of_reply(store.types.describe(name))
}

/// A type with all its properties (fully_describe_type).
///
/// # Errors
///
/// `Memory` only when out of memory.
#[tactic(auto, unfolding(crate::specs::Repositories::fully_describe_type))]
pub fn fully_describe_type(store: &Store, name: &Text) -> Result<Outcome, Memory>
    ensures { IsOutcomeOrNoMemory (fully_describe_type store.now name.now) result }
{
    outcome_of_reply(store.types.fully_describe(name))
}
