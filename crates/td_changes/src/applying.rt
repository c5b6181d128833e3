//! With what changes are answered, and how they are done to a store.

ghost use Rattle.std.specs.Prelude.{◌≡◌, ◌+◌, true, IfOk, IsOk};
ghost use Rattle.td_admin.specs.Repositories.{next_incarnation};
ghost use Rattle.td_changes.specs.Applying.{acceptance, apply, comes_where, is_free};
ghost use Rattle.td_register.specs.Ids.{id_of};
ghost use Rattle.td_register.specs.Judged.{AcceptsChange, AppliesOutcome};
ghost use Rattle.td_register.specs.Needs.{NeedsNone};
ghost use Rattle.td_changes.specs.Numbering.{AreNumbered};
ghost use Rattle.td_changes.specs.Outcomes.{EndsWithFault};

use itoa::Buffer;
use std::alloc::Global;
use td_admin::{
    add_link, add_type, follow_of, mask_type, modify_link, number_of, remove_link, remove_type,
    set_follow, set_number, set_request_id_stem, set_truth, truth_of, unmask_type,
};
use td_cdr::{Memory, Text, Twin};
use td_export::{export, export_proxy};
use td_modify::{modify, withdraw_using_constraint};
use td_ops::{Change, Outcome, Reply};
use td_register::{Accepted, Fault, refusal_outcome, withdraw, withdraw_proxy};
use td_store::Store;
use td_types::halves;

/// The id of the next offer.
fn next_id(alloc: Global, last: u32) -> Result<Text, Memory>
    ensures { IfOk result (λ id. id ≡ id_of (last + 1)) }
{
    let mut digits = Buffer::new();
    Text::from_slice(alloc, digits.format(u64::from(last) + 1).as_bytes())
}

fn next_incarnation(last: u64) -> u64
    ensures { result ≡ next_incarnation last }
{
    last.saturating_add(1)
}

/// With what the change is answered if it is accepted. It is made before the change is done, since it may run out of
/// memory; the history keeps the reply in short ([`td_register::ChangeReply`]).
///
/// # Errors
///
/// `Memory` only when out of memory; never for a change that takes none.
pub fn acceptance(alloc: Global, store: &Store, c: &Change) -> Result<Reply, Memory>
    ensures reply { IfOk result (λ r. r ≡ acceptance store.now c.now) }
    ensures free { is_free c.now ≡ true → IsOk result }
{
    match c {
        Change::Export { .. } => Ok(Reply::Id(next_id(alloc, store.last_offer)?)),
        Change::ExportProxy { .. } => Ok(Reply::Id(next_id(alloc, store.last_offer)?)),
        Change::SetTruth { attribute, .. } => {
            Ok(Reply::Truth(truth_of(*attribute, &store.attributes)))
        }
        Change::SetNumber { attribute, .. } => {
            Ok(Reply::Number(number_of(*attribute, &store.attributes)))
        }
        Change::SetFollow { attribute, .. } => {
            Ok(Reply::Follow(follow_of(*attribute, &store.attributes)))
        }
        Change::SetRequestIdStem { .. } => {
            Ok(Reply::Stem(store.attributes.request_id_stem.copy(alloc)?))
        }
        Change::AddType { .. } => {
            let incarnation = next_incarnation(store.types.incarnation());
            Ok(Reply::Incarnation(halves(incarnation)))
        }
        _ => Ok(Reply::Nothing),
    }
}

/// Does a change, and gives it back with its reply; where no more changes are accepted, only what refuses it is
/// looked for.
///
/// # Errors
///
/// The refusal, which leaves the store as it was: IMP_LIMIT where nothing else refuses the change and no more
/// are accepted. `Memory` when out of memory; the store is then as it was, too.
pub fn apply_change(
    alloc: Global,
    store: &mut Store,
    full: bool,
    c: Change,
) -> Result<Accepted, Fault>
    requires { AreNumbered store.old }
    ensures accepts { AcceptsChange c (comes_where full store.old c) store.old store.new result }
    ensures free { is_free c ≡ true → NeedsNone result }
{
    match c {
        Change::Export {
            reference,
            service_type,
            properties,
        } => export(alloc, store, full, reference, service_type, properties),
        Change::Withdraw { id } => withdraw(store, full, id),
        Change::Modify {
            id,
            deleted,
            changed,
        } => modify(alloc, store, full, id, deleted, changed),
        Change::WithdrawUsingConstraint {
            service_type,
            constraint,
        } => withdraw_using_constraint(alloc, store, full, service_type, constraint),
        Change::AddLink {
            name,
            target,
            def_pass_on,
            limiting,
            register,
        } => add_link(
            alloc,
            store,
            full,
            name,
            target,
            def_pass_on,
            limiting,
            register,
        ),
        Change::RemoveLink { name } => remove_link(store, full, name),
        Change::ModifyLink {
            name,
            def_pass_on,
            limiting,
        } => modify_link(store, full, name, def_pass_on, limiting),
        Change::ExportProxy {
            target,
            service_type,
            properties,
            if_match_all,
            recipe,
            policies,
        } => export_proxy(
            alloc,
            store,
            full,
            target,
            service_type,
            properties,
            if_match_all,
            recipe,
            policies,
        ),
        Change::WithdrawProxy { id } => withdraw_proxy(store, full, id),
        Change::SetTruth { attribute, value } => set_truth(store, full, attribute, value),
        Change::SetNumber { attribute, value } => set_number(store, full, attribute, value),
        Change::SetFollow { attribute, value } => set_follow(store, full, attribute, value),
        Change::SetRequestIdStem { value } => set_request_id_stem(alloc, store, full, value),
        Change::AddType {
            name,
            if_name,
            props,
            super_types,
        } => add_type(alloc, store, full, name, if_name, props, super_types),
        Change::RemoveType { name } => remove_type(alloc, store, full, name),
        Change::MaskType { name } => mask_type(store, full, name),
        Change::UnmaskType { name } => unmask_type(store, full, name),
    }
}

/// The outcome of a change that isn't done.
///
/// # Errors
///
/// `Memory` only when out of memory.
pub fn not_done(fault: Fault) -> Result<Outcome, Memory>
    ensures { EndsWithFault fault result }
{
    match fault {
        Fault::Refused(refusal) => Ok(refusal_outcome(refusal)),
        Fault::Memory => Err(Memory),
    }
}

/// What a change comes to, with no count of changes.
///
/// # Errors
///
/// `Memory` only when out of memory. The store is then as it was.
pub fn apply(alloc: Global, store: &mut Store, c: Change) -> Result<Outcome, Memory>
    // The numbers of the offers were given, as after each change.
    requires { AreNumbered store.old }
    ensures applies { AppliesOutcome (apply store.old c) store.old store.new result }
    ensures numbered { AreNumbered store.new }
{
    let content = acceptance(alloc, store, &c)?;
    match apply_change(alloc, store, false, c) {
        Ok(accepted) => {
            drop(accepted);
            Ok(Outcome::Done(content))
        }
        Err(fault) => {
            drop(content);
            not_done(fault)
        }
    }
}
