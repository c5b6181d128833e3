//! Outcomes to bytes.

ghost use Rattle.std.specs.Prelude.{◌≡◌, ◌≤◌, IsTrue, None, Some, option_copied};
ghost use Rattle.td_cdr.specs.Format.{Appends, Puts};
ghost use Rattle.td_name_ops.specs.Outcomes.{is_plain, is_plain_result, next_one_piece, outcome_piece, outcome_status};
ghost use Rattle.td_name_ops.specs.Outcomes.{result_piece};
ghost use Rattle.td_name_ops.specs.declared.outcome.NameResult.TheVariants.{NextN};
ghost use Rattle.td_ops.specs.Outcomes.{FitsRoom, system_piece};

use crate::exceptions::put_exception;
use crate::outcome::{NameOutcome, NameResult};
use crate::references::put_reference;
use std::alloc::Global;
use td_cdr::{List, Memory, Spelled, Writer, put_three, put_two};
use td_names::{NameBinding, NameComponent};
use td_ops::{Outcome, SystemKind, write_outcome};

/// BindingType `nobject`.
const OBJECT: u32 = 0;

/// The status of the reply that carries an outcome: 0 for a result, 1 for a user exception, 2 for a system exception
/// (CORBA, chapter on General Inter-ORB Protocol, "Reply Header").
pub fn name_status(outcome: &NameOutcome) -> u32
    ensures { result ≡ outcome_status outcome.now }
{
    match outcome {
        NameOutcome::Done(_) => 0,
        NameOutcome::User(_) => 1,
        NameOutcome::System { .. } => 2,
    }
}

/// Whether memory runs out for an outcome in a writer's room alone: an empty result, a truth value, a reference of one
/// profile, and a system exception. Takes no memory.
pub fn is_plain(outcome: &NameOutcome) -> bool
    ensures { result ≡ is_plain outcome.now }
{
    match outcome {
        NameOutcome::Done(value) => is_plain_result(value),
        NameOutcome::User(_) => false,
        NameOutcome::System { .. } => true,
    }
}

fn is_plain_result(value: &NameResult) -> bool
    ensures { result ≡ is_plain_result value.now }
{
    match value {
        NameResult::Nothing => true,
        NameResult::Object(object) => object.profiles.len() == 1,
        NameResult::Truth(_) => true,
        NameResult::List { .. } => false,
        NameResult::NextOne(_) => false,
        NameResult::NextN(_) => false,
    }
}

/// Appends a reply's body, in the writer's order and with padding 0: a result's fields, or the repository id of an
/// exception and its members in order (CORBA, chapter on General Inter-ORB Protocol, "Reply Body").
///
/// # Errors
///
/// `Memory` when out of memory or of room; the writer is then unchanged. An empty result, a truth value, a reference of
/// one profile and a system exception are refused only for want of the writer's room, which doesn't grow less then.
pub fn write_name_outcome(
    alloc: Global,
    w: &mut Writer,
    outcome: &NameOutcome,
) -> Result<(), Memory>
    ensures appends { Appends (outcome_piece outcome.now) w.old w.new result }
    ensures fits { IsTrue (is_plain outcome.now)
        → FitsRoom (outcome_piece outcome.now) w.old result }
    ensures room { IsTrue (is_plain outcome.now) → w.old.room ≤ w.new.room }
{
    let held = w.len();
    match put_outcome(alloc, w, outcome) {
        Ok(()) => Ok(()),
        Err(memory) => {
            w.cut(held);
            Err(memory)
        }
    }
}

/// A reply's body. Where it fails, some of it may be written.
fn put_outcome(alloc: Global, w: &mut Writer, outcome: &NameOutcome) -> Result<(), Memory>
    ensures puts { Puts (outcome_piece outcome.now) w.old w.new result }
    ensures fits { IsTrue (is_plain outcome.now)
        → FitsRoom (outcome_piece outcome.now) w.old result }
    ensures room { IsTrue (is_plain outcome.now) → w.old.room ≤ w.new.room }
{
    match outcome {
        NameOutcome::Done(result) => put_result(alloc, w, result),
        NameOutcome::User(exception) => put_exception(alloc, w, exception),
        NameOutcome::System {
            kind,
            minor,
            completion,
        } => put_system(alloc, w, *kind, *minor, *completion),
    }
}

/// A result. Where it fails, some of it may be written.
fn put_result(alloc: Global, w: &mut Writer, value: &NameResult) -> Result<(), Memory>
    ensures puts { Puts (result_piece value.now) w.old w.new result }
    ensures fits { IsTrue (is_plain_result value.now)
        → FitsRoom (result_piece value.now) w.old result }
    ensures room { IsTrue (is_plain_result value.now) → w.old.room ≤ w.new.room }
{
    match value {
        NameResult::Nothing => Ok(()),
        NameResult::Object(object) => put_reference(alloc, w, object),
        NameResult::Truth(truth) => w.octet(u8::from(*truth)),
        NameResult::List { bindings, iterator } => put_two(alloc, w, bindings, iterator),
        NameResult::NextOne(binding) => put_next_one(alloc, w, binding.as_ref()),
        NameResult::NextN(bindings) => put_next_n(alloc, w, bindings),
    }
}

/// Appends the result of `next_one`: a binding and that it is one, or that there is none, with an empty name of an
/// object. Where it fails, some of it may be written.
///
/// # Errors
///
/// `Memory` when out of memory or of room.
pub fn put_next_one(
    alloc: Global,
    w: &mut Writer,
    binding: Option<&NameBinding>,
) -> Result<(), Memory>
    ensures { Puts (next_one_piece (option_copied binding.entry)) w.old w.new result }
{
    match binding {
        Some(binding) => put_binding(alloc, w, binding),
        None => put_no_binding(alloc, w),
    }
}

fn put_binding(alloc: Global, w: &mut Writer, binding: &NameBinding) -> Result<(), Memory>
    ensures { Puts (next_one_piece (Some binding.now)) w.old w.new result }
{
    put_two(alloc, w, &true, binding)
}

fn put_no_binding(alloc: Global, w: &mut Writer) -> Result<(), Memory>
    ensures { Puts (next_one_piece None) w.old w.new result }
{
    let name: List<NameComponent> = List::new(alloc);
    put_three(alloc, w, &false, &name, &OBJECT)
}

/// Bindings, and whether there are any. Where it fails, some may be written.
fn put_next_n(alloc: Global, w: &mut Writer, bindings: &List<NameBinding>) -> Result<(), Memory>
    ensures { Puts (result_piece (NextN bindings.now)) w.old w.new result }
{
    let some = !bindings.is_empty();
    put_two(alloc, w, &some, bindings)
}

/// A system exception. It fails only for want of room.
fn put_system(
    alloc: Global,
    w: &mut Writer,
    kind: SystemKind,
    minor: u32,
    completion: u32,
) -> Result<(), Memory>
    ensures puts { Puts (system_piece kind minor completion) w.old w.new result }
    ensures fits { FitsRoom (system_piece kind minor completion) w.old result }
    ensures room { w.old.room ≤ w.new.room }
{
    let outcome = Outcome::System {
        kind,
        minor,
        completion,
    };
    let written = write_outcome(alloc, w, &outcome);
    drop(outcome);
    written
}
