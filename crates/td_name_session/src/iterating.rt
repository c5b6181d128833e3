//! The next bindings of an iterator.

ghost use Rattle.std.specs.Prelude.{◌≡◌, drop, length, OnOk, OnErr};
ghost use Rattle.td_iter.specs.declared.limits.TheConstants.{REPLY_START};
ghost use Rattle.td_name_ops.specs.declared.call.IteratorCall.TheVariants as asked;
ghost use Rattle.td_name_session.specs.Invoking.{GivesTo, PutsBindings, batch_call};

use crate::answer::{Answer, AnswerBody, no_memory};
use std::alloc::Global;
use td_cdr::{Memory, Writer};
use td_iter::{Iter, Truth};
use td_name_ops::put_next_one;
use td_names::NameBinding;

/// Gives the next binding, or at most so many.
pub(crate) fn give(
    alloc: Global,
    left: &mut Iter<NameBinding>,
    w: &mut Writer,
    how_many: Option<u32>,
) -> Answer
    requires { length w.old.bytes ≡ REPLY_START }
    ensures { GivesTo (batch_call how_many) left.old w.old result w.new left.new }
{
    match put(alloc, left, w, how_many) {
        Ok(()) => Answer {
            body: AnswerBody::Written,
            accepted: false,
        },
        Err(_) => no_memory(),
    }
}

/// Appends them. The iterator is unchanged where it fails.
///
/// # Errors
///
/// `Memory` only when out of memory.
fn put(
    alloc: Global,
    left: &mut Iter<NameBinding>,
    w: &mut Writer,
    how_many: Option<u32>,
) -> Result<(), Memory>
    requires { length w.old.bytes ≡ REPLY_START }
    ensures ok { OnOk result (PutsBindings (batch_call how_many) left.old w.old w.new left.new) }
    ensures err { OnErr result (left.new ≡ left.old) }
{
    match how_many {
        Some(n) => next_n(alloc, left, w, n),
        None => next_one(alloc, left, w),
    }
}

fn next_n(alloc: Global, left: &mut Iter<NameBinding>, w: &mut Writer, n: u32) -> Result<(), Memory>
    requires { length w.old.bytes ≡ REPLY_START }
    ensures ok { OnOk result (PutsBindings (asked.NextN n) left.old w.old w.new left.new) }
    ensures err { OnErr result (left.new ≡ left.old) }
{
    let _more = left.next_n(alloc, n, w, Truth::SomeGiven)?;
    Ok(())
}

/// The next binding, and that it is one; past the end that there is none, with an empty name of an object.
fn next_one(alloc: Global, left: &mut Iter<NameBinding>, w: &mut Writer) -> Result<(), Memory>
    ensures ok { OnOk result (PutsBindings asked.NextOne left.old w.old w.new left.new) }
    ensures err { OnErr result (left.new ≡ left.old) }
{
    put_next_one(alloc, w, left.left().first())?;
    pass(left);
    Ok(())
}

/// Passes the next binding, if there is one.
#[tactic(auto, using(crate::proofs::Invoking::drop_none))]
fn pass(left: &mut Iter<NameBinding>)
    ensures { left.new ≡ drop 1 left.old }
{
    if left.max_left() > 0 {
        let _more = left.give(1);
    }
}
