//! `list`: the first bindings, and an iterator over the others.

ghost use Rattle.std.specs.Prelude.{◌≡◌, ◌<◌, ◌^◌, length, if◌then◌else◌, IfOk, OnOk, OnErr};
ghost use Rattle.td_iter.specs.Desks.{with_added};
ghost use Rattle.td_iter.specs.Heads.{IsSmallReference};
ghost use Rattle.td_iter.specs.declared.limits.TheConstants.{REPLY_START};
ghost use Rattle.td_name_session.specs.Keys.{desk_label};
ghost use Rattle.td_name_session.specs.Invoking.{CutsTo, Lists, ListsOrWants};
ghost use Rattle.td_name_session.specs.Scenes.{Idles, scene};

use crate::answer::{Answer, AnswerBody, no_memory, outcome_of, plain};
use crate::iterators::Iterators;
use crate::keys::iterator_reference;
use std::alloc::Global;
use td_cdr::{List, Memory, Writer};
use td_iter::Iter;
use td_names::{NameAct, NameAnswer, NameBinding, NameReply};
use td_naming::Names;
use td_typecode::Ior;

/// Lists a context. The writer holds what stands before the body of a Reply with a result.
pub(crate) fn serve_list<N: Names>(
    alloc: Global,
    names: &mut N,
    iterators: &mut Iterators,
    w: &mut Writer,
    context: u32,
    how_many: u32,
) -> Answer
    requires start { length w.old.bytes ≡ REPLY_START }
    requires numbers { iterators.old.1 < 2 ^ 63 }
    ensures same { N.same names.old names.new }
    ensures lists { ListsOrWants N.others context how_many w.old
        (scene (N.view names.old) iterators.old) result w.new
        (scene (N.view names.new) iterators.new) }
{
    match list(alloc, names, iterators, w, context, how_many) {
        Ok(answer) => answer,
        Err(_) => no_memory(),
    }
}

/// The same, or running out of memory. Nothing was done then.
fn list<N: Names>(
    alloc: Global,
    names: &mut N,
    iterators: &mut Iterators,
    w: &mut Writer,
    context: u32,
    how_many: u32,
) -> Result<Answer, Memory>
    requires start { length w.old.bytes ≡ REPLY_START }
    requires numbers { iterators.old.1 < 2 ^ 63 }
    ensures same { N.same names.old names.new }
    ensures ok { IfOk result
        (λ a. Lists N.others context how_many w.old (scene (N.view names.old) iterators.old) a w.new
        (scene (N.view names.new) iterators.new)) }
    ensures err { OnErr result (Idles N.others (N.view names.old) (N.view names.new)) }
    ensures iterators { OnErr result (iterators.new ≡ iterators.old) }
{
    let reference = iterator_reference(alloc, names.home(), iterators.next_number())?;
    match names.act(alloc, context, NameAct::List)? {
        NameAnswer::Done(NameReply::Bindings(bindings)) => {
            cut(alloc, iterators, w, &reference, bindings, how_many)
        }
        other => Ok(plain(outcome_of(alloc, other))),
    }
}

/// Tells the first of these bindings, and keeps the others in an iterator. A store has fewer bindings than 2^32, so
/// that there is no lack of memory for their number.
fn cut(
    alloc: Global,
    iterators: &mut Iterators,
    w: &mut Writer,
    reference: &Ior,
    bindings: List<NameBinding>,
    how_many: u32,
) -> Result<Answer, Memory>
    requires start { length w.old.bytes ≡ REPLY_START }
    requires numbers { iterators.old.1 < 2 ^ 63 }
    requires small { IsSmallReference reference.now }
    ensures ok { IfOk result
        (λ a. CutsTo reference.now bindings how_many w.old iterators.old a w.new iterators.new) }
    ensures err { OnErr result (iterators.new ≡ iterators.old) }
{
    if bindings.len() > u32::MAX as usize {
        return Err(Memory);
    }
    let mut left = Iter::new(bindings);
    let more = left.first_batch(alloc, how_many, w, reference)?;
    keep(alloc, iterators, left, more)?;
    Ok(Answer {
        body: AnswerBody::Written,
        accepted: false,
    })
}

/// Keeps what is left in an iterator, where something is.
///
/// # Errors
///
/// `Memory` only when out of memory; nothing was changed then.
fn keep(
    alloc: Global,
    iterators: &mut Iterators,
    left: Iter<NameBinding>,
    more: bool,
) -> Result<(), Memory>
    requires numbers { iterators.old.1 < 2 ^ 63 }
    ensures ok { OnOk result
        (iterators.new ≡ (if more then with_added desk_label left iterators.old
        else iterators.old)) }
    ensures err { OnErr result (iterators.new ≡ iterators.old) }
{
    if more {
        iterators.add(alloc, left)
    } else {
        drop(left);
        Ok(())
    }
}
