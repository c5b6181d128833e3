//! The first batch of an answer: of a query, and of any other call that gives items and the reference of an iterator.

ghost use Rattle.std.specs.Prelude.{◌≡◌, length, take, IfOk, OnErr, if◌then◌else◌};
ghost use Rattle.td_cdr.specs.Sound.{◌&◌, sequence, text};
ghost use Rattle.td_typecode.specs.References.{reference};
ghost use Rattle.td_iter.specs.Batches.{PutsBatch, PutsWhole};
ghost use Rattle.td_iter.specs.Heads.{nil, given_or_nil, offers_found, items_found, IsSmallReference, AreLimits};
ghost use Rattle.td_typecode.specs.declared.reference.Ior.{Ior as Reference};
ghost use Rattle.td_iter.specs.declared.limits.TheConstants.{REPLY_START};

use crate::filling::{Tail, put_counted};
use std::alloc::Global;
use td_cdr::{List, Memory, Spelled, Text, Writer, put_two};
use td_value::{Ior, Offer};

/// How many bytes the nil reference and no limits come to: an empty string with its NUL and padding, and two
/// counts of 0.
const NOTHING_SIZE: usize = 16;

/// The nil reference, which takes no memory.
fn nil(alloc: Global) -> Ior
    ensures { result ≡ nil }
{
    Ior {
        id: Text::new(alloc),
        profiles: List::new(alloc),
    }
}

/// The given reference where something is left, else the nil one.
fn given_or_nil<'a>(iterator: &'a Ior, nil: &'a Ior, more: bool) -> &'a Ior
    ensures { result.now ≡ (if more then iterator.now else nil.now) }
{
    if more { iterator } else { nil }
}

/// Appends the result of a query: the batch for n offers, the iterator's reference where something is
/// left, and the limits. Answers how many offers it has.
///
/// # Errors
///
/// `Memory` only when out of memory; the writer is then unchanged.
pub fn put_found(
    alloc: Global,
    w: &mut Writer,
    offers: &[Offer],
    n: u32,
    iterator: &Ior,
    limits: &List<Text>,
) -> Result<usize, Memory>
    requires start { length w.old.bytes ≡ REPLY_START }
    requires reference { IsSmallReference iterator.now }
    requires limits { AreLimits limits.now }
    ensures puts { IfOk result
        (λ k. PutsBatch (offers_found iterator.now limits.now) offers.now n w.old w.new k) }
    ensures err { OnErr result (w.new.bytes ≡ w.old.bytes) }
    ensures order { w.new.order ≡ w.old.order }
{
    let held = w.len();
    match append_found(alloc, w, offers, n, iterator, limits) {
        Ok(count) => Ok(count),
        Err(memory) => {
            w.cut(held);
            Err(memory)
        }
    }
}

/// The same. Where it fails, some may be written.
fn append_found(
    alloc: Global,
    w: &mut Writer,
    offers: &[Offer],
    n: u32,
    iterator: &Ior,
    limits: &List<Text>,
) -> Result<usize, Memory>
    requires start { length w.old.bytes ≡ REPLY_START }
    requires reference { IsSmallReference iterator.now }
    requires limits { AreLimits limits.now }
    ensures puts { IfOk result
        (λ k. PutsBatch (offers_found iterator.now limits.now) offers.now n w.old w.new k) }
    ensures kept { OnErr result (take (length w.old.bytes) w.new.bytes ≡ w.old.bytes) }
    ensures order { w.new.order ≡ w.old.order }
{
    let none = nil(alloc);
    let more = found_size(alloc, w, iterator, limits)?;
    let done = found_size(alloc, w, &none, limits)?;
    let count = put_counted(alloc, w, offers, n, Tail { more, done })?;
    let reference = given_or_nil(iterator, &none, count < offers.len());
    put_two(alloc, w, reference, limits)?;
    Ok(count)
}

/// Appends the result of a query, where its batch for n has all of these offers: then it has no iterator's reference.
/// Answers whether it has.
///
/// # Errors
///
/// `Memory` only when out of memory; the writer is then unchanged.
pub(crate) fn put_whole(
    alloc: Global,
    w: &mut Writer,
    offers: &[Offer],
    n: u32,
    limits: &List<Text>,
) -> Result<bool, Memory>
    requires start { length w.old.bytes ≡ REPLY_START }
    requires limits { AreLimits limits.now }
    ensures whole { IfOk result (λ whole. (iterator : Reference)
        → PutsWhole (offers_found iterator limits.now) offers.now n w.old w.new whole) }
    ensures err { OnErr result (w.new.bytes ≡ w.old.bytes) }
    ensures order { w.new.order ≡ w.old.order }
{
    let held = w.len();
    match append_ended(alloc, w, offers, n, limits) {
        Ok(count) if count == offers.len() => Ok(true),
        Ok(_) => {
            w.cut(held);
            Ok(false)
        }
        Err(memory) => {
            w.cut(held);
            Err(memory)
        }
    }
}

/// Appends the result of a query with the nil reference, whatever is left behind its batch. Where it fails, some may be
/// written.
fn append_ended(
    alloc: Global,
    w: &mut Writer,
    offers: &[Offer],
    n: u32,
    limits: &List<Text>,
) -> Result<usize, Memory>
    requires start { length w.old.bytes ≡ REPLY_START }
    requires limits { AreLimits limits.now }
    ensures puts { IfOk result
        (λ k. PutsBatch (offers_found nil limits.now) offers.now n w.old w.new k) }
    ensures kept { OnErr result (take (length w.old.bytes) w.new.bytes ≡ w.old.bytes) }
    ensures order { w.new.order ≡ w.old.order }
{
    let none = nil(alloc);
    let size = ended_size(alloc, w, &none, limits)?;
    let tail = Tail {
        more: size,
        done: size,
    };
    let count = put_counted(alloc, w, offers, n, tail)?;
    put_two(alloc, w, &none, limits)?;
    Ok(count)
}

/// How many bytes the nil reference and limits come to behind what the writer holds, which is as before. Mostly no
/// limit was met, and nothing is written to be measured.
///
/// # Errors
///
/// `Memory` only when out of memory.
#[tactic(auto, using(crate::proofs::Endings::without_limits))]
fn ended_size(
    alloc: Global,
    w: &mut Writer,
    none: &Ior,
    limits: &List<Text>,
) -> Result<usize, Memory>
    requires start { length w.old.bytes ≡ REPLY_START }
    requires none { none.now ≡ nil }
    ensures size { IfOk result (λ n. n ≡
        length ((reference & sequence text).format.writes (none.now, limits.now)
        w.old.order (length w.old.bytes))) }
    ensures same { w.new.bytes ≡ w.old.bytes }
    ensures order { w.new.order ≡ w.old.order }
{
    if limits.is_empty() {
        return Ok(NOTHING_SIZE);
    }
    found_size(alloc, w, none, limits)
}

/// How many bytes a reference and limits come to behind what the writer holds, which is as before.
///
/// # Errors
///
/// `Memory` only when out of memory.
fn found_size(
    alloc: Global,
    w: &mut Writer,
    iterator: &Ior,
    limits: &List<Text>,
) -> Result<usize, Memory>
    ensures size { IfOk result (λ n. n ≡
        length ((reference & sequence text).format.writes (iterator.now, limits.now)
        w.old.order (length w.old.bytes))) }
    ensures same { w.new.bytes ≡ w.old.bytes }
    ensures order { w.new.order ≡ w.old.order }
{
    let held = w.len();
    match put_two(alloc, w, iterator, limits) {
        Ok(()) => {
            let size = w.len() - held;
            w.cut(held);
            Ok(size)
        }
        Err(memory) => {
            w.cut(held);
            Err(memory)
        }
    }
}

/// Appends the batch for n items, and the iterator's reference where something is left. Answers how many
/// items it has.
///
/// # Errors
///
/// `Memory` only when out of memory; the writer is then unchanged.
pub fn put_first<T: Spelled>(
    alloc: Global,
    w: &mut Writer,
    items: &[T],
    n: u32,
    iterator: &Ior,
) -> Result<usize, Memory>
    requires start { length w.old.bytes ≡ REPLY_START }
    requires reference { IsSmallReference iterator.now }
    ensures puts { IfOk result
        (λ k. PutsBatch (items_found T.format.writes iterator.now) items.now n w.old w.new k) }
    ensures err { OnErr result (w.new.bytes ≡ w.old.bytes) }
    ensures order { w.new.order ≡ w.old.order }
{
    let held = w.len();
    match append_first(alloc, w, items, n, iterator) {
        Ok(count) => Ok(count),
        Err(memory) => {
            w.cut(held);
            Err(memory)
        }
    }
}

/// The same. Where it fails, some may be written.
fn append_first<T: Spelled>(
    alloc: Global,
    w: &mut Writer,
    items: &[T],
    n: u32,
    iterator: &Ior,
) -> Result<usize, Memory>
    requires start { length w.old.bytes ≡ REPLY_START }
    requires reference { IsSmallReference iterator.now }
    ensures puts { IfOk result
        (λ k. PutsBatch (items_found T.format.writes iterator.now) items.now n w.old w.new k) }
    ensures kept { OnErr result (take (length w.old.bytes) w.new.bytes ≡ w.old.bytes) }
    ensures order { w.new.order ≡ w.old.order }
{
    let none = nil(alloc);
    let more = reference_size(alloc, w, iterator)?;
    let done = reference_size(alloc, w, &none)?;
    let count = put_counted(alloc, w, items, n, Tail { more, done })?;
    given_or_nil(iterator, &none, count < items.len()).write(alloc, w)?;
    Ok(count)
}

/// How many bytes a reference comes to behind what the writer holds, which is as before.
///
/// # Errors
///
/// `Memory` only when out of memory.
fn reference_size(alloc: Global, w: &mut Writer, iterator: &Ior) -> Result<usize, Memory>
    ensures size { IfOk result (λ n. n ≡
        length (reference.format.writes iterator.now w.old.order (length w.old.bytes))) }
    ensures same { w.new.bytes ≡ w.old.bytes }
    ensures order { w.new.order ≡ w.old.order }
{
    let held = w.len();
    match iterator.write(alloc, w) {
        Ok(()) => {
            let size = w.len() - held;
            w.cut(held);
            Ok(size)
        }
        Err(memory) => {
            w.cut(held);
            Err(memory)
        }
    }
}
