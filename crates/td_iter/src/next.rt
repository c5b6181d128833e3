//! The results of `next_n`.

ghost use Rattle.std.specs.Prelude.{◌≡◌, length, take, IfOk, OnErr};
ghost use Rattle.td_iter.specs.Batches.{PutsBatch};
ghost use Rattle.td_iter.specs.Filling.{next_piece, padded_flag};
ghost use Rattle.td_iter.specs.declared.limits.TheConstants.{REPLY_START};

use crate::filling::{Tail, put_counted};
use crate::truth::Truth;
use std::alloc::Global;
use td_cdr::{Memory, Order, Spelled, Writer};

/// Appends a truth value about the batch for n items, and the batch. Answers how many items it has. The writer holds
/// what stands before the body of a reply.
///
/// # Errors
///
/// `Memory` only when out of memory; the writer is then unchanged.
pub(crate) fn put_next<T: Spelled>(
    alloc: Global,
    w: &mut Writer,
    items: &[T],
    n: u32,
    truth: Truth,
) -> Result<usize, Memory>
    requires { length w.old.bytes ≡ REPLY_START }
    ensures puts { IfOk result
        (λ k. PutsBatch (next_piece truth T.format.writes) items.now n w.old w.new k) }
    ensures err { OnErr result (w.new.bytes ≡ w.old.bytes) }
    ensures order { w.new.order ≡ w.old.order }
{
    let held = w.len();
    match append_next(alloc, w, items, n, truth) {
        Ok(count) => Ok(count),
        Err(memory) => {
            w.cut(held);
            Err(memory)
        }
    }
}

/// The same. Where it fails, some may be written. The flag is told last: a boolean and its padding are
/// set as one number.
fn append_next<T: Spelled>(
    alloc: Global,
    w: &mut Writer,
    items: &[T],
    n: u32,
    truth: Truth,
) -> Result<usize, Memory>
    requires { length w.old.bytes ≡ REPLY_START }
    ensures puts { IfOk result
        (λ k. PutsBatch (next_piece truth T.format.writes) items.now n w.old w.new k) }
    ensures kept { OnErr result (take (length w.old.bytes) w.new.bytes ≡ w.old.bytes) }
    ensures order { w.new.order ≡ w.old.order }
{
    let place = w.len();
    w.u32(0)?;
    let count = put_counted(alloc, w, items, n, Tail { more: 0, done: 0 })?;
    let flag = padded_flag(w.order(), truth.content(count, items.len()));
    w.set_u32(place as u32, flag);
    Ok(count)
}

/// A boolean with the padding of zeros that follows it, as one number.
fn padded_flag(order: Order, flag: bool) -> u32
    ensures { result ≡ padded_flag order flag }
{
    match (order, flag) {
        (Order::Big, true) => 1 << 24,
        (Order::Little, true) => 1,
        (_, false) => 0,
    }
}
