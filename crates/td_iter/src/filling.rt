//! Items that are written while they fit.

ghost use Rattle.std.specs.Prelude.{◌≡◌, ◌+◌, ◌≤◌, ◌<◌, ◌^◌, ◌&&◌, length, map, take, nat_lt, nat_le, if◌then◌else◌};
ghost use Rattle.std.specs.Prelude.{IfOk, OnErr};
ghost use Rattle.td_cdr.specs.Format.{row};
ghost use Rattle.td_iter.specs.Filling.{Fills, behind, count_before, reach};

use crate::limits::LARGEST_MESSAGE;
use std::alloc::Global;
use td_cdr::{Memory, Spelled, Writer};

/// How many bytes stand behind a batch's items, from the next multiple of four on.
#[derive(Clone, Copy)]
pub(crate) struct Tail {
    /// Where some are left.
    pub(crate) more: usize,
    /// Where nothing is left.
    pub(crate) done: usize,
}

/// Some of the first items: how many, and how many bytes the writer holds with them.
#[derive(Clone, Copy)]
struct Front {
    count: usize,
    end: usize,
}

/// Appends the most items up to n, from the first on, with which the message fits. Each is written
/// once, and those behind the first that is surely too much are not looked at.
///
/// # Errors
///
/// `Memory` only when out of memory. Some may then be written.
pub(crate) fn put_items<T: Spelled>(
    alloc: Global,
    w: &mut Writer,
    items: &[T],
    n: u32,
    tail: Tail,
) -> Result<usize, Memory>
    requires few { length w.old.bytes ≤ 64 }
    requires more { tail.more ≤ 2 ^ 16 }
    requires done { tail.done ≤ 2 ^ 16 }
    ensures fills { IfOk result
        (λ k. Fills (λ xs. row (map T.format.writes xs)) tail items.now w.old n w.new k) }
    ensures kept { OnErr result (take (length w.old.bytes) w.new.bytes ≡ w.old.bytes) }
    ensures order { w.new.order ≡ w.old.order }
{
    let most = items.len().min(n as usize);
    let mut best = Front {
        count: 0,
        end: w.len(),
    };
    let mut i = 0;
    while goes_on(i, most, w.len()) {
        items[i].write(alloc, w)?;
        i += 1;
        let next = Front {
            count: i,
            end: w.len(),
        };
        best = longer(best, next, behind(tail, i < items.len()));
    }
    w.cut(best.end);
    Ok(best.count)
}

/// Whether a further item may still fit.
fn goes_on(i: usize, most: usize, held: usize) -> bool
    ensures { result ≡ (nat_lt i most && nat_le held LARGEST_MESSAGE) }
{
    i < most && held <= LARGEST_MESSAGE
}

fn behind(tail: Tail, more: bool) -> usize
    ensures { result ≡ behind tail more }
{
    if more { tail.more } else { tail.done }
}

/// The longer of two fronts where it fits with so many bytes behind it, else the shorter.
fn longer(best: Front, next: Front, size: usize) -> Front
    requires next { next.end < 2 ^ 32 }
    requires size { size ≤ 2 ^ 16 }
    ensures { result ≡ (if nat_le (reach next.end size) LARGEST_MESSAGE then next else best) }
{
    if next.end + (4 - next.end % 4) % 4 + size <= LARGEST_MESSAGE {
        next
    } else {
        best
    }
}

/// Appends a sequence of the most items up to n with which the message fits.
///
/// # Errors
///
/// `Memory` only when out of memory. Some may then be written.
pub(crate) fn put_counted<T: Spelled>(
    alloc: Global,
    w: &mut Writer,
    items: &[T],
    n: u32,
    tail: Tail,
) -> Result<usize, Memory>
    requires few { length w.old.bytes ≤ 32 }
    requires more { tail.more ≤ 2 ^ 16 }
    requires done { tail.done ≤ 2 ^ 16 }
    ensures fills { IfOk result
        (λ k. Fills (count_before T.format.writes) tail items.now w.old n w.new k) }
    ensures kept { OnErr result (take (length w.old.bytes) w.new.bytes ≡ w.old.bytes) }
    ensures order { w.new.order ≡ w.old.order }
{
    w.u32(0)?;
    let place = w.len() - 4;
    let count = put_items(alloc, w, items, n, tail)?;
    w.set_u32(place as u32, count as u32);
    Ok(count)
}
