//! Batches of ids.

use crate::making::{ids, is_body, nil, started};
use std::alloc::Global;
use std::process::Abort;
use std::test::Fail;
use td_cdr::Order;
use td_iter::IdIter;

/// The first batch of two ids.
const FIRST: &str = "0000000200000002370000000000000237000000000000010000000000000000";

/// TRUE, and none.
const NONE: &str = "0100000000000000";

/// FALSE, and the last.
const LAST: &str = "0000000001000000020000003700";

/// Whether `next_n` gives these bytes, and tells whether some are left.
fn gives(
    alloc: Global,
    left: &mut IdIter,
    order: Order,
    n: u32,
    digits: &str,
    more: bool,
) -> Result<bool, Fail> {
    let mut w = started(alloc, order)?;
    let content = left.next_n(alloc, n, &mut w)?;
    Ok(content == more && is_body(alloc, &w, digits)?)
}

/// Whether the first batch for n has these bytes, and some are left.
fn gives_first(alloc: Global, left: &mut IdIter, n: u32, digits: &str) -> Result<bool, Fail> {
    let mut w = started(alloc, Order::Big)?;
    let more = left.first_batch(alloc, n, &mut w, &nil(alloc))?;
    Ok(more && is_body(alloc, &w, digits)?)
}

/// The first batch of three ids for two, and what `next_n` then gives.
fn gives_batches(alloc: Global, left: &mut IdIter) -> Result<bool, Fail> {
    Ok(
        gives_first(alloc, left, 2, FIRST)?
            && gives(alloc, left, Order::Big, 0, NONE, true)?
            && gives(alloc, left, Order::Little, 9, LAST, false)?
            && left.max_left() == 0,
    )
}

fn gives_three(alloc: Global) -> Result<bool, Fail> {
    let mut left = ids(alloc, 3, b"7")?;
    gives_batches(alloc, &mut left)
}

/// Whether of ids with 256 bytes each in a message as many are given as fit into 16 MiB.
fn fills_a_message(alloc: Global) -> Result<bool, Fail> {
    let mut left = ids(alloc, 65540, &[55; 251])?;
    let mut w = started(alloc, Order::Big)?;
    let more = left.next_n(alloc, u32::MAX, &mut w)?;
    Ok(more && left.max_left() == 5 && w.len() == 16776992)
}

#[test]
fn batches_of_ids(rt: HostRuntime) -> Result<(), Fail> {
    let alloc = rt.alloc();
    assert!(rt; gives_three(alloc)?);
    assert!(rt; fills_a_message(alloc)?);
    Ok(())
}
