//! Batches of offers.

use crate::making::{is_body, nil, no_limits, offers, same_offers, started};
use std::alloc::Global;
use std::process::Abort;
use std::test::Fail;
use td_cdr::Order;
use td_iter::OfferIter;

/// How many offers are asked for, the bytes of the batch, whether some are left, and how many.
type Batch = (u32, &'static str, bool, u32);

/// The first batch of 1 and 2.
const FIRST: &str =
    "00000002000000023100000000000000000000000000000232000000000000000000000000000001000000000000000000000000";

/// TRUE, and 3, 4, 5.
const NEXT: &str =
    "0100000003000000020000003300000000000000000000000200000034000000000000000000000002000000350000000000000000000000";

/// FALSE, and 6, 7.
const LAST: &str =
    "00000000020000000200000036000000000000000000000002000000370000000000000000000000";

/// FALSE, and none.
const ENDED: &str = "0000000000000000";

/// A first batch of none.
const EMPTY: &str = "0000000000000001000000000000000000000000";

/// TRUE, and none.
const NONE: &str = "0100000000000000";

/// The worked example: of seven offers the first two, and then the others.
const SEVEN: [Batch; 4] = [
    (2, FIRST, true, 5),
    (3, NEXT, true, 2),
    (9, LAST, false, 0),
    (1, ENDED, false, 0),
];

/// With no offer a query gives, all are left, and `next_n` for none leaves them.
const TWO: [Batch; 2] = [(0, EMPTY, true, 2), (0, NONE, true, 2)];

/// Whether this is the first batch.
fn gives_first(alloc: Global, left: &mut OfferIter, batch: &Batch) -> Result<bool, Fail> {
    let (n, digits, more, count) = batch;
    let mut w = started(alloc, Order::Big)?;
    let content = left.first_batch(alloc, *n, &mut w, &nil(alloc), &no_limits(alloc))?;
    Ok(content == *more && left.max_left() == *count && is_body(alloc, &w, digits)?)
}

/// Whether `next_n` gives this batch.
fn gives(alloc: Global, left: &mut OfferIter, batch: &Batch) -> Result<bool, Fail> {
    let (n, digits, more, count) = batch;
    let mut w = started(alloc, Order::Little)?;
    let content = left.next_n(alloc, *n, &mut w)?;
    Ok(content == *more && left.max_left() == *count && is_body(alloc, &w, digits)?)
}

fn gives_all(alloc: Global, left: &mut OfferIter, batches: &[Batch]) -> Result<bool, Fail> {
    let (first, rest) = batches.split_first().ok_or("a batch")?;
    let mut good = gives_first(alloc, left, first)?;
    for batch in rest {
        good = good && gives(alloc, left, batch)?;
    }
    Ok(good)
}

/// Whether an iterator over offers of these ids gives these batches.
fn passes(alloc: Global, ids: &[u8], batches: &[Batch]) -> Result<bool, Fail> {
    let mut left = offers(alloc, ids)?;
    gives_all(alloc, &mut left, batches)
}

#[test]
fn batches_of_offers(rt: HostRuntime) -> Result<(), Fail> {
    let alloc = rt.alloc();
    assert!(rt; passes(alloc, b"1234567", &SEVEN)?);
    assert!(rt; passes(alloc, b"12", &TWO)?);
    Ok(())
}

/// Whether the batch for n that has all offers has these bytes; or there is none, and nothing was written.
fn gives_whole(
    alloc: Global,
    left: &mut OfferIter,
    n: u32,
    digits: &str,
    whole: bool,
) -> Result<bool, Fail> {
    let mut w = started(alloc, Order::Big)?;
    let content = left.whole_batch(alloc, n, &mut w, &no_limits(alloc))?;
    Ok(content == whole && is_body(alloc, &w, digits)?)
}

/// A batch for fewer than are left isn't all, and one for more is.
#[test]
fn whole_batches(rt: HostRuntime) -> Result<(), Fail> {
    assert!(rt; gives_both(rt.alloc())?);
    Ok(())
}

fn gives_both(alloc: Global) -> Result<bool, Fail> {
    let mut left = offers(alloc, b"12")?;
    takes_both(alloc, &mut left)
}

fn takes_both(alloc: Global, left: &mut OfferIter) -> Result<bool, Fail> {
    Ok(
        gives_whole(alloc, left, 1, "", false)?
            && left.max_left() == 2
            && gives_whole(alloc, left, 3, FIRST, true)?
            && left.max_left() == 0,
    )
}

/// Whether `next_n` leaves so many.
fn leaves(alloc: Global, left: &mut OfferIter, n: u32, count: u32) -> Result<bool, Fail> {
    let mut w = started(alloc, Order::Big)?;
    left.next_n(alloc, n, &mut w)?;
    Ok(left.max_left() == count)
}

/// Of offers of 1 MiB each, the largest that a store takes, fifteen fit into a message.
fn gives_some(alloc: Global) -> Result<bool, Fail> {
    let id = vec![in alloc; 55; 1048563]?;
    let mut left = same_offers(alloc, 20, id.as_slice())?;
    Ok(
        leaves(alloc, &mut left, 1, 19)?
            && leaves(alloc, &mut left, 100, 4)?
            && leaves(alloc, &mut left, 100, 0)?,
    )
}

#[test]
fn the_largest_offers_fill_batches(rt: HostRuntime) -> Result<(), Fail> {
    assert!(rt; gives_some(rt.alloc())?);
    Ok(())
}
