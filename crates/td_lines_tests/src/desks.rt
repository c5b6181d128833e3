//! The desk.

use crate::making::ids;
use std::alloc::Global;
use std::process::Abort;
use std::test::Fail;
use td_cdr::Text;
use td_iter::{Desk, Item};

/// Adds an iterator over one id of the trader A, and answers its number.
fn add(alloc: Global, desk: &mut Desk) -> Result<u64, Fail> {
    if desk.next_number() >= 1 << 63 {
        return Err("no number".into());
    }
    let trader = Text::from_slice(alloc, b"A")?;
    let ids = ids(alloc, 1, b"1")?;
    Ok(desk.add(trader, Item::Ids(ids)))
}

/// How many are left on the iterator of this trader and number.
fn left(alloc: Global, desk: &mut Desk, trader: &[u8], number: u64) -> Result<Option<u32>, Fail> {
    let trader = Text::from_slice(alloc, trader)?;
    match desk.get_mut(&trader, number) {
        Some(Item::Ids(left)) => Ok(Some(left.max_left())),
        Some(Item::Offers(left)) => Ok(Some(left.max_left())),
        None => Ok(None),
    }
}

/// The 257th drops the first, and a number that was dropped isn't given again.
#[test]
fn desks(rt: HostRuntime) -> Result<(), Fail> {
    assert!(rt; holds_256(rt.alloc())?);
    assert!(rt; removes_one(rt.alloc())?);
    Ok(())
}

fn holds_256(alloc: Global) -> Result<bool, Fail> {
    let mut desk = Desk::new(alloc, 1)?;
    for _ in 0..256 {
        let _number = add(alloc, &mut desk)?;
    }
    drops_the_first(alloc, &mut desk)
}

fn drops_the_first(alloc: Global, desk: &mut Desk) -> Result<bool, Fail> {
    Ok(
        left(alloc, desk, b"A", 1)? == Some(1)
            && add(alloc, desk)? == 257
            && desk.next_number() == 258
            && left(alloc, desk, b"A", 1)? == None
            && left(alloc, desk, b"A", 2)? == Some(1)
            && left(alloc, desk, b"B", 2)? == None,
    )
}

fn removes_one(alloc: Global) -> Result<bool, Fail> {
    let mut desk = Desk::new(alloc, 7)?;
    let _number = add(alloc, &mut desk)?;
    let trader = Text::from_slice(alloc, b"A")?;
    let good = desk.remove(&trader, 7) && !desk.remove(&trader, 7);
    drop(trader);
    Ok(good && add(alloc, &mut desk)? == 8)
}
