//! Desks of one holder.

use crate::making::{begun, entry};
use std::alloc::Global;
use std::process::Abort;
use td_cdr::{Memory, Order, Text};
use td_desk::{DeskBook, DeskFault};

/// How many are left of A's iterator of this number.
fn left(alloc: Global, desk: &mut DeskBook, number: u64) -> Result<Result<u32, DeskFault>, Memory> {
    let trader = Text::from_slice(alloc, b"A")?;
    Ok(match desk.max_left(trader, number) {
        Ok((left, _offers)) => Ok(left),
        Err(fault) => Err(fault),
    })
}

/// What comes behind the head of a reply for n more of A's iterator of this number, and whether more are left.
fn next(
    alloc: Global,
    desk: &mut DeskBook,
    number: u64,
    n: u32,
) -> Result<(Vec<u8>, Result<bool, DeskFault>), Memory> {
    let trader = Text::from_slice(alloc, b"A")?;
    let begun = begun(alloc, Order::Big)?;
    let (writer, more) = desk.next_n(trader, number, n, begun);
    let body = Vec::from_slice(alloc, &writer.bytes()[24..])?;
    Ok((body, more))
}

/// Seven ids: two, three from another connection, two, none.
fn in_batches(alloc: Global) -> Result<bool, Memory> {
    let mut desk = DeskBook::new(alloc)?;
    let drawn = desk.draw();
    let dropped = desk.add(entry(alloc, 1, b"1234567")?);
    let (first, more) = next(alloc, &mut desk, 1, 2)?;
    let good = drawn == Ok(1) && dropped.is_none() && more == Ok(true);
    let good = good
        && first.as_slice()
            == [
                1, 0, 0, 0, 0, 0, 0, 2, 0, 0, 0, 2, 49, 0, 0, 0, 0, 0, 0, 2, 50, 0,
            ]
            .as_slice();
    let (_second, more) = next(alloc, &mut desk, 1, 3)?;
    let good = good && more == Ok(true) && left(alloc, &mut desk, 1)? == Ok(2);
    let (_third, more) = next(alloc, &mut desk, 1, 9)?;
    let good = good && more == Ok(false) && left(alloc, &mut desk, 1)? == Ok(0);
    let (none, more) = next(alloc, &mut desk, 1, 9)?;
    Ok(
        good && more == Ok(false)
            && none.as_slice() == [0, 0, 0, 0, 0, 0, 0, 0].as_slice()
            && desk.done() == 8,
    )
}

/// What is taken off is absent, and so is what has another number.
fn taken_off(alloc: Global) -> Result<bool, Memory> {
    let mut desk = DeskBook::new(alloc)?;
    let _drawn = desk.draw();
    let _dropped = desk.add(entry(alloc, 1, b"12")?);
    let good = left(alloc, &mut desk, 2)? == Err(DeskFault::Absent);
    let taken = desk.destroy(Text::from_slice(alloc, b"A")?, 1).is_ok();
    let again = desk.destroy(Text::from_slice(alloc, b"A")?, 1).is_ok();
    let (body, more) = next(alloc, &mut desk, 1, 9)?;
    Ok(good && taken && !again && body.is_empty() && more == Err(DeskFault::Absent))
}

/// 4,097 are added: the first is absent, the second has its ids.
fn drops_the_oldest(alloc: Global) -> Result<bool, Memory> {
    let mut desk = DeskBook::new(alloc)?;
    let mut good = true;
    for k in 0..4097u64 {
        let drawn = desk.draw();
        let dropped = desk.add(entry(alloc, k + 1, b"12")?);
        good = good && drawn == Ok(k + 1) && dropped.is_some() == (k == 4096);
    }
    Ok(
        good && left(alloc, &mut desk, 1)? == Err(DeskFault::Absent)
            && left(alloc, &mut desk, 2)? == Ok(2)
            && left(alloc, &mut desk, 4097)? == Ok(2),
    )
}

#[test]
fn batches(rt: HostRuntime) {
    assert!(rt; in_batches(rt.alloc()) == Ok(true));
}

#[test]
fn destroy(rt: HostRuntime) {
    assert!(rt; taken_off(rt.alloc()) == Ok(true));
}

#[test]
fn oldest(rt: HostRuntime) {
    assert!(rt; drops_the_oldest(rt.alloc()) == Ok(true));
}
