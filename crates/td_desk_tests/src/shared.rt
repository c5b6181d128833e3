//! A desk that two holders share.

ghost use Rattle.td_cell.specs.Passes.{knowledge, Belongs, SameCell, SameNumbers};
ghost use Rattle.td_desk.specs.Sharing.{InOrder, MayAdd};

use crate::making::{begun, entry};
use std::alloc::Global;
use std::process::Abort;
use std::sync::Wait;
use td_cdr::{Memory, Order, Text};
use td_desk::{DeskFault, DeskPass, SharedDesk};

/// Puts an iterator of A over ids of one byte each on the desk, and answers its number.
fn put<R: Wait>(
    rt: &R,
    alloc: Global,
    desk: &SharedDesk,
    pass: &mut DeskPass,
    ids: &[u8],
) -> Result<u64, Memory>
    requires own { Belongs pass.old desk.now.cell }
    requires order { InOrder (knowledge pass.old) }
    ensures own { SameCell pass.new pass.old }
    ensures same { SameNumbers (knowledge pass.old) (knowledge pass.new) }
{
    match desk.draw(rt, pass) {
        Ok(number) => put_under(rt, alloc, desk, pass, number, ids),
        Err(_) => Err(Memory),
    }
}

/// The same, under a number that was drawn.
fn put_under<R: Wait>(
    rt: &R,
    alloc: Global,
    desk: &SharedDesk,
    pass: &mut DeskPass,
    number: u64,
    ids: &[u8],
) -> Result<u64, Memory>
    requires own { Belongs pass.old desk.now.cell }
    requires drawn { MayAdd (knowledge pass.old) number }
    ensures own { SameCell pass.new pass.old }
    ensures same { SameNumbers (knowledge pass.old) (knowledge pass.new) }
{
    let kept = entry(alloc, number, ids)?;
    let dropped = desk.add(rt, pass, kept);
    drop(dropped);
    Ok(number)
}

/// The ids of a reply that has ids of one byte each.
fn ids_in(alloc: Global, reply: &[u8]) -> Result<Vec<u8>, Memory> {
    let mut ids = Vec::new(alloc);
    for (place, byte) in reply.iter().enumerate() {
        if place >= 36 && place % 8 == 4 {
            ids.push(*byte)?;
        }
    }
    Ok(ids)
}

/// The ids of the next batch of A's iterator for so many, and whether more are left.
fn next<R: Wait>(
    rt: &R,
    alloc: Global,
    desk: &SharedDesk,
    pass: &mut DeskPass,
    number: u64,
    n: u32,
) -> Result<(Vec<u8>, Result<bool, DeskFault>), Memory>
    requires { Belongs pass.old desk.now.cell }
    ensures own { SameCell pass.new pass.old }
    ensures same { SameNumbers (knowledge pass.old) (knowledge pass.new) }
{
    let trader = Text::from_slice(alloc, b"A")?;
    let begun = begun(alloc, Order::Little)?;
    let (writer, more) = desk.next_n(rt, pass, trader, number, n, begun);
    let ids = ids_in(alloc, writer.bytes())?;
    Ok((ids, more))
}

/// How many are left of A's iterator of this number.
fn left<R: Wait>(
    rt: &R,
    alloc: Global,
    desk: &SharedDesk,
    pass: &mut DeskPass,
    number: u64,
) -> Result<Result<(u32, bool), DeskFault>, Memory>
    requires { Belongs pass.old desk.now.cell }
    ensures { SameCell pass.new pass.old }
{
    let trader = Text::from_slice(alloc, b"A")?;
    Ok(desk.max_left(rt, pass, trader, number))
}

/// Whether A's iterator of this number was there, and is taken off.
fn destroy<R: Wait>(
    rt: &R,
    alloc: Global,
    desk: &SharedDesk,
    pass: &mut DeskPass,
    number: u64,
) -> Result<bool, Memory>
    requires { Belongs pass.old desk.now.cell }
    ensures { SameCell pass.new pass.old }
{
    let trader = Text::from_slice(alloc, b"A")?;
    Ok(desk.destroy(rt, pass, trader, number).is_ok())
}

/// Seven ids, of which two were given: one holder keeps the rest, and the other asks for three; the first asks for
/// three, and the other destroys it.
fn in_turns<R: Wait>(
    rt: &R,
    alloc: Global,
    desk: &SharedDesk,
    first: &mut DeskPass,
    second: &mut DeskPass,
) -> Result<bool, Memory>
    requires own { Belongs first.old desk.now.cell × Belongs second.old desk.now.cell }
    requires order { InOrder (knowledge first.old) }
{
    let number = put(rt, alloc, desk, first, b"34567")?;
    let (ids, more) = next(rt, alloc, desk, second, number, 3)?;
    let good = number == 1 && more == Ok(true) && ids.as_slice() == b"345".as_slice();
    let (ids, more) = next(rt, alloc, desk, first, number, 3)?;
    let good = good && more == Ok(false) && ids.as_slice() == b"67".as_slice();
    let good = good && left(rt, alloc, desk, second, number)? == Ok((0, false));
    let good = good && destroy(rt, alloc, desk, second, number)?;
    Ok(good && left(rt, alloc, desk, first, number)? == Err(DeskFault::Absent))
}

/// Two holders.
fn both_in_turns<R: Wait>(rt: &R, alloc: Global) -> Result<bool, Memory> {
    let (desk, mut first) = SharedDesk::open(alloc)?;
    let mut second = desk.split(&mut first)?;
    in_turns(rt, alloc, &desk, &mut first, &mut second)
}

/// Puts five ids on the desk, and takes the first two.
fn take_two_of_five<R: Wait>(
    rt: &R,
    alloc: Global,
    desk: &SharedDesk,
    pass: &mut DeskPass,
) -> Result<bool, Memory>
    requires own { Belongs pass.old desk.now.cell }
    requires order { InOrder (knowledge pass.old) }
    ensures own { SameCell pass.new pass.old }
    ensures same { SameNumbers (knowledge pass.old) (knowledge pass.new) }
{
    let number = put(rt, alloc, desk, pass, b"12345")?;
    let (ids, more) = next(rt, alloc, desk, pass, number, 2)?;
    Ok(number == 1 && more == Ok(true) && ids.as_slice() == b"12".as_slice())
}

/// Takes the last three of the first iterator, and then that off the desk.
fn take_the_rest<R: Wait>(
    rt: &R,
    alloc: Global,
    desk: &SharedDesk,
    pass: &mut DeskPass,
) -> Result<bool, Memory>
    requires { Belongs pass.old desk.now.cell }
{
    let (ids, more) = next(rt, alloc, desk, pass, 1, 9)?;
    let good = more == Ok(false) && ids.as_slice() == b"345".as_slice();
    let good = good && destroy(rt, alloc, desk, pass, 1)?;
    let (ids, more) = next(rt, alloc, desk, pass, 1, 9)?;
    Ok(good && ids.is_empty() && more == Err(DeskFault::Absent))
}

/// The iterator of a holder that is gone.
fn of_one_that_is_gone<R: Wait>(rt: &R, alloc: Global) -> Result<bool, Memory> {
    let (desk, mut first) = SharedDesk::open(alloc)?;
    let mut second = desk.split(&mut first)?;
    let good = take_two_of_five(rt, alloc, &desk, &mut second)?;
    desk.meet(&mut first, second);
    Ok(good && take_the_rest(rt, alloc, &desk, &mut first)?)
}

#[test]
fn two_holders_are_given_the_rest_of_an_answer(rt: HostRuntime) {
    assert!(rt; both_in_turns(&rt, rt.alloc()) == Ok(true));
}

#[test]
fn an_iterator_outlives_its_holder(rt: HostRuntime) {
    assert!(rt; of_one_that_is_gone(&rt, rt.alloc()) == Ok(true));
}
