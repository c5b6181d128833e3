//! One book, and passes that act on it.

ghost use Rattle.std.specs.Prelude.{◌≡◌, IfOk, IfErr};
ghost use Rattle.td_cell.specs.Passes.{knowledge, Belongs, SameCell, SameNumbers, IsOpening};

use crate::cell::tally::Tally;
use std::alloc::Global;
use std::process::Abort;
use std::sync::Wait;
use std::test::Fail;
use std::thread;
use td_cdr::Memory;
use td_cell::{Cell, Pass};

fn tally() -> Tally {
    Tally { sum: 0, count: 0 }
}

/// Adds the multiples of a number from 1 to so many.
fn add_multiples<R: Wait>(
    rt: &R,
    cell: &Cell<Tally>,
    mut pass: Pass<Tally>,
    unit: u32,
    times: u32,
) -> Pass<Tally>
    requires { Belongs pass cell.now }
    ensures own { SameCell result pass }
    ensures same { SameNumbers (knowledge pass) (knowledge result) }
{
    for k in 0..times {
        let _ = cell.turn(rt, &mut pass, u64::from(unit) * (u64::from(k) + 1));
    }
    pass
}

/// The sum and the count with which a cell is closed, and nothing where it is refused.
fn closed(cell: Cell<Tally>, pass: Pass<Tally>) -> Option<(u64, u64)>
    requires own { Belongs pass cell }
    requires opening { IsOpening pass }
{
    match cell.close(pass) {
        Ok(book) => Some((book.sum, book.count)),
        Err(refused) => {
            drop(refused);
            None
        }
    }
}

/// One turn of each of two passes, which meet in the order in which they were split off or in the other one.
fn two_turns<R: Wait>(rt: &R, alloc: Global, in_order: bool) -> Result<Option<(u64, u64)>, Memory> {
    let (cell, mut opening) = Cell::open(alloc, tally())?;
    let first = cell.split(&mut opening)?;
    let second = cell.split(&mut opening)?;
    let first = add_multiples(rt, &cell, first, 5, 1);
    let second = add_multiples(rt, &cell, second, 70, 1);
    if in_order {
        cell.meet(&mut opening, first);
        cell.meet(&mut opening, second);
    } else {
        cell.meet(&mut opening, second);
        cell.meet(&mut opening, first);
    }
    Ok(closed(cell, opening))
}

#[test]
fn what_was_split_off_meets_in_any_order(rt: HostRuntime) -> Result<(), Fail> {
    assert_eq!(rt; two_turns(&rt, rt.alloc(), true)?, Some((75, 2)));
    assert_eq!(rt; two_turns(&rt, rt.alloc(), false)?, Some((75, 2)));
    Ok(())
}

/// Closes a cell while a pass is out, and again once it was met.
fn close_early<R: Wait>(rt: &R, alloc: Global) -> Result<(bool, Option<(u64, u64)>), Memory> {
    let (cell, mut opening) = Cell::open(alloc, tally())?;
    let out = cell.split(&mut opening)?;
    let out = add_multiples(rt, &cell, out, 5, 1);
    let whole = cell.whole(&opening);
    match cell.close(opening) {
        Ok(book) => {
            drop(book);
            Ok((whole, None))
        }
        Err((cell, mut opening)) => {
            cell.meet(&mut opening, out);
            Ok((whole, closed(cell, opening)))
        }
    }
}

#[test]
fn a_cell_is_closed_only_once_all_have_met(rt: HostRuntime) -> Result<(), Fail> {
    assert_eq!(rt; close_early(&rt, rt.alloc())?, (false, Some((5, 1))));
    Ok(())
}

#[test]
fn each_act_of_two_threads_is_in_the_book_once(rt: HostRuntime) -> Result<(), Fail> {
    let (cell, mut opening) = Cell::open(rt.alloc(), tally())?;
    let first = cell.split(&mut opening)?;
    let second = cell.split(&mut opening)?;
    let (first, second) = thread::join(
        &rt,
        || -> Pass<Tally>
            requires { Belongs first cell }
            ensures own { SameCell result first }
            ensures same { SameNumbers (knowledge first) (knowledge result) }
        { add_multiples(&rt, &cell, first, 1, 1000) },
        || -> Pass<Tally>
            requires { Belongs second cell }
            ensures own { SameCell result second }
            ensures same { SameNumbers (knowledge second) (knowledge result) }
        { add_multiples(&rt, &cell, second, 1_000_000, 1000) },
    );
    cell.meet(&mut opening, first);
    cell.meet(&mut opening, second);
    assert_eq!(rt; closed(cell, opening), Some((500_500 * 1_000_001, 2000)));
    Ok(())
}
