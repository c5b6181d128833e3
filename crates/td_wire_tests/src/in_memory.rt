//! A wire in memory: what each connection gives, what was written over each, which ended, and calls that fail.

use crate::support::goes_along;
use std::alloc::Global;
use std::test::Fail;
use td_cdr::{List, Octets};
use td_out::Failed;
use td_wire::{MemWire, Wire};

/// Whether a read into room for four bytes answers so, and leaves these bytes there.
fn reads<L: Wire>(wire: &mut L, answer: Result<usize, Failed>, bytes: [u8; 4]) -> bool {
    let mut room = [0; 4];
    wire.read(&mut room) == answer && room == bytes
}

/// Two answers, the first of five bytes and the second of two; these calls fail.
fn two_answers(alloc: Global, failing: &[u64]) -> Result<MemWire, Fail> {
    let mut answers = List::new(alloc);
    answers.push(Octets::from_slice(alloc, &[1, 2, 3, 4, 5])?)?;
    answers.push(Octets::from_slice(alloc, &[6, 7])?)?;
    Ok(MemWire::new(alloc, answers, List::from_slice(alloc, failing)?))
}

/// Whether the first connection gives the first answer, and the second the other.
fn gives_answers_in_order<L: Wire>(wire: &mut L) -> bool {
    wire.connect(b"one", 1) == Ok(())
        && reads(wire, Ok(4), [1, 2, 3, 4])
        && reads(wire, Ok(1), [5, 0, 0, 0])
        && reads(wire, Ok(0), [0, 0, 0, 0])
        && wire.connect(b"two", 2) == Ok(())
        && reads(wire, Ok(2), [6, 7, 0, 0])
        && reads(wire, Ok(0), [0, 0, 0, 0])
}

/// Whether a connection past the end of the answers is made and gives nothing.
fn gives_nothing_past_the_end<L: Wire>(wire: &mut L) -> bool {
    wire.connect(b"three", 3) == Ok(()) && reads(wire, Ok(0), [0, 0, 0, 0])
}

#[test]
fn each_connection_gives_its_answer(rt: HostRuntime) -> Result<(), Fail> {
    let mut wire = two_answers(rt.alloc(), &[])?;
    goes_along(&wire);
    let mut good = gives_answers_in_order(&mut wire);
    good &= gives_nothing_past_the_end(&mut wire);
    assert!(rt; good);
    Ok(())
}

/// Writes over two connections, and asks what the first gives in between.
fn writes_over_two<L: Wire>(wire: &mut L) -> bool {
    wire.connect(b"one", 1) == Ok(())
        && wire.write(&[9, 8]) == Ok(2)
        && reads(wire, Ok(4), [1, 2, 3, 4])
        && wire.write(&[]) == Ok(0)
        && wire.write(&[7]) == Ok(1)
        && wire.connect(b"two", 2) == Ok(())
        && wire.write(&[6]) == Ok(1)
}

/// Whether these bytes were written over the connection of that number.
fn has_written(wire: &MemWire, connection: usize, bytes: &[u8]) -> bool {
    match wire.written(connection) {
        Some(written) => written == bytes,
        None => false,
    }
}

#[test]
fn what_is_written_is_kept_for_each_connection(rt: HostRuntime) -> Result<(), Fail> {
    let mut wire = two_answers(rt.alloc(), &[])?;
    let mut good = wire.written(0).is_none();
    good &= writes_over_two(&mut wire);
    good &= has_written(&wire, 0, &[9, 8, 7]) && has_written(&wire, 1, &[6]);
    good &= wire.written(2).is_none();
    assert!(rt; good);
    Ok(())
}

/// Whether the second, fourth and fifth call fail, and change nothing.
fn fails_where_set<L: Wire>(wire: &mut L) -> bool {
    wire.connect(b"one", 1) == Ok(())
        && reads(wire, Err(Failed), [0, 0, 0, 0])
        && reads(wire, Ok(4), [1, 2, 3, 4])
        && wire.write(&[9]) == Err(Failed)
        && wire.connect(b"two", 2) == Err(Failed)
        && reads(wire, Ok(1), [5, 0, 0, 0])
        && wire.write(&[8]) == Ok(1)
}

#[test]
fn calls_fail_where_they_are_set_to(rt: HostRuntime) -> Result<(), Fail> {
    let mut wire = two_answers(rt.alloc(), &[2, 4, 5])?;
    let mut good = fails_where_set(&mut wire);
    good &= has_written(&wire, 0, &[8]) && wire.written(1).is_none();
    assert!(rt; good);
    Ok(())
}

#[test]
fn nothing_is_read_or_written_without_a_connection(rt: HostRuntime) -> Result<(), Fail> {
    let mut wire = two_answers(rt.alloc(), &[])?;
    let mut good = reads(&mut wire, Err(Failed), [0, 0, 0, 0]);
    good &= wire.write(&[1]) == Err(Failed);
    good &= gives_answers_in_order(&mut &mut wire);
    assert!(rt; good);
    Ok(())
}

/// Whether a connection that was finished, whole or not, gives and takes no more, and the next one gives its answer.
fn ends_each<L: Wire>(wire: &mut L) -> bool {
    let mut good = wire.connect(b"one", 1) == Ok(()) && wire.write(&[9]) == Ok(1);
    good &= reads(wire, Ok(4), [1, 2, 3, 4]);
    wire.finish(true);
    good &= reads(wire, Err(Failed), [0, 0, 0, 0]) && wire.write(&[8]) == Err(Failed);
    good &= wire.connect(b"two", 2) == Ok(()) && wire.write(&[7, 6]) == Ok(2);
    good &= reads(wire, Ok(2), [6, 7, 0, 0]);
    wire.finish(false);
    good && reads(wire, Err(Failed), [0, 0, 0, 0]) && wire.write(&[5]) == Err(Failed)
}

#[test]
fn a_finished_connection_is_a_past_one(rt: HostRuntime) -> Result<(), Fail> {
    let mut wire = two_answers(rt.alloc(), &[])?;
    let mut good = ends_each(&mut &mut wire);
    good &= has_written(&wire, 0, &[9]) && has_written(&wire, 1, &[7, 6]);
    good &= wire.written(2).is_none();
    assert!(rt; good);
    Ok(())
}

/// Finishes where no connection stands, before a connection and behind one, and makes four other calls, which alone are
/// counted.
fn finishes_nothing<L: Wire>(wire: &mut L) -> bool {
    wire.finish(true);
    let mut good = wire.connect(b"one", 1) == Ok(()) && wire.write(&[9]) == Ok(1);
    wire.finish(false);
    wire.finish(true);
    good &= wire.connect(b"two", 2) == Ok(()) && wire.write(&[8]) == Ok(1);
    good
}

#[test]
fn where_none_stands_finish_does_nothing(rt: HostRuntime) -> Result<(), Fail> {
    let mut wire = two_answers(rt.alloc(), &[5])?;
    let mut good = finishes_nothing(&mut wire);
    good &= has_written(&wire, 0, &[9]) && has_written(&wire, 1, &[8]);
    good &= wire.written(2).is_none() && wire.write(&[7]) == Err(Failed);
    assert!(rt; good);
    Ok(())
}
