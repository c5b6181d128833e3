//! Whole calls, which leave a reader or a writer as it was where they fail.

ghost use Rattle.std.specs.Prelude.{◌≡◌};
ghost use Rattle.td_cdr.specs.Format.{Reads, Appends};
ghost use Rattle.td_cdr.specs.Faults.{Refuses};
ghost use Rattle.td_cdr.specs.ValueFaults.{is_memory};
ghost use Rattle.td_cdr.specs.Lawful.{Lawful};

use crate::memory::Memory;
use crate::reader::Reader;
use crate::spelled::Spelled;
use crate::value_fault::ValueFault;
use crate::writer::Writer;
use std::alloc::Global;

/// The next value.
///
/// # Errors
///
/// The first fault in reading order; the reader is then unchanged.
pub fn read_whole<T: Spelled + Drop>(alloc: Global, r: &mut Reader) -> Result<T, ValueFault>
    ensures { Reads is_memory T.format r.old r.new result }
{
    let mut next = r.copied();
    let value = T::read(alloc, &mut next)?;
    *r = next;
    Ok(value)
}

/// Appends the value.
///
/// # Errors
///
/// `Memory` when out of memory or of room; the writer is then unchanged.
pub fn write_whole<T: Spelled>(alloc: Global, w: &mut Writer, value: &T) -> Result<(), Memory>
    ensures { Appends (T.format.writes value.now) w.old w.new result }
{
    let held = w.len();
    match value.write(alloc, w) {
        Ok(()) => Ok(()),
        Err(memory) => {
            w.cut(held);
            Err(memory)
        }
    }
}

/// Nothing is done: what is read of a value of the type is spelled so, what is spelled so is read
/// whatever follows, and what is written spells the value.
pub fn obeys<T: Spelled>()
    ensures { Lawful T.format }
{}

/// Nothing is done: a value of the type is refused exactly where the bytes are at fault, with that fault.
pub fn refuses<T: Spelled>()
    ensures { Refuses T.faults T.format.reads }
{}
