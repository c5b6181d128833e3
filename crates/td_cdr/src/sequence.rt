//! Sequences.

ghost use Rattle.std.specs.Prelude.{◌≡◌, length, map};
ghost use Rattle.td_cdr.specs.Format.{Gives, Puts, number, sequence_format, array_format, row};
ghost use Rattle.td_cdr.specs.ValueFaults.{is_memory};
ghost use Rattle.td_cdr.specs.LawfulFormats.{sequence_format-lawful};
ghost use Rattle.td_cdr.specs.FormatFaults.{SequenceFault};
ghost use Rattle.td_cdr.specs.RefusedFormats.{sequence_format-refuses};
ghost use Rattle.td_cdr.specs.declared.value_fault.ValueFault.TheVariants.{Cdr};

use crate::list::List;
use crate::memory::Memory;
use crate::reader::Reader;
use crate::spelled::Spelled;
use crate::value_fault::ValueFault;
use crate::writer::Writer;
use std::alloc::Global;

impl<T: Spelled + Drop> Spelled for List<T> {
    ghost format = { sequence_format Cdr T.format };

    ghost faults = { SequenceFault Cdr T.format T.faults };

    fn read(alloc: Global, r: &mut Reader) -> Result<List<T>, ValueFault> {
        let count = r.u32()?;
        items_of(alloc, r, count)
    }

    fn write(&self, alloc: Global, w: &mut Writer) -> Result<(), Memory> {
        put_list(alloc, w, self.as_slice())
    }

    ghost lawful = { sequence_format-lawful Cdr T.format T.lawful };

    ghost refuses = { sequence_format-refuses Cdr T.format T.faults T.lawful T.refuses };
}

/// For how many items there is room before the first is read, since the count on the wire is not to be trusted.
const FIRST_ROOM: u32 = 4;

fn items_of<T: Spelled + Drop>(
    alloc: Global,
    r: &mut Reader,
    count: u32,
) -> Result<List<T>, ValueFault>
    ensures { Gives is_memory r.new result ((array_format T.format count).reads r.old) }
{
    let mut items = List::with_room(alloc, count.min(FIRST_ROOM) as usize)?;
    for _ in 0..count {
        let item = T::read(alloc, r)?;
        items.push(item)?;
    }
    Ok(items)
}

fn put_list<T: Spelled>(alloc: Global, w: &mut Writer, items: &[T]) -> Result<(), Memory>
    ensures { Puts ((sequence_format Cdr T.format).writes items.now) w.old w.new result }
{
    put_count(w, items.len())?;
    put_each(alloc, w, items)
}

fn put_each<T: Spelled>(alloc: Global, w: &mut Writer, items: &[T]) -> Result<(), Memory>
    ensures { Puts (row (map T.format.writes items.now)) w.old w.new result }
{
    for item in items {
        item.write(alloc, w)?;
    }
    Ok(())
}

/// A number of items.
fn put_count(w: &mut Writer, count: usize) -> Result<(), Memory>
    ensures { Puts ((number 4).writes count) w.old w.new result }
{
    if count > u32::MAX as usize {
        return Err(Memory);
    }
    w.u32(count as u32)
}
