//! Values that are spelled by a format.

ghost use Rattle.std.specs.Prelude.{◌≡◌};
ghost use Rattle.td_cdr.specs.Format.{Format, Gives, Puts, number, with_fault, text, boolean, octets, ◌&◌};
ghost use Rattle.td_cdr.specs.Lawful.{Lawful};
ghost use Rattle.td_cdr.specs.LawfulFormats.{number-lawful, text-lawful, boolean-lawful, octets-lawful};
ghost use Rattle.td_cdr.specs.LawfulFormats.{with_fault-lawful, ◌&&&◌};
ghost use Rattle.td_cdr.specs.Faults.{NumberFault, BooleanFault, OctetsFault, StringFault, OuterFault, ThenFault};
ghost use Rattle.td_cdr.specs.Faults.{Refuses};
ghost use Rattle.td_cdr.specs.FormatFaults.{Faults};
ghost use Rattle.td_cdr.specs.Refused.{number-refuses, boolean-refuses, octets-refuses, string-refuses};
ghost use Rattle.td_cdr.specs.RefusedFormats.{with_fault-refuses, dependent_pair-refuses};
ghost use Rattle.td_cdr.specs.declared.value_fault.ValueFault.{ValueFault};
ghost use Rattle.td_cdr.specs.declared.value_fault.ValueFault.TheVariants.{Cdr};
ghost use Rattle.td_cdr.specs.ValueFaults.{is_memory};

use crate::boxed::Boxed;
use crate::list::Octets;
use crate::memory::Memory;
use crate::reader::Reader;
use crate::text::Text;
use crate::value_fault::ValueFault;
use crate::writer::Writer;
use std::alloc::Global;

/// A value that is read and written by a format.
pub trait Spelled: Sized {
    ghost format: { Format ValueFault Self };

    /// Where the bytes are no value, and which fault that is.
    ghost faults: { Faults ValueFault };

    /// The next value. Where it is refused, the reader may have moved.
    fn read(alloc: Global, r: &mut Reader) -> Result<Self, ValueFault>
        ensures { Gives is_memory r.new result (format.reads r.old) };

    /// Appends the value. Where it fails, some of it may be written.
    fn write(&self, alloc: Global, w: &mut Writer) -> Result<(), Memory>
        ensures { Puts (format.writes self.now) w.old w.new result };

    /// What is read is spelled so, what is spelled so is read, and what is written spells the value.
    ghost lawful: { Lawful format };

    /// It is refused exactly where the bytes are at fault, with that fault.
    ghost refuses: { Refuses faults format.reads };
}

impl Spelled for u32 {
    ghost format = { with_fault Cdr (number 4) };

    ghost faults = { OuterFault Cdr (NumberFault 4) };

    fn read(_alloc: Global, r: &mut Reader) -> Result<u32, ValueFault> {
        Ok(r.u32()?)
    }

    fn write(&self, _alloc: Global, w: &mut Writer) -> Result<(), Memory> {
        w.u32(*self)
    }

    ghost lawful = { with_fault-lawful Cdr (number 4) (number-lawful 4) };

    ghost refuses = { with_fault-refuses Cdr (number 4) (NumberFault 4) (number-refuses 4) };
}

impl Spelled for Text {
    ghost format = { with_fault Cdr text };

    ghost faults = { OuterFault Cdr StringFault };

    fn read(alloc: Global, r: &mut Reader) -> Result<Text, ValueFault> {
        Ok(Text::from_slice(alloc, r.string()?)?)
    }

    fn write(&self, _alloc: Global, w: &mut Writer) -> Result<(), Memory> {
        w.string(self.as_slice())
    }

    ghost lawful = { with_fault-lawful Cdr text text-lawful };

    ghost refuses = { with_fault-refuses Cdr text StringFault string-refuses };
}

impl Spelled for bool {
    ghost format = { with_fault Cdr boolean };

    ghost faults = { OuterFault Cdr BooleanFault };

    fn read(_alloc: Global, r: &mut Reader) -> Result<bool, ValueFault> {
        Ok(r.boolean()?)
    }

    fn write(&self, _alloc: Global, w: &mut Writer) -> Result<(), Memory> {
        w.octet(u8::from(*self))
    }

    ghost lawful = { with_fault-lawful Cdr boolean boolean-lawful };

    ghost refuses = { with_fault-refuses Cdr boolean BooleanFault boolean-refuses };
}

impl<T: Spelled + Drop> Spelled for Boxed<T> {
    ghost format = { T.format };

    ghost faults = { T.faults };

    fn read(alloc: Global, r: &mut Reader) -> Result<Boxed<T>, ValueFault> {
        let value = T::read(alloc, r)?;
        Ok(Boxed::new(alloc, value)?)
    }

    fn write(&self, alloc: Global, w: &mut Writer) -> Result<(), Memory> {
        self.get().write(alloc, w)
    }

    ghost lawful = { T.lawful };

    ghost refuses = { T.refuses };
}

impl<A: Spelled + Drop, B: Spelled + Drop> Spelled for (A, B) {
    ghost format = { A.format & B.format };

    ghost faults = { ThenFault A.format.spells A.faults (λ _. B.faults) };

    fn read(alloc: Global, r: &mut Reader) -> Result<(A, B), ValueFault> {
        let first = A::read(alloc, r)?;
        let second = B::read(alloc, r)?;
        Ok((first, second))
    }

    fn write(&self, alloc: Global, w: &mut Writer) -> Result<(), Memory> {
        self.0.write(alloc, w)?;
        self.1.write(alloc, w)
    }

    ghost lawful = { A.lawful &&& B.lawful };

    ghost refuses = { dependent_pair-refuses A.format (λ _. B.format) A.faults (λ _. B.faults)
        A.lawful A.refuses (λ _. B.refuses) };
}

// Octets are read in one step, and their number is judged before them. So an octet alone has no impl: a
// sequence of octets would then have two, this one and that of lists, which judges item by item.
impl Spelled for Octets {
    ghost format = { with_fault Cdr octets };

    ghost faults = { OuterFault Cdr OctetsFault };

    fn read(alloc: Global, r: &mut Reader) -> Result<Octets, ValueFault> {
        Ok(Octets::from_slice(alloc, r.octets()?)?)
    }

    fn write(&self, _alloc: Global, w: &mut Writer) -> Result<(), Memory> {
        w.octets(self.as_slice())
    }

    ghost lawful = { with_fault-lawful Cdr octets octets-lawful };

    ghost refuses = { with_fault-refuses Cdr octets OctetsFault octets-refuses };
}
