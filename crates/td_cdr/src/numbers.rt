//! Numbers, each in as many bytes as its type has.

ghost use Rattle.std.specs.Prelude.{◌≡◌};
ghost use Rattle.std.specs.Int.{w16, w32, w64};
ghost use Rattle.td_cdr.specs.Format.{number, signed, with_fault};
ghost use Rattle.td_cdr.specs.LawfulFormats.{number-lawful, signed-lawful, with_fault-lawful};
ghost use Rattle.td_cdr.specs.Faults.{NumberFault, OuterFault};
ghost use Rattle.td_cdr.specs.Refused.{number-refuses, signed-refuses};
ghost use Rattle.td_cdr.specs.RefusedFormats.{with_fault-refuses};
ghost use Rattle.std.proofs.Common.{refl};
ghost use Rattle.td_cdr.specs.declared.value_fault.ValueFault.TheVariants.{Cdr};

use crate::memory::Memory;
use crate::reader::Reader;
use crate::spelled::Spelled;
use crate::value_fault::ValueFault;
use crate::writer::Writer;
use std::alloc::Global;

impl Spelled for u16 {
    ghost format = { with_fault Cdr (number 2) };

    ghost faults = { OuterFault Cdr (NumberFault 2) };

    fn read(_alloc: Global, r: &mut Reader) -> Result<u16, ValueFault> {
        Ok(r.u16()?)
    }

    fn write(&self, _alloc: Global, w: &mut Writer) -> Result<(), Memory> {
        w.u16(*self)
    }

    ghost lawful = { with_fault-lawful Cdr (number 2) (number-lawful 2) };

    ghost refuses = { with_fault-refuses Cdr (number 2) (NumberFault 2) (number-refuses 2) };
}

impl Spelled for u64 {
    ghost format = { with_fault Cdr (number 8) };

    ghost faults = { OuterFault Cdr (NumberFault 8) };

    fn read(_alloc: Global, r: &mut Reader) -> Result<u64, ValueFault> {
        Ok(r.u64()?)
    }

    fn write(&self, _alloc: Global, w: &mut Writer) -> Result<(), Memory> {
        w.u64(*self)
    }

    ghost lawful = { with_fault-lawful Cdr (number 8) (number-lawful 8) };

    ghost refuses = { with_fault-refuses Cdr (number 8) (NumberFault 8) (number-refuses 8) };
}

impl Spelled for i16 {
    ghost format = { with_fault Cdr (signed w16 2) };

    ghost faults = { OuterFault Cdr (NumberFault 2) };

    fn read(_alloc: Global, r: &mut Reader) -> Result<i16, ValueFault> {
        Ok(r.i16()?)
    }

    fn write(&self, _alloc: Global, w: &mut Writer) -> Result<(), Memory> {
        w.u16(self.cast_unsigned())
    }

    ghost lawful = { with_fault-lawful Cdr (signed w16 2) (signed-lawful w16 2 refl) };

    ghost refuses = { with_fault-refuses Cdr (signed w16 2) (NumberFault 2)
        (signed-refuses w16 2) };
}

impl Spelled for i32 {
    ghost format = { with_fault Cdr (signed w32 4) };

    ghost faults = { OuterFault Cdr (NumberFault 4) };

    fn read(_alloc: Global, r: &mut Reader) -> Result<i32, ValueFault> {
        Ok(r.i32()?)
    }

    fn write(&self, _alloc: Global, w: &mut Writer) -> Result<(), Memory> {
        w.u32(self.cast_unsigned())
    }

    ghost lawful = { with_fault-lawful Cdr (signed w32 4) (signed-lawful w32 4 refl) };

    ghost refuses = { with_fault-refuses Cdr (signed w32 4) (NumberFault 4)
        (signed-refuses w32 4) };
}

impl Spelled for i64 {
    ghost format = { with_fault Cdr (signed w64 8) };

    ghost faults = { OuterFault Cdr (NumberFault 8) };

    fn read(_alloc: Global, r: &mut Reader) -> Result<i64, ValueFault> {
        Ok(r.i64()?)
    }

    fn write(&self, _alloc: Global, w: &mut Writer) -> Result<(), Memory> {
        w.u64(self.cast_unsigned())
    }

    ghost lawful = { with_fault-lawful Cdr (signed w64 8) (signed-lawful w64 8 refl) };

    ghost refuses = { with_fault-refuses Cdr (signed w64 8) (NumberFault 8)
        (signed-refuses w64 8) };
}
