//! TypeCodes and anys as values of a format.

ghost use Rattle.std.specs.Prelude.{◌≡◌};
ghost use Rattle.td_cdr.specs.Format.{Reads, Appends};
ghost use Rattle.td_cdr.specs.ValueFaults.{is_memory};
ghost use Rattle.td_typecode.specs.Outermost.{type_code};
ghost use Rattle.td_typecode.specs.Values.{any_value};

use crate::code::{Any, TypeCode};
use crate::outermost::{outer_at, write_outer};
use crate::reading::LEVELS;
use crate::values::any_at;
use crate::writing_values::put_any;
use std::alloc::Global;
use td_cdr::{Memory, Reader, Spelled, ValueFault, Writer, read_whole, write_whole};

impl Spelled for TypeCode {
    ghost format = { type_code.format };

    ghost faults = { type_code.faults };

    #[tactic(auto, unfolding(crate::specs::Outermost::type_code))]
    fn read(alloc: Global, r: &mut Reader) -> Result<TypeCode, ValueFault> {
        outer_at(alloc, r, LEVELS)
    }

    #[tactic(auto, unfolding(crate::specs::Outermost::type_code))]
    fn write(&self, alloc: Global, w: &mut Writer) -> Result<(), Memory> {
        write_outer(alloc, w, LEVELS, self)
    }

    ghost lawful = { type_code.lawful };

    ghost refuses = { type_code.refuses };
}

/// The next TypeCode.
///
/// # Errors
///
/// The first fault in reading order; the reader is then unchanged. `Unsupported` tells the kind,
/// each other fault the place.
pub fn read_typecode(alloc: Global, r: &mut Reader) -> Result<TypeCode, ValueFault>
    ensures { Reads is_memory type_code.format r.old r.new result }
{
    read_whole::<TypeCode>(alloc, r)
}

/// Appends the TypeCode, in the writer's order and with padding 0. A graph is written in the order
/// of its nodes: an edge to the next one spells it, any other is an indirection.
///
/// # Errors
///
/// `Memory` when out of memory or of room, and for a graph with numbers that none has that was read;
/// the writer is then unchanged.
pub fn write_typecode(alloc: Global, w: &mut Writer, code: &TypeCode) -> Result<(), Memory>
    ensures { Appends (type_code.format.writes code.now) w.old w.new result }
{
    write_whole(alloc, w, code)
}

impl Spelled for Any {
    ghost format = { any_value.format };

    ghost faults = { any_value.faults };

    fn read(alloc: Global, r: &mut Reader) -> Result<Any, ValueFault> {
        any_at(alloc, r, LEVELS)
    }

    fn write(&self, alloc: Global, w: &mut Writer) -> Result<(), Memory> {
        put_any(alloc, w, LEVELS, self)
    }

    ghost lawful = { any_value.lawful };

    ghost refuses = { any_value.refuses };
}

/// The next any: its TypeCode and a value under it.
///
/// # Errors
///
/// The first fault in reading order; the reader is then unchanged. `Unsupported` tells the kind,
/// each other fault the place.
pub fn read_any(alloc: Global, r: &mut Reader) -> Result<Any, ValueFault>
    ensures { Reads is_memory any_value.format r.old r.new result }
{
    read_whole::<Any>(alloc, r)
}

/// Appends the any: its TypeCode and its value.
///
/// # Errors
///
/// `Memory` when out of memory or of room; the writer is then unchanged.
pub fn write_any(alloc: Global, w: &mut Writer, any: &Any) -> Result<(), Memory>
    ensures { Appends (any_value.format.writes any.now) w.old w.new result }
{
    write_whole(alloc, w, any)
}
