//! TypeCodes as they stand in a body or as the type of an any, from bytes and to bytes.

ghost use Rattle.std.specs.Prelude.{◌≡◌, Err};
ghost use Rattle.td_cdr.specs.Format.{Gives, Appends, Puts};
ghost use Rattle.td_cdr.specs.ValueFaults.{is_memory};
ghost use Rattle.td_typecode.specs.declared.mode.Mode.TheVariants.{Outer};
ghost use Rattle.td_typecode.specs.GraphCodes.{edges};
ghost use Rattle.td_typecode.specs.Outermost.{outer, plain_or, linked_read, outer_piece, graph_piece};
ghost use Rattle.td_indirection.specs.States.{empty};

use crate::code::TypeCode;
use crate::graph_nodes::whole_of;
use crate::graph_reader::GraphReader;
use crate::graph_reading::{Standing, edge_at};
use crate::graph_writing::{Inside, write_edge};
use crate::mode::Mode;
use crate::reading::code_at;
use crate::writing::write_typecode;
use std::alloc::Global;
use tc_graph::Whole;
use td_cdr::{Boxed, List, Memory, Reader, ValueFault, Writer};

/// An outermost TypeCode that may hold so many levels: without indirections, or as a graph where
/// there are some.
///
/// # Errors
///
/// The first fault in reading order, or `Memory` when out of memory; it isn't said where the reader
/// then stands.
pub fn outer_at(alloc: Global, r: &mut Reader, levels: u32) -> Result<TypeCode, ValueFault>
    ensures { Gives is_memory r.new result ((outer levels).format.reads r.old) }
{
    let mut again = r.copied();
    match code_at(alloc, r, levels, Mode::Outer) {
        Ok(code) => Ok(code),
        Err(fault) => {
            let code = linked_behind(alloc, &mut again, levels, fault)?;
            *r = again;
            Ok(code)
        }
    }
}

/// An outermost TypeCode, in a block of its own.
///
/// # Errors
///
/// As [`outer_at`].
pub fn boxed_outer_at(
    alloc: Global,
    r: &mut Reader,
    levels: u32,
) -> Result<Boxed<TypeCode>, ValueFault>
    ensures { Gives is_memory r.new result ((outer levels).format.reads r.old) }
{
    let code = outer_at(alloc, r, levels)?;
    Ok(Boxed::new(alloc, code)?)
}

/// What is read once more as a graph, where the fault is an indirection; else the fault.
fn linked_behind(
    alloc: Global,
    r: &mut Reader,
    levels: u32,
    fault: ValueFault,
) -> Result<TypeCode, ValueFault>
    ensures { Gives is_memory r.new result
        (plain_or (Err fault) ((edges levels Outer None).format.reads empty r.old)) }
{
    match fault {
        ValueFault::Indirection(_place) => linked_at(alloc, r, levels),
        _ => Err(fault),
    }
}

/// A TypeCode as a graph, whether or not there are indirections.
fn linked_at(alloc: Global, r: &mut Reader, levels: u32) -> Result<TypeCode, ValueFault>
    ensures { Gives is_memory r.new result
        (linked_read ((edges levels Outer None).format.reads empty r.old)) }
{
    let mut g = GraphReader::new(alloc, r.copied(), r.origin());
    let at = Standing {
        mode: Mode::Outer,
        chain: None,
    };
    let _root = edge_at(alloc, &mut g, levels, at)?;
    *r = g.reader();
    match whole_of(alloc, g.begun()) {
        Ok(graph) => Ok(TypeCode::Linked(graph)),
        Err(_fault) => Err(ValueFault::Memory),
    }
}

/// Appends an outermost TypeCode that may hold so many levels.
///
/// # Errors
///
/// `Memory` when out of memory or of room, and for a graph with numbers that none has that was
/// read; the writer is then unchanged.
pub fn write_outer(
    alloc: Global,
    w: &mut Writer,
    levels: u32,
    code: &TypeCode,
) -> Result<(), Memory>
    ensures { Appends (outer_piece levels code.now) w.old w.new result }
{
    match code {
        TypeCode::Linked(graph) => write_graph(alloc, w, levels, graph),
        _ => write_typecode(alloc, w, code),
    }
}

/// A graph, or nothing.
fn write_graph(alloc: Global, w: &mut Writer, levels: u32, graph: &Whole) -> Result<(), Memory>
    ensures { Appends (graph_piece levels graph.now) w.old w.new result }
{
    let held = w.len();
    match put_graph(alloc, w, levels, graph) {
        Ok(()) => Ok(()),
        Err(memory) => {
            w.cut(held);
            Err(memory)
        }
    }
}

/// A graph, its nodes in their order. Where it fails, some of it may be written.
fn put_graph(alloc: Global, w: &mut Writer, levels: u32, graph: &Whole) -> Result<(), Memory>
    ensures { Puts (graph_piece levels graph.now) w.old w.new result }
{
    let mut places = List::new(alloc);
    let at = Inside {
        alloc,
        base: 0,
        levels,
    };
    write_edge(w, &mut places, graph, at, 0)
}
