//! Values under a TypeCode, and anys, to bytes. Where a call fails, some bytes may be written. A value that is
//! not of the TypeCode is written as nothing, or as the number that spells another plain value.

ghost use Rattle.std.specs.Prelude.{◌≡◌, ◌+◌, ◌^◌, ◌≤◌, ◌<◌, length, map, IfSome};
ghost use Rattle.std.specs.Prelude.{option_copied};
ghost use Rattle.td_cdr.specs.Format.{Puts, none_or, row, upwards};
ghost use Rattle.td_cdr.specs.Sound.{text};
ghost use Rattle.td_typecode.specs.declared.code.Value.{out-Value};
ghost use Rattle.td_typecode.specs.declared.kinds.CodeKind.TheVariants as kind;
ghost use Rattle.tc_graph.specs.Nodes.{node_at};
ghost use Rattle.td_typecode.specs.Outermost.{outer, outer_piece};
ghost use Rattle.td_typecode.specs.References.{reference};
ghost use Rattle.td_typecode.specs.Values.{anys, code_values, each, text_in, any_in, code_in, reference_in, items_in};
ghost use Rattle.td_typecode.specs.Values.{graph_values, node_values, edge_values, node_each, node_kind};
ghost use Rattle.td_typecode.specs.Values.{node_branch_piece};
ghost use Rattle.td_typecode.specs.Values.{struct_value, items_piece, sequence_piece, branch_piece, union_piece};

use crate::code::{Any, Arm, Member, TypeCode, Value};
use crate::kinds::{CodeKind, kind_of_number};
use crate::label::label_of;
use crate::node_leaves::put_leaf;
use crate::nodes::{arm_of, has_item, is_union, spelled_graph};
use crate::outermost::write_outer;
use crate::reading::LEVELS;
use crate::values::{branch_of, index_of};
use crate::writing::{write_count, write_label};
use std::alloc::Global;
use tc_edges::{Edge, SpelledGraph};
use tc_graph::Whole;
use td_cdr::{Boxed, Memory, Spelled, Writer};

/// An any of at most so many levels.
///
/// # Errors
///
/// `Memory` when out of memory or of room; what was written of the any then stands behind the rest.
#[cycle(putting)]
pub fn put_any(alloc: Global, w: &mut Writer, levels: u32, any: &Any) -> Result<(), Memory>
    requires few { levels ≤ 16 }
    ensures { Puts ((anys levels).format.writes any.now) w.old w.new result }
{
    write_outer(alloc, w, levels, &any.code)?;
    if levels == 0 {
        return Ok(());
    }
    put_value(alloc, w, levels - 1, levels, &any.code, &any.value)
}

/// A value under a TypeCode of at most `depth` levels, in which an any may have `levels` more.
#[cycle(putting)]
#[tactic(auto, unfolding(crate::specs::Values::values))]
fn put_value(
    alloc: Global,
    w: &mut Writer,
    levels: u32,
    depth: u32,
    code: &TypeCode,
    value: &Value,
) -> Result<(), Memory>
    requires few { levels ≤ 16 }
    requires shallow { depth ≤ 16 }
    ensures { Puts ((code_values levels depth code.now).format.writes value.now)
        w.old w.new result }
{
    if depth == 0 {
        return Ok(());
    }
    let depth = depth - 1;
    match code {
        TypeCode::Null => Ok(()),
        TypeCode::Void => Ok(()),
        TypeCode::AnyCode => put_any_in(alloc, w, levels, value),
        TypeCode::Code => put_code_in(alloc, w, levels, value),
        TypeCode::Str { .. } => put_text_in(w, value),
        TypeCode::ObjRef { .. } => put_reference_in(alloc, w, value),
        TypeCode::Struct { members, .. } => {
            put_struct(alloc, w, levels, depth, members.as_slice(), value)
        }
        TypeCode::Union { default, arms, .. } => {
            put_union(
                alloc,
                w,
                levels,
                depth,
                index_of(default),
                arms.as_slice(),
                value,
            )
        }
        TypeCode::Sequence { item, .. } => {
            put_sequence(alloc, w, levels, depth, item.get(), value)
        }
        TypeCode::Array { item, .. } => put_array(alloc, w, levels, depth, item.get(), value),
        TypeCode::Alias { item, .. } => put_value(alloc, w, levels, depth, item.get(), value),
        TypeCode::Except { .. } => Ok(()),
        TypeCode::Linked(graph) => put_graph(alloc, w, levels, graph, value),
        _ => write_label(w, label_of(value)),
    }
}

/// The any that the value is.
#[cycle(putting)]
fn put_any_in(alloc: Global, w: &mut Writer, levels: u32, value: &Value) -> Result<(), Memory>
    requires few { levels ≤ 16 }
    ensures { Puts (none_or (anys levels).format.writes (any_in (out-Value value.now)))
        w.old w.new result }
{
    match value {
        Value::AnyValue(any) => put_any(alloc, w, levels, any.get()),
        _ => Ok(()),
    }
}

/// The TypeCode that the value is.
fn put_code_in(alloc: Global, w: &mut Writer, levels: u32, value: &Value) -> Result<(), Memory>
    ensures { Puts (none_or (outer_piece levels) (code_in (out-Value value.now)))
        w.old w.new result }
{
    match value {
        Value::Code(code) => write_outer(alloc, w, levels, code.get()),
        _ => Ok(()),
    }
}

/// The string that the value is.
pub(crate) fn put_text_in(w: &mut Writer, value: &Value) -> Result<(), Memory>
    ensures { Puts (none_or text.format.writes (text_in (out-Value value.now))) w.old w.new result }
{
    match value {
        Value::Str(text) => w.string(text.as_slice()),
        _ => Ok(()),
    }
}

/// The reference that the value is.
pub(crate) fn put_reference_in(alloc: Global, w: &mut Writer, value: &Value) -> Result<(), Memory>
    ensures { Puts (none_or reference.format.writes (reference_in (out-Value value.now)))
        w.old w.new result }
{
    match value {
        Value::ObjRef(reference) => reference.get().write(alloc, w),
        _ => Ok(()),
    }
}

/// The values of a structure's members.
#[cycle(putting)]
fn put_struct(
    alloc: Global,
    w: &mut Writer,
    levels: u32,
    depth: u32,
    members: &[Member],
    value: &Value,
) -> Result<(), Memory>
    requires few { levels ≤ 16 }
    requires shallow { depth ≤ 16 }
    ensures { Puts ((struct_value (anys levels) (outer levels) (code_values levels depth)
        members.now).format.writes value.now) w.old w.new result }
{
    match value {
        Value::Struct(held) => put_fields(alloc, w, levels, depth, members, held.as_slice()),
        _ => Ok(()),
    }
}

/// The members' values.
#[cycle(putting)]
fn put_fields(
    alloc: Global,
    w: &mut Writer,
    levels: u32,
    depth: u32,
    members: &[Member],
    held: &[Value],
) -> Result<(), Memory>
    requires few { levels ≤ 16 }
    requires shallow { depth ≤ 16 }
    ensures { Puts ((each (anys levels) (outer levels) (code_values levels depth)
        members.now).format.writes held.now) w.old w.new result }
{
    let count = members.len().min(held.len());
    for i in 0..count {
        put_value(alloc, w, levels, depth, &members[i].code, &held[i])?;
    }
    Ok(())
}

/// A union's discriminator and the value of its chosen arm.
#[cycle(putting)]
fn put_union(
    alloc: Global,
    w: &mut Writer,
    levels: u32,
    depth: u32,
    default: Option<usize>,
    arms: &[Arm],
    value: &Value,
) -> Result<(), Memory>
    requires few { levels ≤ 16 }
    requires shallow { depth ≤ 16 }
    ensures { Puts (union_piece (anys levels) (outer levels) (code_values levels depth)
        default arms.now (out-Value value.now)) w.old w.new result }
{
    match value {
        Value::Union { label, arm } => {
            write_label(w, label_of(label.get()))?;
            put_branch(
                alloc,
                w,
                levels,
                depth,
                branch_of(label.get(), default, arms),
                arm,
            )
        }
        _ => Ok(()),
    }
}

/// The value of a union's chosen arm.
#[cycle(putting)]
fn put_branch(
    alloc: Global,
    w: &mut Writer,
    levels: u32,
    depth: u32,
    chosen: Option<&Arm>,
    value: &Option<Boxed<Value>>,
) -> Result<(), Memory>
    requires few { levels ≤ 16 }
    requires shallow { depth ≤ 16 }
    ensures { Puts (branch_piece (anys levels) (outer levels) (code_values levels depth)
        (option_copied chosen.entry) value.now) w.old w.new result }
{
    match (chosen, value) {
        (Some(arm), Some(value)) => put_value(alloc, w, levels, depth, &arm.code, value.get()),
        _ => Ok(()),
    }
}

/// A count and the items.
#[cycle(putting)]
fn put_sequence(
    alloc: Global,
    w: &mut Writer,
    levels: u32,
    depth: u32,
    item: &TypeCode,
    value: &Value,
) -> Result<(), Memory>
    requires few { levels ≤ 16 }
    requires shallow { depth ≤ 16 }
    ensures { Puts (none_or
        (sequence_piece (anys levels) (outer levels) (code_values levels depth) item.now)
        (items_in (out-Value value.now)))
        w.old w.new result }
{
    match value {
        Value::Items(items) => put_count_and_items(alloc, w, levels, depth, item, items.as_slice()),
        _ => Ok(()),
    }
}

/// A count and the items behind it.
#[cycle(putting)]
fn put_count_and_items(
    alloc: Global,
    w: &mut Writer,
    levels: u32,
    depth: u32,
    item: &TypeCode,
    items: &[Value],
) -> Result<(), Memory>
    requires few { levels ≤ 16 }
    requires shallow { depth ≤ 16 }
    ensures { Puts (sequence_piece (anys levels) (outer levels) (code_values levels depth)
        item.now items.now) w.old w.new result }
{
    write_count(w, items.len())?;
    put_items(alloc, w, levels, depth, item, items)
}

/// The items of an array.
#[cycle(putting)]
fn put_array(
    alloc: Global,
    w: &mut Writer,
    levels: u32,
    depth: u32,
    item: &TypeCode,
    value: &Value,
) -> Result<(), Memory>
    requires few { levels ≤ 16 }
    requires shallow { depth ≤ 16 }
    ensures { Puts (none_or
        (items_piece (anys levels) (outer levels) (code_values levels depth) item.now)
        (items_in (out-Value value.now)))
        w.old w.new result }
{
    match value {
        Value::Items(items) => put_items(alloc, w, levels, depth, item, items.as_slice()),
        _ => Ok(()),
    }
}

/// Values of one TypeCode.
#[cycle(putting)]
fn put_items(
    alloc: Global,
    w: &mut Writer,
    levels: u32,
    depth: u32,
    item: &TypeCode,
    items: &[Value],
) -> Result<(), Memory>
    requires few { levels ≤ 16 }
    requires shallow { depth ≤ 16 }
    ensures { Puts (items_piece (anys levels) (outer levels) (code_values levels depth)
        item.now items.now) w.old w.new result }
{
    for value in items {
        put_value(alloc, w, levels, depth, item, value)?;
    }
    Ok(())
}

/// A value under a graph, in which an any may have `levels` levels.
#[cycle(putting)]
fn put_graph(
    alloc: Global,
    w: &mut Writer,
    levels: u32,
    graph: &Whole,
    value: &Value,
) -> Result<(), Memory>
    requires few { levels ≤ 16 }
    ensures { Puts ((graph_values levels graph.now).format.writes value.now) w.old w.new result }
{
    let graph = spelled_graph(alloc, graph)?;
    put_node(alloc, w, levels, LEVELS, &graph, 0, value)
}

/// A value under a node of a graph, from which edges that are no indirections lead `depth` deep at most.
/// An any in it may have `levels` levels.
#[cycle(putting)]
#[tactic(auto, unfolding(crate::specs::NodeValues::value_at_node))]
fn put_node(
    alloc: Global,
    w: &mut Writer,
    levels: u32,
    depth: u32,
    graph: &SpelledGraph,
    place: u32,
    value: &Value,
) -> Result<(), Memory>
    requires few { levels ≤ 16 }
    requires shallow { depth ≤ 16 }
    requires there { place < length graph.now }
    ensures { Puts ((node_values levels graph.now depth place).format.writes value.now)
        w.old w.new result }
{
    if depth == 0 {
        return Ok(());
    }
    match kind_of_number(graph.node(place).kind) {
        None => Ok(()),
        Some(kind) => put_node_kind(alloc, w, levels, depth - 1, graph, place, kind, value),
    }
}

/// A value under a node of this kind.
#[cycle(putting)]
fn put_node_kind(
    alloc: Global,
    w: &mut Writer,
    levels: u32,
    depth: u32,
    graph: &SpelledGraph,
    place: u32,
    kind: CodeKind,
    value: &Value,
) -> Result<(), Memory>
    requires few { levels ≤ 16 }
    requires shallow { depth ≤ 16 }
    requires there { place < length graph.now }
    ensures { Puts ((node_kind levels graph.now depth place kind).format.writes value.now)
        w.old w.new result }
{
    match kind {
        CodeKind::AnyCode => put_any_in(alloc, w, levels, value),
        CodeKind::Code => put_code_in(alloc, w, levels, value),
        CodeKind::Struct => put_node_struct(alloc, w, levels, depth, graph, place, value),
        CodeKind::Union => put_node_union(alloc, w, levels, depth, graph, place, value),
        CodeKind::Sequence => { put_node_sequence(alloc, w, levels, depth, graph, place, value) }
        CodeKind::Array => put_node_array(alloc, w, levels, depth, graph, place, value),
        CodeKind::Alias => put_node_alias(alloc, w, levels, depth, graph, place, value),
        _ => put_leaf(alloc, w, graph.node(place), kind, value),
    }
}

/// A value behind an edge. Each indirection that is passed is a level.
#[cycle(putting)]
#[tactic(auto, unfolding(crate::specs::Values::left))]
fn put_along(
    alloc: Global,
    w: &mut Writer,
    levels: u32,
    depth: u32,
    graph: &SpelledGraph,
    edge: Edge,
    value: &Value,
) -> Result<(), Memory>
    requires few { levels ≤ 16 }
    requires shallow { depth ≤ 16 }
    requires there { edge.place < length graph.now }
    ensures { Puts ((edge_values levels graph.now depth edge).format.writes value.now)
        w.old w.new result }
{
    if !edge.is_indirection {
        return put_node(alloc, w, levels, depth, graph, edge.place, value);
    }
    if levels == 0 {
        return Ok(());
    }
    put_node(alloc, w, levels - 1, LEVELS, graph, edge.place, value)
}

/// The values of the members of a structure under its node.
#[cycle(putting)]
fn put_node_struct(
    alloc: Global,
    w: &mut Writer,
    levels: u32,
    depth: u32,
    graph: &SpelledGraph,
    place: u32,
    value: &Value,
) -> Result<(), Memory>
    requires few { levels ≤ 16 }
    requires shallow { depth ≤ 16 }
    requires there { place < length graph.now }
    ensures { Puts ((node_kind levels graph.now depth place kind.Struct).format.writes value.now)
        w.old w.new result }
{
    match value {
        Value::Struct(held) => {
            put_node_fields(alloc, w, levels, depth, graph, place, held.as_slice())
        }
        _ => Ok(()),
    }
}

/// The members' values.
#[cycle(putting)]
fn put_node_fields(
    alloc: Global,
    w: &mut Writer,
    levels: u32,
    depth: u32,
    graph: &SpelledGraph,
    place: u32,
    held: &[Value],
) -> Result<(), Memory>
    requires few { levels ≤ 16 }
    requires shallow { depth ≤ 16 }
    requires there { place < length graph.now }
    ensures { Puts ((node_each levels graph.now depth place
        (upwards 0 (length (node_at graph.now place).edges))).format.writes held.now)
        w.old w.new result }
{
    let count = graph.node(place).edges.len().min(held.len());
    for i in 0..count {
        let edge = graph.edge(place, i);
        put_along(alloc, w, levels, depth, graph, edge, &held[i])?;
    }
    Ok(())
}

/// A union's discriminator and the value of its chosen arm, under its node.
#[cycle(putting)]
fn put_node_union(
    alloc: Global,
    w: &mut Writer,
    levels: u32,
    depth: u32,
    graph: &SpelledGraph,
    place: u32,
    value: &Value,
) -> Result<(), Memory>
    requires few { levels ≤ 16 }
    requires shallow { depth ≤ 16 }
    requires there { place < length graph.now }
    ensures { Puts ((node_kind levels graph.now depth place kind.Union).format.writes value.now)
        w.old w.new result }
{
    let node = graph.node(place);
    if !is_union(node) {
        return Ok(());
    }
    match value {
        Value::Union { label, arm } => {
            write_label(w, label_of(label.get()))?;
            let chosen = arm_of(node, label.get());
            put_node_branch(alloc, w, levels, depth, graph, place, chosen, arm)
        }
        _ => Ok(()),
    }
}

/// The value of a union's chosen arm, under its node.
#[cycle(putting)]
fn put_node_branch(
    alloc: Global,
    w: &mut Writer,
    levels: u32,
    depth: u32,
    graph: &SpelledGraph,
    place: u32,
    chosen: Option<usize>,
    value: &Option<Boxed<Value>>,
) -> Result<(), Memory>
    requires few { levels ≤ 16 }
    requires shallow { depth ≤ 16 }
    requires there { place < length graph.now }
    requires within { IfSome chosen (λ arm. arm + 1 < length (node_at graph.now place).edges) }
    requires fits { IfSome chosen (λ arm. arm + 1 < 2 ^ 64) }
    ensures { Puts (node_branch_piece levels graph.now depth place chosen value.now)
        w.old w.new result }
{
    let Some(arm) = chosen else {
        return Ok(());
    };
    let number = arm + 1;
    let edge = graph.edge(place, number);
    match value {
        Some(value) => put_along(alloc, w, levels, depth, graph, edge, value.get()),
        None => Ok(()),
    }
}

/// A count and the items, under the node of a sequence.
#[cycle(putting)]
fn put_node_sequence(
    alloc: Global,
    w: &mut Writer,
    levels: u32,
    depth: u32,
    graph: &SpelledGraph,
    place: u32,
    value: &Value,
) -> Result<(), Memory>
    requires few { levels ≤ 16 }
    requires shallow { depth ≤ 16 }
    requires there { place < length graph.now }
    ensures { Puts ((node_kind levels graph.now depth place kind.Sequence).format.writes value.now)
        w.old w.new result }
{
    if !has_item(graph.node(place)) {
        return Ok(());
    }
    match value {
        Value::Items(items) => {
            write_count(w, items.len())?;
            let edge = graph.edge(place, 0);
            put_items_along(alloc, w, levels, depth, graph, edge, items.as_slice())
        }
        _ => Ok(()),
    }
}

/// The items of an array under its node.
#[cycle(putting)]
fn put_node_array(
    alloc: Global,
    w: &mut Writer,
    levels: u32,
    depth: u32,
    graph: &SpelledGraph,
    place: u32,
    value: &Value,
) -> Result<(), Memory>
    requires few { levels ≤ 16 }
    requires shallow { depth ≤ 16 }
    requires there { place < length graph.now }
    ensures { Puts ((node_kind levels graph.now depth place kind.Array).format.writes value.now)
        w.old w.new result }
{
    if !has_item(graph.node(place)) {
        return Ok(());
    }
    match value {
        Value::Items(items) => {
            let edge = graph.edge(place, 0);
            put_items_along(alloc, w, levels, depth, graph, edge, items.as_slice())
        }
        _ => Ok(()),
    }
}

/// A value under an alias's node.
#[cycle(putting)]
fn put_node_alias(
    alloc: Global,
    w: &mut Writer,
    levels: u32,
    depth: u32,
    graph: &SpelledGraph,
    place: u32,
    value: &Value,
) -> Result<(), Memory>
    requires few { levels ≤ 16 }
    requires shallow { depth ≤ 16 }
    requires there { place < length graph.now }
    ensures { Puts ((node_kind levels graph.now depth place kind.Alias).format.writes value.now)
        w.old w.new result }
{
    if !has_item(graph.node(place)) {
        return Ok(());
    }
    put_along(alloc, w, levels, depth, graph, graph.edge(place, 0), value)
}

/// Values behind one edge.
#[cycle(putting)]
fn put_items_along(
    alloc: Global,
    w: &mut Writer,
    levels: u32,
    depth: u32,
    graph: &SpelledGraph,
    edge: Edge,
    items: &[Value],
) -> Result<(), Memory>
    requires few { levels ≤ 16 }
    requires shallow { depth ≤ 16 }
    requires there { edge.place < length graph.now }
    ensures { Puts (row (map (edge_values levels graph.now depth edge).format.writes items.now))
        w.old w.new result }
{
    for value in items {
        put_along(alloc, w, levels, depth, graph, edge, value)?;
    }
    Ok(())
}
