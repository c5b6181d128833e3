//! Values under a TypeCode, and anys, from bytes.

ghost use Rattle.std.specs.Prelude.{◌≡◌, ◌+◌, ◌≤◌, ◌<◌, length, option_copied, IsTrue};
ghost use Rattle.td_cdr.specs.Format.{Gives};
ghost use Rattle.std.proofs.Common.{ap};
ghost use Rattle.td_cdr.specs.Sound.{array, variant};
ghost use Rattle.td_cdr.specs.ValueFaults.{is_memory};
ghost use Rattle.tc_graph.specs.Nodes.{node_at};
ghost use Rattle.td_typecode.specs.EdgeLayers.{is_union};
ghost use Rattle.td_typecode.specs.NodeValues.{chosen_arm};
ghost use Rattle.td_typecode.specs.NodeLabels.{node_labels};
ghost use Rattle.td_typecode.specs.declared.code.Value.{out-Value};
ghost use Rattle.td_typecode.specs.declared.code.Value.TheVariants as value;
ghost use Rattle.td_typecode.specs.declared.kinds.CodeKind.TheVariants as kind;
ghost use Rattle.td_typecode.specs.Labels.{labels};
ghost use Rattle.td_typecode.specs.Layers.{value-any, value-code, value-object, value-str};
ghost use Rattle.td_typecode.specs.References.{reference};
ghost use Rattle.td_typecode.specs.Outermost.{outer};
ghost use Rattle.td_typecode.specs.Values.{anys, code_values, each, branch, branch_of, bounded_text, count_within};
ghost use Rattle.td_typecode.specs.Values.{struct_value, union_value, sequence_value, array_value, index_of};
ghost use Rattle.td_typecode.specs.Values.{is_default};
ghost use Rattle.td_typecode.specs.Values.{graph_values, node_values, edge_values, node_kind, node_branch};
ghost use Rattle.td_typecode.specs.Values.{is_chosen, default_arm, any_in, code_in, reference_in, text_in};

use crate::code::{Any, Arm, Member, TypeCode, Value};
use crate::kinds::{CodeKind, kind_of_number};
use crate::label::{label_of, same_label};
use crate::labels::label_at;
use crate::node_labels::node_label_at;
use crate::node_leaves::leaf_at;
use crate::nodes::{arm_of, bound_of, has_item, is_union, spelled_graph};
use crate::outermost::{boxed_outer_at, outer_at};
use crate::plain::octet_at;
use crate::reading::LEVELS;
use crate::reference::Ior;
use std::alloc::Global;
use tc_edges::{Edge, SpelledGraph};
use tc_graph::Whole;
use td_cdr::{Boxed, List, Reader, Spelled, Text, ValueFault};

/// An any of at most so many levels.
///
/// # Errors
///
/// The first fault in reading order, or `Memory` when out of memory; it isn't said where the reader
/// then stands.
#[cycle(values)]
#[tactic(auto, unfolding(crate::specs::Values::left))]
pub fn any_at(alloc: Global, r: &mut Reader, levels: u32) -> Result<Any, ValueFault>
    requires few { levels ≤ 16 }
    ensures { Gives is_memory r.new result ((anys levels).format.reads r.old) }
{
    let code = outer_at(alloc, r, levels)?;
    if levels == 0 {
        drop(code);
        return Err(ValueFault::BadValue(r.aligned()));
    }
    match value_at(alloc, r, levels - 1, levels, &code) {
        Ok(value) => Ok(Any { code, value }),
        Err(fault) => {
            drop(code);
            Err(fault)
        }
    }
}

/// A value that is an any of at most so many levels.
#[cycle(values)]
fn inner_any_at(alloc: Global, r: &mut Reader, levels: u32) -> Result<Value, ValueFault>
    requires few { levels ≤ 16 }
    ensures { Gives is_memory r.new result
        ((variant (λ a. value.AnyValue a) (λ v. any_in (out-Value v)) (λ a. ap any_in (value-any a))
        (anys levels)).format.reads
        r.old) }
{
    let any = any_at(alloc, r, levels)?;
    Ok(Value::AnyValue(Boxed::new(alloc, any)?))
}

/// A value under a TypeCode of at most `depth` levels, in which an any may have `levels` more. What may
/// discriminate a union is read as it is there.
#[cycle(values)]
#[tactic(auto, unfolding(crate::specs::Values::values))]
fn value_at(
    alloc: Global,
    r: &mut Reader,
    levels: u32,
    depth: u32,
    code: &TypeCode,
) -> Result<Value, ValueFault>
    requires few { levels ≤ 16 }
    requires shallow { depth ≤ 16 }
    ensures { Gives is_memory r.new result
        ((code_values levels depth code.now).format.reads r.old) }
{
    if depth == 0 {
        return Err(ValueFault::BadValue(r.aligned()));
    }
    let depth = depth - 1;
    match code {
        TypeCode::Null => Ok(Value::Empty),
        TypeCode::Void => Ok(Value::Empty),
        TypeCode::Octet => octet_at(r),
        TypeCode::AnyCode => inner_any_at(alloc, r, levels),
        TypeCode::Code => inner_code_at(alloc, r, levels),
        TypeCode::Str { bound } => string_at(alloc, r, *bound),
        TypeCode::ObjRef { .. } => reference_at(alloc, r),
        TypeCode::Struct { members, .. } => {
            struct_at(alloc, r, levels, depth, members.as_slice())
        }
        TypeCode::Union {
            switch,
            default,
            arms,
            ..
        } => union_at(
            alloc,
            r,
            levels,
            depth,
            switch.get(),
            index_of(default),
            arms.as_slice(),
        ),
        TypeCode::Sequence { item, bound } => {
            sequence_at(alloc, r, levels, depth, item.get(), *bound)
        }
        TypeCode::Array { item, len } => array_at(alloc, r, levels, depth, item.get(), *len),
        TypeCode::Alias { item, .. } => value_at(alloc, r, levels, depth, item.get()),
        TypeCode::Except { .. } => Err(ValueFault::Unsupported(CodeKind::Except.number())),
        TypeCode::Linked(graph) => graph_at(alloc, r, levels, graph),
        _ => label_at(r, 1, code),
    }
}

/// A value that is a TypeCode which may hold so many levels.
fn inner_code_at(alloc: Global, r: &mut Reader, levels: u32) -> Result<Value, ValueFault>
    ensures { Gives is_memory r.new result
        ((variant (λ t. value.Code t) (λ v. code_in (out-Value v)) (λ t. ap code_in (value-code t))
        (outer levels)).format.reads
        r.old) }
{
    let code = boxed_outer_at(alloc, r, levels)?;
    Ok(Value::Code(code))
}

/// A value that is an object reference.
pub(crate) fn reference_at(alloc: Global, r: &mut Reader) -> Result<Value, ValueFault>
    ensures { Gives is_memory r.new result
        ((variant (λ i. value.ObjRef i) (λ v. reference_in (out-Value v))
        (λ i. ap reference_in (value-object i)) reference).format.reads r.old) }
{
    let ior = <Boxed<Ior>>::read(alloc, r)?;
    Ok(Value::ObjRef(ior))
}

/// A string of at most `bound` bytes, 0 being no bound.
pub(crate) fn string_at(alloc: Global, r: &mut Reader, bound: u32) -> Result<Value, ValueFault>
    ensures { Gives is_memory r.new result
        ((variant (λ t. value.Str t) (λ v. text_in (out-Value v)) (λ t. ap text_in (value-str t))
        (bounded_text bound)).format.reads
        r.old) }
{
    let place = r.aligned();
    let text = Text::read(alloc, r)?;
    if bound != 0 && (bound as usize) < text.len() {
        return Err(ValueFault::BadValue(place));
    }
    Ok(Value::Str(text))
}

/// A count of at most `bound` items, 0 being no bound.
fn count_within(r: &mut Reader, bound: u32) -> Result<u32, ValueFault>
    ensures { Gives is_memory r.new result ((count_within bound).format.reads r.old) }
{
    let place = r.aligned();
    let count = r.u32()?;
    if bound != 0 && bound < count {
        return Err(ValueFault::BadValue(place));
    }
    Ok(count)
}

#[cycle(values)]
fn struct_at(
    alloc: Global,
    r: &mut Reader,
    levels: u32,
    depth: u32,
    members: &[Member],
) -> Result<Value, ValueFault>
    requires few { levels ≤ 16 }
    requires shallow { depth ≤ 16 }
    ensures { Gives is_memory r.new result
        ((struct_value (anys levels) (outer levels) (code_values levels depth)
        members.now).format.reads r.old) }
{
    let values = each_at(alloc, r, levels, depth, members)?;
    Ok(Value::Struct(values))
}

#[cycle(values)]
fn union_at(
    alloc: Global,
    r: &mut Reader,
    levels: u32,
    depth: u32,
    switch: &TypeCode,
    default: Option<usize>,
    arms: &[Arm],
) -> Result<Value, ValueFault>
    requires few { levels ≤ 16 }
    requires shallow { depth ≤ 16 }
    ensures { Gives is_memory r.new result
        ((union_value (anys levels) (outer levels) (code_values levels depth)
        depth switch.now default arms.now).format.reads r.old) }
{
    let label = boxed_label_at(alloc, r, depth, switch)?;
    branch_at(alloc, r, levels, depth, label, default, arms)
}

/// A value of a discriminator of at most so many levels, in a block of its own.
fn boxed_label_at(
    alloc: Global,
    r: &mut Reader,
    levels: u32,
    switch: &TypeCode,
) -> Result<Boxed<Value>, ValueFault>
    ensures { Gives is_memory r.new result ((labels levels switch.now).format.reads r.old) }
{
    let label = label_at(r, levels, switch)?;
    Ok(Boxed::new(alloc, label)?)
}

/// A value under a TypeCode, in a block of its own.
#[cycle(values)]
fn boxed_value_at(
    alloc: Global,
    r: &mut Reader,
    levels: u32,
    depth: u32,
    code: &TypeCode,
) -> Result<Boxed<Value>, ValueFault>
    requires few { levels ≤ 16 }
    requires shallow { depth ≤ 16 }
    ensures { Gives is_memory r.new result
        ((code_values levels depth code.now).format.reads r.old) }
{
    let value = value_at(alloc, r, levels, depth, code)?;
    Ok(Boxed::new(alloc, value)?)
}

#[cycle(values)]
fn sequence_at(
    alloc: Global,
    r: &mut Reader,
    levels: u32,
    depth: u32,
    item: &TypeCode,
    bound: u32,
) -> Result<Value, ValueFault>
    requires few { levels ≤ 16 }
    requires shallow { depth ≤ 16 }
    ensures { Gives is_memory r.new result
        ((sequence_value (anys levels) (outer levels) (code_values levels depth)
        item.now bound).format.reads r.old) }
{
    let count = count_within(r, bound)?;
    let items = items_at(alloc, r, levels, depth, item, count)?;
    Ok(Value::Items(items))
}

#[cycle(values)]
fn array_at(
    alloc: Global,
    r: &mut Reader,
    levels: u32,
    depth: u32,
    item: &TypeCode,
    len: u32,
) -> Result<Value, ValueFault>
    requires few { levels ≤ 16 }
    requires shallow { depth ≤ 16 }
    ensures { Gives is_memory r.new result
        ((array_value (anys levels) (outer levels) (code_values levels depth)
        item.now len).format.reads r.old) }
{
    let items = items_at(alloc, r, levels, depth, item, len)?;
    Ok(Value::Items(items))
}

/// A union's value behind its discriminator.
#[cycle(values)]
fn branch_at(
    alloc: Global,
    r: &mut Reader,
    levels: u32,
    depth: u32,
    label: Boxed<Value>,
    default: Option<usize>,
    arms: &[Arm],
) -> Result<Value, ValueFault>
    requires few { levels ≤ 16 }
    requires shallow { depth ≤ 16 }
    ensures { Gives is_memory r.new result
        ((branch (anys levels) (outer levels) (code_values levels depth) label
        (branch_of default label arms.now)).format.reads r.old) }
{
    match branch_of(label.get(), default, arms) {
        None => Ok(Value::Union { label, arm: None }),
        Some(arm) => {
            let value = boxed_value_at(alloc, r, levels, depth, &arm.code)?;
            Ok(Value::Union {
                label,
                arm: Some(value),
            })
        }
    }
}

/// The first arm but the default with this label, or else the default.
pub fn branch_of<'a>(label: &Value, default: Option<usize>, arms: &'a [Arm]) -> Option<&'a Arm>
    ensures { option_copied result ≡ branch_of default label.now arms.now }
{
    for i in 0..arms.len() {
        if is_chosen(&arms[i], i, default, label) {
            return Some(&arms[i]);
        }
    }
    default_arm(arms, default)
}

fn default_arm(arms: &[Arm], default: Option<usize>) -> Option<&Arm>
    ensures { option_copied result ≡ default_arm default arms.now }
{
    match default {
        Some(index) => arms.get(index),
        None => None,
    }
}

fn is_chosen(arm: &Arm, i: usize, default: Option<usize>, label: &Value) -> bool
    ensures { result ≡ is_chosen default label.now i arm.now }
{
    !is_default(default, i) && same_label(label_of(&arm.label), label_of(label))
}

pub(crate) fn is_default(default: Option<usize>, i: usize) -> bool
    ensures { result ≡ is_default default i }
{
    match default {
        Some(index) => index == i,
        None => false,
    }
}

/// The index of a union's default arm, where there is one.
pub fn index_of(default: &i32) -> Option<usize>
    ensures { result ≡ index_of default.now }
{
    let index = *default;
    if index < 0 {
        return None;
    }
    Some(index.cast_unsigned() as usize)
}

/// The members' values.
#[cycle(values)]
fn each_at(
    alloc: Global,
    r: &mut Reader,
    levels: u32,
    depth: u32,
    members: &[Member],
) -> Result<List<Value>, ValueFault>
    requires few { levels ≤ 16 }
    requires shallow { depth ≤ 16 }
    ensures { Gives is_memory r.new result
        ((each (anys levels) (outer levels) (code_values levels depth)
        members.now).format.reads
        r.old) }
{
    let mut values = List::new(alloc);
    for member in members {
        let value = value_at(alloc, r, levels, depth, &member.code)?;
        values.push(value)?;
    }
    Ok(values)
}

/// So many values of one TypeCode.
#[cycle(values)]
fn items_at(
    alloc: Global,
    r: &mut Reader,
    levels: u32,
    depth: u32,
    item: &TypeCode,
    count: u32,
) -> Result<List<Value>, ValueFault>
    requires few { levels ≤ 16 }
    requires shallow { depth ≤ 16 }
    ensures { Gives is_memory r.new result
        ((array (code_values levels depth item.now) count).format.reads
        r.old) }
{
    let mut values = List::new(alloc);
    for _ in 0..count {
        let value = value_at(alloc, r, levels, depth, item)?;
        values.push(value)?;
    }
    Ok(values)
}

/// A value under a graph, in which an any may have `levels` levels.
#[cycle(values)]
fn graph_at(alloc: Global, r: &mut Reader, levels: u32, graph: &Whole) -> Result<Value, ValueFault>
    requires few { levels ≤ 16 }
    ensures { Gives is_memory r.new result ((graph_values levels graph.now).format.reads r.old) }
{
    let graph = spelled_graph(alloc, graph)?;
    node_at(alloc, r, levels, LEVELS, &graph, 0)
}

/// A value under a node of a graph, from which edges that are no indirections lead `depth` deep at most.
/// An any in it may have `levels` levels.
#[cycle(values)]
#[tactic(auto, unfolding(crate::specs::NodeValues::value_at_node))]
fn node_at(
    alloc: Global,
    r: &mut Reader,
    levels: u32,
    depth: u32,
    graph: &SpelledGraph,
    place: u32,
) -> Result<Value, ValueFault>
    requires few { levels ≤ 16 }
    requires shallow { depth ≤ 16 }
    requires there { place < length graph.now }
    ensures { Gives is_memory r.new result
        ((node_values levels graph.now depth place).format.reads r.old) }
{
    if depth == 0 {
        return Err(ValueFault::BadValue(r.aligned()));
    }
    match kind_of_number(graph.node(place).kind) {
        None => Err(ValueFault::BadValue(r.aligned())),
        Some(kind) => node_kind_at(alloc, r, levels, depth - 1, graph, place, kind),
    }
}

/// A value under a node of this kind.
#[cycle(values)]
fn node_kind_at(
    alloc: Global,
    r: &mut Reader,
    levels: u32,
    depth: u32,
    graph: &SpelledGraph,
    place: u32,
    kind: CodeKind,
) -> Result<Value, ValueFault>
    requires few { levels ≤ 16 }
    requires shallow { depth ≤ 16 }
    requires there { place < length graph.now }
    ensures { Gives is_memory r.new result
        ((node_kind levels graph.now depth place kind).format.reads r.old) }
{
    match kind {
        CodeKind::AnyCode => inner_any_at(alloc, r, levels),
        CodeKind::Code => inner_code_at(alloc, r, levels),
        CodeKind::Struct => node_struct_at(alloc, r, levels, depth, graph, place),
        CodeKind::Union => node_union_at(alloc, r, levels, depth, graph, place),
        CodeKind::Sequence => node_sequence_at(alloc, r, levels, depth, graph, place),
        CodeKind::Array => node_array_at(alloc, r, levels, depth, graph, place),
        CodeKind::Alias => node_alias_at(alloc, r, levels, depth, graph, place),
        _ => leaf_at(alloc, r, graph.node(place), kind),
    }
}

/// A value behind an edge. Each indirection that is passed is a level.
#[cycle(values)]
#[tactic(auto, unfolding(crate::specs::Values::left))]
fn along_at(
    alloc: Global,
    r: &mut Reader,
    levels: u32,
    depth: u32,
    graph: &SpelledGraph,
    edge: Edge,
) -> Result<Value, ValueFault>
    requires few { levels ≤ 16 }
    requires shallow { depth ≤ 16 }
    requires there { edge.place < length graph.now }
    ensures { Gives is_memory r.new result
        ((edge_values levels graph.now depth edge).format.reads r.old) }
{
    if !edge.is_indirection {
        return node_at(alloc, r, levels, depth, graph, edge.place);
    }
    if levels == 0 {
        return Err(ValueFault::Depth(r.place()));
    }
    node_at(alloc, r, levels - 1, LEVELS, graph, edge.place)
}

/// A value behind an edge, in a block of its own.
#[cycle(values)]
fn boxed_along_at(
    alloc: Global,
    r: &mut Reader,
    levels: u32,
    depth: u32,
    graph: &SpelledGraph,
    edge: Edge,
) -> Result<Boxed<Value>, ValueFault>
    requires few { levels ≤ 16 }
    requires shallow { depth ≤ 16 }
    requires there { edge.place < length graph.now }
    ensures { Gives is_memory r.new result
        ((edge_values levels graph.now depth edge).format.reads r.old) }
{
    let value = along_at(alloc, r, levels, depth, graph, edge)?;
    Ok(Boxed::new(alloc, value)?)
}

/// A structure under its node.
#[cycle(values)]
fn node_struct_at(
    alloc: Global,
    r: &mut Reader,
    levels: u32,
    depth: u32,
    graph: &SpelledGraph,
    place: u32,
) -> Result<Value, ValueFault>
    requires few { levels ≤ 16 }
    requires shallow { depth ≤ 16 }
    requires there { place < length graph.now }
    ensures { Gives is_memory r.new result
        ((node_kind levels graph.now depth place kind.Struct).format.reads r.old) }
{
    let count = graph.node(place).edges.len();
    let mut values = List::new(alloc);
    for member in 0..count {
        let edge = graph.edge(place, member);
        let value = along_at(alloc, r, levels, depth, graph, edge)?;
        values.push(value)?;
    }
    Ok(Value::Struct(values))
}

/// A union under its node.
#[cycle(values)]
fn node_union_at(
    alloc: Global,
    r: &mut Reader,
    levels: u32,
    depth: u32,
    graph: &SpelledGraph,
    place: u32,
) -> Result<Value, ValueFault>
    requires few { levels ≤ 16 }
    requires shallow { depth ≤ 16 }
    requires there { place < length graph.now }
    ensures { Gives is_memory r.new result
        ((node_kind levels graph.now depth place kind.Union).format.reads r.old) }
{
    let node = graph.node(place);
    if !is_union(node) {
        return Err(ValueFault::BadValue(r.aligned()));
    }
    let label = boxed_node_label_at(alloc, r, levels, depth, graph, graph.edge(place, 0))?;
    node_branch_at(alloc, r, levels, depth, graph, place, label)
}

/// The value of a union under its node, behind its discriminator.
#[cycle(values)]
fn node_branch_at(
    alloc: Global,
    r: &mut Reader,
    levels: u32,
    depth: u32,
    graph: &SpelledGraph,
    place: u32,
    label: Boxed<Value>,
) -> Result<Value, ValueFault>
    requires few { levels ≤ 16 }
    requires shallow { depth ≤ 16 }
    requires there { place < length graph.now }
    requires union { IsTrue (is_union (node_at graph.now place)) }
    ensures { Gives is_memory r.new result
        ((node_branch levels graph.now depth place label
        (chosen_arm (node_at graph.now place) label)).format.reads r.old) }
{
    match arm_of(graph.node(place), label.get()) {
        None => Ok(Value::Union { label, arm: None }),
        Some(arm) => {
            let number = arm + 1;
            let edge = graph.edge(place, number);
            let value = boxed_along_at(alloc, r, levels, depth, graph, edge)?;
            Ok(Value::Union {
                label,
                arm: Some(value),
            })
        }
    }
}

/// A discriminator behind an edge, in a block of its own.
fn boxed_node_label_at(
    alloc: Global,
    r: &mut Reader,
    levels: u32,
    depth: u32,
    graph: &SpelledGraph,
    edge: Edge,
) -> Result<Boxed<Value>, ValueFault>
    requires few { levels ≤ 16 }
    requires shallow { depth ≤ 16 }
    requires there { edge.place < length graph.now }
    ensures { Gives is_memory r.new result
        ((node_labels graph.now levels depth edge).format.reads r.old) }
{
    let label = node_label_at(r, levels, depth, graph, edge)?;
    Ok(Boxed::new(alloc, label)?)
}

/// A sequence under its node.
#[cycle(values)]
fn node_sequence_at(
    alloc: Global,
    r: &mut Reader,
    levels: u32,
    depth: u32,
    graph: &SpelledGraph,
    place: u32,
) -> Result<Value, ValueFault>
    requires few { levels ≤ 16 }
    requires shallow { depth ≤ 16 }
    requires there { place < length graph.now }
    ensures { Gives is_memory r.new result
        ((node_kind levels graph.now depth place kind.Sequence).format.reads r.old) }
{
    let node = graph.node(place);
    if !has_item(node) {
        return Err(ValueFault::BadValue(r.aligned()));
    }
    let count = count_within(r, bound_of(node))?;
    let items = items_along_at(alloc, r, levels, depth, graph, graph.edge(place, 0), count)?;
    Ok(Value::Items(items))
}

/// An array under its node.
#[cycle(values)]
fn node_array_at(
    alloc: Global,
    r: &mut Reader,
    levels: u32,
    depth: u32,
    graph: &SpelledGraph,
    place: u32,
) -> Result<Value, ValueFault>
    requires few { levels ≤ 16 }
    requires shallow { depth ≤ 16 }
    requires there { place < length graph.now }
    ensures { Gives is_memory r.new result
        ((node_kind levels graph.now depth place kind.Array).format.reads r.old) }
{
    let node = graph.node(place);
    if !has_item(node) {
        return Err(ValueFault::BadValue(r.aligned()));
    }
    let edge = graph.edge(place, 0);
    let items = items_along_at(alloc, r, levels, depth, graph, edge, bound_of(node))?;
    Ok(Value::Items(items))
}

/// A value under an alias's node.
#[cycle(values)]
fn node_alias_at(
    alloc: Global,
    r: &mut Reader,
    levels: u32,
    depth: u32,
    graph: &SpelledGraph,
    place: u32,
) -> Result<Value, ValueFault>
    requires few { levels ≤ 16 }
    requires shallow { depth ≤ 16 }
    requires there { place < length graph.now }
    ensures { Gives is_memory r.new result
        ((node_kind levels graph.now depth place kind.Alias).format.reads r.old) }
{
    if !has_item(graph.node(place)) {
        return Err(ValueFault::BadValue(r.aligned()));
    }
    along_at(alloc, r, levels, depth, graph, graph.edge(place, 0))
}

/// So many values behind one edge.
#[cycle(values)]
fn items_along_at(
    alloc: Global,
    r: &mut Reader,
    levels: u32,
    depth: u32,
    graph: &SpelledGraph,
    edge: Edge,
    count: u32,
) -> Result<List<Value>, ValueFault>
    requires few { levels ≤ 16 }
    requires shallow { depth ≤ 16 }
    requires there { edge.place < length graph.now }
    ensures { Gives is_memory r.new result
        ((array (edge_values levels graph.now depth edge) count).format.reads r.old) }
{
    let mut values = List::new(alloc);
    for _ in 0..count {
        let value = along_at(alloc, r, levels, depth, graph, edge)?;
        values.push(value)?;
    }
    Ok(values)
}
