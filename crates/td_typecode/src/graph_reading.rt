//! TypeCodes with indirections from bytes. Where one is refused, the reader may have moved.

ghost use Rattle.std.specs.Prelude.{◌≡◌, ◌-◌, ◌≤◌, ℕ, Option, IfOk, length};
ghost use Rattle.std.specs.Int.{w32};
ghost use Rattle.std.specs.Int.RustNames.{FitsSigned};
ghost use Rattle.td_cdr.specs.Sound.{ulong};
ghost use Rattle.td_cdr.specs.declared.value_fault.ValueFault.TheVariants as fault;
ghost use Rattle.td_typecode.specs.declared.kinds.CodeKind.TheVariants as kind;
ghost use Rattle.td_typecode.specs.declared.mode.Mode.TheVariants.{Inner, Switch};
ghost use Rattle.td_typecode.specs.Codes.{header};
ghost use Rattle.td_typecode.specs.Known.{chain_under};
ghost use Rattle.td_typecode.specs.GraphCodes.{edges, parameters, member_node, arm_node, counted_arms};
ghost use Rattle.td_typecode.specs.GraphCodes.{nonempty, struct_layer};
ghost use Rattle.td_typecode.specs.GraphCodes.{except_layer, union_layer, sequence_layer, array_layer};
ghost use Rattle.td_typecode.specs.GraphCodes.{alias_layer};
ghost use Rattle.td_typecode.specs.NodeLayers.{GivesOn, GivesAs, numbers_of};
ghost use Rattle.td_typecode.specs.NodeReading.{enclosed_layer, node_from, discriminator_label};
ghost use Rattle.td_indirection.specs.Choices.{array, sequence_with};
ghost use Rattle.td_indirection.specs.Encapsulations.{encapsulation};
ghost use Rattle.td_indirection.specs.Pairs.{lift, ◌&◌};
ghost use Rattle.td_indirection.specs.Ulongs.{ulong-sized};

use crate::code::Value;
use crate::graph_reader::GraphReader;
use crate::kinds::{CodeKind, deep_kind, under};
use crate::mode::Mode;
use crate::node_layer::{Discriminator, NodeLayer};
use std::alloc::Global;
use td_cdr::{List, Text, ValueFault};

/// Where an edge stands, and the first alias of the chain of aliases that it goes on.
#[derive(Clone, Copy)]
pub(crate) struct Standing {
    pub(crate) mode: Mode,
    pub(crate) chain: Option<u32>,
}

/// A TypeCode that may hold so many levels, or an indirection to one that was begun: the number of
/// its node.
///
/// # Errors
///
/// The first fault in reading order, or `Memory` when out of memory.
#[cycle(graph_reading)]
pub(crate) fn edge_at(
    alloc: Global,
    g: &mut GraphReader,
    levels: u32,
    at: Standing,
) -> Result<u32, ValueFault>
    ensures { GivesOn g.new result
        ((edges levels at.mode at.chain).format.reads g.old.state g.old.at) }
{
    if levels == 0 {
        return too_deep(g, at.mode);
    }
    let place = g.aligned();
    match g.kind(at.mode)? {
        Some(kind) => node_at(alloc, g, levels - 1, at, kind, place),
        None => g.led_to(at.mode, at.chain),
    }
}

/// A node whose kind, at this place of the message, was read.
#[cycle(graph_reading)]
fn node_at(
    alloc: Global,
    g: &mut GraphReader,
    levels: u32,
    at: Standing,
    kind: CodeKind,
    place: u32,
) -> Result<u32, ValueFault>
    requires { g.old.at.origin ≤ place }
    ensures { GivesOn g.new result
        (node_from (edges levels) at.mode at.chain kind place g.old.state g.old.at) }
{
    let _here = g.reader();
    let number = g.begin(kind, place)?;
    let layer = layer_at(alloc, g, levels, at, kind)?;
    g.fill(number, kind, layer);
    Ok(number)
}

/// A TypeCode one level below the last is refused.
fn too_deep(g: &mut GraphReader, mode: Mode) -> Result<u32, ValueFault>
    ensures { (chain : Option ℕ) → GivesOn g.new result
        ((edges 0 mode chain).format.reads g.old.state g.old.at) }
{
    let mut next = g.reader();
    let _kind = deep_kind(&mut next, mode)?;
    Err(ValueFault::BadValue(next.aligned()))
}

/// What stands behind the kind of a node that was begun last.
#[cycle(graph_reading)]
fn layer_at(
    alloc: Global,
    g: &mut GraphReader,
    levels: u32,
    at: Standing,
    kind: CodeKind,
) -> Result<NodeLayer, ValueFault>
    ensures { GivesAs (λ l. numbers_of l kind) g.new result
        ((parameters (edges levels) at.mode at.chain kind).format.reads g.old.state g.old.at) }
{
    match kind {
        CodeKind::Null => Ok(NodeLayer::Leaf),
        CodeKind::Void => Ok(NodeLayer::Leaf),
        CodeKind::Short => Ok(NodeLayer::Leaf),
        CodeKind::Long => Ok(NodeLayer::Leaf),
        CodeKind::UShort => Ok(NodeLayer::Leaf),
        CodeKind::ULong => Ok(NodeLayer::Leaf),
        CodeKind::Boolean => Ok(NodeLayer::Leaf),
        CodeKind::Char => Ok(NodeLayer::Leaf),
        CodeKind::Octet => Ok(NodeLayer::Leaf),
        CodeKind::AnyCode => Ok(NodeLayer::Leaf),
        CodeKind::Code => Ok(NodeLayer::Leaf),
        CodeKind::LongLong => Ok(NodeLayer::Leaf),
        CodeKind::ULongLong => Ok(NodeLayer::Leaf),
        CodeKind::Str => Ok(NodeLayer::Str { bound: g.ulong()? }),
        _ => within_at(alloc, g, levels, at, kind),
    }
}

/// What stands in the encapsulation behind the kind of a node that was begun last.
#[cycle(graph_reading)]
fn within_at(
    alloc: Global,
    g: &mut GraphReader,
    levels: u32,
    at: Standing,
    kind: CodeKind,
) -> Result<NodeLayer, ValueFault>
    ensures { GivesAs (λ l. numbers_of l kind) g.new result
        ((encapsulation fault.Cdr (enclosed_layer (edges levels) at.mode at.chain
        (length g.old.state.table - 1) kind)).format.reads g.old.state g.old.at) }
{
    let mut inner = g.enter(alloc)?;
    let layer = enclosed_at(alloc, &mut inner, levels, at, kind)?;
    g.leave(inner);
    Ok(layer)
}

#[cycle(graph_reading)]
fn enclosed_at(
    alloc: Global,
    g: &mut GraphReader,
    levels: u32,
    at: Standing,
    kind: CodeKind,
) -> Result<NodeLayer, ValueFault>
    ensures { GivesAs (λ l. numbers_of l kind) g.new result
        ((enclosed_layer (edges levels) at.mode at.chain
        (length g.old.state.table - 1) kind).format.reads g.old.state g.old.at) }
{
    match kind {
        CodeKind::ObjRef => object_at(alloc, g),
        CodeKind::Struct => struct_at(alloc, g, levels),
        CodeKind::Union => union_at(alloc, g, levels),
        CodeKind::Enum => enum_at(alloc, g),
        CodeKind::Sequence => sequence_at(alloc, g, levels),
        CodeKind::Array => array_at(alloc, g, levels),
        CodeKind::Alias => alias_at(alloc, g, levels, at),
        CodeKind::Except => except_at(alloc, g, levels),
        _ => Err(ValueFault::BadValue(g.aligned())),
    }
}

fn object_at(alloc: Global, g: &mut GraphReader) -> Result<NodeLayer, ValueFault>
    ensures { GivesAs (λ l. numbers_of l kind.ObjRef) g.new result
        ((enclosed_layer (edges 0) Inner None 0 kind.ObjRef).format.reads g.old.state g.old.at) }
{
    let (id, name) = g.header(alloc)?;
    Ok(NodeLayer::ObjRef { id, name })
}

fn enum_at(alloc: Global, g: &mut GraphReader) -> Result<NodeLayer, ValueFault>
    ensures { GivesAs (λ l. numbers_of l kind.Enum) g.new result
        ((enclosed_layer (edges 0) Inner None 0 kind.Enum).format.reads g.old.state g.old.at) }
{
    let (id, name) = g.header(alloc)?;
    let labels = g.names(alloc)?;
    Ok(NodeLayer::Enum { id, name, labels })
}

#[cycle(graph_reading)]
fn struct_at(alloc: Global, g: &mut GraphReader, levels: u32) -> Result<NodeLayer, ValueFault>
    ensures { GivesAs (λ l. numbers_of l kind.Struct) g.new result
        ((struct_layer (edges levels)).format.reads g.old.state g.old.at) }
{
    let (id, name) = g.header(alloc)?;
    let members = fields_at(alloc, g, levels)?;
    Ok(NodeLayer::Fields { id, name, members })
}

#[cycle(graph_reading)]
fn except_at(alloc: Global, g: &mut GraphReader, levels: u32) -> Result<NodeLayer, ValueFault>
    ensures { GivesAs (λ l. numbers_of l kind.Except) g.new result
        ((except_layer (edges levels)).format.reads g.old.state g.old.at) }
{
    let (id, name) = g.header(alloc)?;
    let members = members_at(alloc, g, levels)?;
    Ok(NodeLayer::Fields { id, name, members })
}

/// One member at least.
#[cycle(graph_reading)]
fn fields_at(
    alloc: Global,
    g: &mut GraphReader,
    levels: u32,
) -> Result<List<(Text, u32)>, ValueFault>
    ensures { GivesOn g.new result
        ((nonempty (sequence_with ulong ulong-sized (member_node (edges levels)))).format.reads
        g.old.state g.old.at) }
{
    let place = g.aligned();
    let members = members_at(alloc, g, levels)?;
    if members.is_empty() {
        return Err(ValueFault::BadValue(place));
    }
    Ok(members)
}

/// A sequence of members.
#[cycle(graph_reading)]
fn members_at(
    alloc: Global,
    g: &mut GraphReader,
    levels: u32,
) -> Result<List<(Text, u32)>, ValueFault>
    ensures { GivesOn g.new result
        ((sequence_with ulong ulong-sized (member_node (edges levels))).format.reads
        g.old.state g.old.at) }
{
    let count = g.ulong()?;
    members_of(alloc, g, levels, count)
}

#[cycle(graph_reading)]
fn members_of(
    alloc: Global,
    g: &mut GraphReader,
    levels: u32,
    count: u32,
) -> Result<List<(Text, u32)>, ValueFault>
    ensures { GivesOn g.new result
        ((array (member_node (edges levels)) count).format.reads g.old.state g.old.at) }
{
    let mut members = List::new(alloc);
    for _ in 0..count {
        let member = member_at(alloc, g, levels)?;
        members.push(member)?;
    }
    Ok(members)
}

#[cycle(graph_reading)]
fn member_at(alloc: Global, g: &mut GraphReader, levels: u32) -> Result<(Text, u32), ValueFault>
    ensures { GivesOn g.new result
        ((member_node (edges levels)).format.reads g.old.state g.old.at) }
{
    let name = g.text(alloc)?;
    let number = inner_at(alloc, g, levels)?;
    Ok((name, number))
}

/// A TypeCode that stands in another.
#[cycle(graph_reading)]
fn inner_at(alloc: Global, g: &mut GraphReader, levels: u32) -> Result<u32, ValueFault>
    ensures { GivesOn g.new result
        ((edges levels Inner None).format.reads g.old.state g.old.at) }
{
    let at = Standing {
        mode: Mode::Inner,
        chain: None,
    };
    edge_at(alloc, g, levels, at)
}

#[cycle(graph_reading)]
fn sequence_at(alloc: Global, g: &mut GraphReader, levels: u32) -> Result<NodeLayer, ValueFault>
    ensures { GivesAs (λ l. numbers_of l kind.Sequence) g.new result
        ((sequence_layer (edges levels)).format.reads g.old.state g.old.at) }
{
    let item = inner_at(alloc, g, levels)?;
    let size = g.ulong()?;
    Ok(NodeLayer::Items { item, size })
}

#[cycle(graph_reading)]
fn array_at(alloc: Global, g: &mut GraphReader, levels: u32) -> Result<NodeLayer, ValueFault>
    ensures { GivesAs (λ l. numbers_of l kind.Array) g.new result
        ((array_layer (edges levels)).format.reads g.old.state g.old.at) }
{
    let item = inner_at(alloc, g, levels)?;
    let size = g.positive()?;
    Ok(NodeLayer::Items { item, size })
}

#[cycle(graph_reading)]
fn alias_at(
    alloc: Global,
    g: &mut GraphReader,
    levels: u32,
    at: Standing,
) -> Result<NodeLayer, ValueFault>
    ensures { GivesAs (λ l. numbers_of l kind.Alias) g.new result
        ((alias_layer (edges levels) at.mode at.chain (length g.old.state.table - 1)).format.reads
        g.old.state g.old.at) }
{
    let on = Standing {
        mode: under(at.mode),
        chain: Some(chain_start(at.chain, g.count())),
    };
    let (id, name) = g.header(alloc)?;
    let item = edge_at(alloc, g, levels, on)?;
    Ok(NodeLayer::Alias { id, name, item })
}

/// The first alias of the chain that goes on under the alias that was begun last of so many nodes.
fn chain_start(chain: Option<u32>, count: usize) -> u32
    requires { count ≤ 4096 }
    ensures { chain_under chain (count - 1) ≡ Some result }
{
    match chain {
        Some(first) => first,
        None => count.saturating_sub(1) as u32,
    }
}

#[cycle(graph_reading)]
fn union_at(alloc: Global, g: &mut GraphReader, levels: u32) -> Result<NodeLayer, ValueFault>
    ensures { GivesAs (λ l. numbers_of l kind.Union) g.new result
        ((union_layer (edges levels)).format.reads g.old.state g.old.at) }
{
    let (header, switch) = front_at(alloc, g, levels)?;
    let labels = g.discriminator(switch);
    let choices = choices_at(alloc, g, levels, labels)?;
    Ok(NodeLayer::Union {
        id: header.0,
        name: header.1,
        switch,
        default: choices.0,
        arms: choices.1,
    })
}

/// A union's id, name and discriminator.
#[cycle(graph_reading)]
fn front_at(
    alloc: Global,
    g: &mut GraphReader,
    levels: u32,
) -> Result<((Text, Text), u32), ValueFault>
    ensures { GivesOn g.new result
        ((lift header & edges levels Switch None).format.reads g.old.state g.old.at) }
{
    let header = g.header(alloc)?;
    let at = Standing {
        mode: Mode::Switch,
        chain: None,
    };
    let switch = edge_at(alloc, g, levels, at)?;
    Ok((header, switch))
}

/// A union's default index and its arms.
#[cycle(graph_reading)]
fn choices_at(
    alloc: Global,
    g: &mut GraphReader,
    levels: u32,
    labels: Discriminator,
) -> Result<(i32, List<(Value, (Text, u32))>), ValueFault>
    ensures read { GivesOn g.new result
        ((counted_arms (edges levels) (discriminator_label labels)).format.reads
        g.old.state g.old.at) }
    ensures fits { IfOk result (λ choices. FitsSigned w32 choices.0) }
{
    let head = g.head()?;
    let arms = arms_of(alloc, g, levels, labels, head.1)?;
    Ok((head.0, arms))
}

#[cycle(graph_reading)]
fn arms_of(
    alloc: Global,
    g: &mut GraphReader,
    levels: u32,
    labels: Discriminator,
    count: u32,
) -> Result<List<(Value, (Text, u32))>, ValueFault>
    ensures { GivesOn g.new result
        ((array (arm_node (edges levels) (discriminator_label labels)) count).format.reads
        g.old.state g.old.at) }
{
    let mut arms = List::new(alloc);
    for _ in 0..count {
        let arm = arm_at(alloc, g, levels, labels)?;
        arms.push(arm)?;
    }
    Ok(arms)
}

#[cycle(graph_reading)]
fn arm_at(
    alloc: Global,
    g: &mut GraphReader,
    levels: u32,
    labels: Discriminator,
) -> Result<(Value, (Text, u32)), ValueFault>
    ensures { GivesOn g.new result
        ((arm_node (edges levels) (discriminator_label labels)).format.reads g.old.state g.old.at) }
{
    let label = g.label(labels)?;
    match member_at(alloc, g, levels) {
        Ok(member) => Ok((label, member)),
        Err(fault) => {
            drop(label);
            Err(fault)
        }
    }
}
