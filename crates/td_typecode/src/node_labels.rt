//! A union's discriminator, from bytes, where the union is a node of a graph.

ghost use Rattle.std.specs.Prelude.{◌≡◌, ◌<◌, ◌≤◌, length};
ghost use Rattle.td_cdr.specs.Format.{Gives};
ghost use Rattle.td_cdr.specs.ValueFaults.{is_memory};
ghost use Rattle.td_typecode.specs.NodeLabels.{node_labels, label_at_node, label_behind, label_of_kind};
ghost use Rattle.td_typecode.specs.declared.kinds.CodeKind.TheVariants as kind;

use crate::code::Value;
use crate::kinds::{CodeKind, kind_of_number};
use crate::labels::one_of;
use crate::nodes::{has_item, value_count};
use crate::plain::{
    boolean_at, char_at, long_at, longlong_at, short_at, ulong_at, ulonglong_at, ushort_at,
};
use crate::reading::LEVELS;
use tc_edges::{Edge, SpelledGraph};
use td_cdr::{Reader, ValueFault};

/// A discriminator behind an edge of a union's node, from which edges that are no indirections lead
/// `depth` deep at most; `levels` indirections may be passed.
///
/// # Errors
///
/// `BadValue` for what is no value of the discriminator's type; `Depth` for an indirection too many, where
/// the value begins; `Cdr` where the input ends, or for a boolean above 1. It isn't said where the
/// reader then stands.
#[cycle(node_label)]
#[tactic(auto, unfolding(crate::specs::NodeLabels::label_behind))]
pub(crate) fn node_label_at(
    r: &mut Reader,
    levels: u32,
    depth: u32,
    graph: &SpelledGraph,
    edge: Edge,
) -> Result<Value, ValueFault>
    requires few { levels ≤ 16 }
    requires shallow { depth ≤ 16 }
    requires there { edge.place < length graph.now }
    ensures { Gives is_memory r.new result
        ((node_labels graph.now levels depth edge).format.reads r.old) }
{
    if !edge.is_indirection {
        return label_of_node_at(r, levels, depth, graph, edge.place);
    }
    if levels == 0 {
        return Err(ValueFault::Depth(r.place()));
    }
    label_of_node_at(r, levels - 1, LEVELS, graph, edge.place)
}

/// A discriminator at a node.
#[cycle(node_label)]
#[tactic(auto, unfolding(crate::specs::NodeLabels::label_at_node))]
fn label_of_node_at(
    r: &mut Reader,
    levels: u32,
    depth: u32,
    graph: &SpelledGraph,
    place: u32,
) -> Result<Value, ValueFault>
    requires few { levels ≤ 16 }
    requires shallow { depth ≤ 16 }
    requires there { place < length graph.now }
    ensures { Gives is_memory r.new result
        ((label_at_node graph.now (label_behind graph.now levels) depth place).format.reads r.old) }
{
    if depth == 0 {
        return Err(ValueFault::BadValue(r.aligned()));
    }
    match kind_of_number(graph.node(place).kind) {
        None => Err(ValueFault::BadValue(r.aligned())),
        Some(kind) => label_of_kind_at(r, levels, depth - 1, graph, place, kind),
    }
}

/// A discriminator at a node of this kind.
#[cycle(node_label)]
fn label_of_kind_at(
    r: &mut Reader,
    levels: u32,
    depth: u32,
    graph: &SpelledGraph,
    place: u32,
    kind: CodeKind,
) -> Result<Value, ValueFault>
    requires few { levels ≤ 16 }
    requires shallow { depth ≤ 16 }
    requires there { place < length graph.now }
    ensures { Gives is_memory r.new result
        ((label_of_kind graph.now levels depth place kind).format.reads r.old) }
{
    match kind {
        CodeKind::Short => short_at(r),
        CodeKind::Long => long_at(r),
        CodeKind::UShort => ushort_at(r),
        CodeKind::ULong => ulong_at(r),
        CodeKind::LongLong => longlong_at(r),
        CodeKind::ULongLong => ulonglong_at(r),
        CodeKind::Boolean => boolean_at(r),
        CodeKind::Char => char_at(r),
        CodeKind::Enum => one_of(r, value_count(graph.node(place))),
        CodeKind::Alias => label_of_alias_at(r, levels, depth, graph, place),
        _ => Err(ValueFault::BadValue(r.aligned())),
    }
}

/// A discriminator at an alias's node.
#[cycle(node_label)]
fn label_of_alias_at(
    r: &mut Reader,
    levels: u32,
    depth: u32,
    graph: &SpelledGraph,
    place: u32,
) -> Result<Value, ValueFault>
    requires few { levels ≤ 16 }
    requires shallow { depth ≤ 16 }
    requires there { place < length graph.now }
    ensures { Gives is_memory r.new result
        ((label_of_kind graph.now levels depth place kind.Alias).format.reads r.old) }
{
    if !has_item(graph.node(place)) {
        return Err(ValueFault::BadValue(r.aligned()));
    }
    node_label_at(r, levels, depth, graph, graph.edge(place, 0))
}
