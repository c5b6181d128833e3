//! Whether a TypeCode that is no graph is the same as what stands at a place of a graph. This needs neither
//! memory nor a list of what was compared, since a TypeCode that is no graph comes to an end.

ghost use Rattle.std.specs.Prelude.{◌≡◌, ◌<◌, map, [], ◌∷◌, length};
ghost use Rattle.td_typecode.specs.declared.kinds.CodeKind.TheVariants as kind;
ghost use Rattle.td_typecode.specs.Kinds.{number_of};
ghost use Rattle.td_typecode.specs.Same.{alike_at, alike_node, alike_along, shape, row, member_entry, arm_entry};
ghost use Rattle.td_typecode.specs.Same.{entry_without_label, str_shape, object_shape, fields_shape, enum_shape};
ghost use Rattle.td_typecode.specs.Same.{items_shape};
ghost use Rattle.tc_graph.specs.Nodes.{node_at};
ghost use Rattle.tc_graph.specs.Aliases.{bare};
ghost use Rattle.td_sameness.specs.Graphs.{LeadsWithin, bare_agrees, first_alike, others_alike};

use crate::heads::{
    has_arms, has_members, has_none, has_one, is_headed, is_leaf, is_named, is_nameless,
};
use tc_graph::{Node, Whole};
use td_cdr::{Boxed, Text};
use td_typecode::{Arm, CodeKind, Member, TypeCode, kind_of};

/// Whether the TypeCode is the same as what stands at the place, at every depth. A graph is none.
#[cycle(placed)]
pub(crate) fn same_at(code: &TypeCode, graph: &Whole, place: u32) -> bool
    requires within { place < length graph.now }
    ensures { result ≡ alike_at graph.now (shape code.now) place }
{
    let node = bare_node(graph, place);
    match code {
        TypeCode::Alias { item, .. } => same_at(item.get(), graph, place),
        TypeCode::Str { bound } => is_str(*bound, graph, node),
        TypeCode::ObjRef { id, .. } => is_object(id, graph, node),
        TypeCode::Struct { id, members, .. } => is_struct(id, members.as_slice(), graph, node),
        TypeCode::Except { id, members, .. } => is_except(id, members.as_slice(), graph, node),
        TypeCode::Union {
            id,
            switch,
            default,
            arms,
            ..
        } => {
            let edges = node.edges.as_slice();
            has_arms(node, id.as_slice(), default, arms.as_slice())
                && (first_along(switch.get(), graph, edges)
                    && others_along(arms.as_slice(), graph, edges))
        }
        TypeCode::Enum { id, labels, .. } => is_enum(id, labels.len(), graph, node),
        TypeCode::Sequence { item, bound } => is_sequence(item.get(), *bound, graph, node),
        TypeCode::Array { item, len } => is_array(item.get(), *len, graph, node),
        TypeCode::Linked(_) => false,
        _ => is_plain(kind_of(code), graph, node),
    }
}

/// The node that a place stands for once all aliases are removed.
fn bare_node(graph: &Whole, place: u32) -> &Node
    requires within { place < length graph.now }
    ensures value { result.now ≡ node_at graph.now (bare graph.now place) }
    ensures edges { LeadsWithin graph.now result.now.edges }
{
    match graph.node(graph.bare(place)) {
        Some(node) => node,
        None => unreachable!(),
    }
}

/// Of the kinds that have no parameters.
fn is_plain(kind: CodeKind, graph: &Whole, node: &Node) -> bool
    ensures { result ≡ bare_agrees graph.now (number_of kind) node.now }
{
    is_headed(node, kind, b"") && is_nameless(node) && has_none(node) && is_leaf(graph, node)
}

fn is_str(bound: u32, graph: &Whole, node: &Node) -> bool
    ensures { result ≡ alike_node graph.now (str_shape bound) node.now }
{
    is_headed(node, CodeKind::Str, b"")
        && is_nameless(node)
        && has_one(node, bound)
        && is_leaf(graph, node)
}

fn is_object(id: &Boxed<Text>, graph: &Whole, node: &Node) -> bool
    ensures { result ≡ alike_node graph.now (object_shape id.now) node.now }
{
    is_headed(node, CodeKind::ObjRef, id.as_slice())
        && is_named(node, 0)
        && has_none(node)
        && is_leaf(graph, node)
}

fn is_enum(id: &Boxed<Text>, count: usize, graph: &Whole, node: &Node) -> bool
    ensures { result ≡ alike_node graph.now (enum_shape id.now count) node.now }
{
    is_headed(node, CodeKind::Enum, id.as_slice())
        && is_named(node, count)
        && has_none(node)
        && is_leaf(graph, node)
}

#[cycle(placed)]
fn is_struct(id: &Boxed<Text>, members: &[Member], graph: &Whole, node: &Node) -> bool
    requires within { LeadsWithin graph.now node.now.edges }
    ensures { result ≡ alike_node graph.now
        (fields_shape kind.Struct id.now (map member_entry members.now)) node.now }
{
    has_members(node, CodeKind::Struct, id.as_slice(), members)
        && members_along(members, graph, node.edges.as_slice())
}

#[cycle(placed)]
fn is_except(id: &Boxed<Text>, members: &[Member], graph: &Whole, node: &Node) -> bool
    requires within { LeadsWithin graph.now node.now.edges }
    ensures { result ≡ alike_node graph.now
        (fields_shape kind.Except id.now (map member_entry members.now)) node.now }
{
    has_members(node, CodeKind::Except, id.as_slice(), members)
        && members_along(members, graph, node.edges.as_slice())
}

#[cycle(placed)]
fn is_sequence(item: &TypeCode, bound: u32, graph: &Whole, node: &Node) -> bool
    requires within { LeadsWithin graph.now node.now.edges }
    ensures { result ≡ alike_node graph.now (items_shape kind.Sequence (shape item.now) bound)
        node.now }
{
    is_headed(node, CodeKind::Sequence, b"")
        && is_nameless(node)
        && has_one(node, bound)
        && item_along(item, graph, node.edges.as_slice())
}

#[cycle(placed)]
fn is_array(item: &TypeCode, len: u32, graph: &Whole, node: &Node) -> bool
    requires within { LeadsWithin graph.now node.now.edges }
    ensures { result ≡ alike_node graph.now (items_shape kind.Array (shape item.now) len) node.now }
{
    is_headed(node, CodeKind::Array, b"")
        && is_nameless(node)
        && has_one(node, len)
        && item_along(item, graph, node.edges.as_slice())
}

/// Whether there is one edge, to what is the same as the item.
#[cycle(placed)]
fn item_along(item: &TypeCode, graph: &Whole, edges: &[u32]) -> bool
    requires within { LeadsWithin graph.now edges.now }
    ensures { result ≡ alike_along graph.now (row (entry_without_label (shape item.now) ∷ []))
        edges.now }
{
    match edges {
        [edge] => same_at(item, graph, *edge),
        _ => false,
    }
}

/// Whether the first edge leads to what is the same as the item.
#[cycle(placed)]
fn first_along(item: &TypeCode, graph: &Whole, edges: &[u32]) -> bool
    requires within { LeadsWithin graph.now edges.now }
    ensures { result ≡ first_alike graph.now (shape item.now) edges.now }
{
    match edges {
        [first, ..] => same_at(item, graph, *first),
        _ => false,
    }
}

/// Whether there are as many edges behind the first one, to what is the same as the arms in order.
#[cycle(placed)]
#[tactic(auto, using(crate::proofs::Along::behind_first, crate::proofs::Along::others_along))]
fn others_along(arms: &[Arm], graph: &Whole, edges: &[u32]) -> bool
    requires within { LeadsWithin graph.now edges.now }
    ensures { result ≡ others_alike graph.now (row (map arm_entry arms.now)) edges.now }
{
    match edges {
        [_first, others @ ..] => arms_along(arms, graph, others),
        _ => false,
    }
}

/// Whether there are as many edges, to what is the same as the members in order.
#[cycle(placed)]
fn members_along(members: &[Member], graph: &Whole, edges: &[u32]) -> bool
    requires within { LeadsWithin graph.now edges.now }
    ensures { result ≡ alike_along graph.now (row (map member_entry members.now)) edges.now }
{
    if members.len() != edges.len() {
        return false;
    }
    for i in 0..members.len() {
        if !member_at(&members[i], graph, edges[i]) {
            return false;
        }
    }
    true
}

#[cycle(placed)]
fn member_at(member: &Member, graph: &Whole, place: u32) -> bool
    requires within { place < length graph.now }
    ensures { result ≡ alike_at graph.now (member_entry member.now).shape place }
{
    same_at(&member.code, graph, place)
}

/// Whether there are as many edges, to what is the same as the arms in order.
#[cycle(placed)]
fn arms_along(arms: &[Arm], graph: &Whole, edges: &[u32]) -> bool
    requires within { LeadsWithin graph.now edges.now }
    ensures { result ≡ alike_along graph.now (row (map arm_entry arms.now)) edges.now }
{
    if arms.len() != edges.len() {
        return false;
    }
    for i in 0..arms.len() {
        if !arm_at(&arms[i], graph, edges[i]) {
            return false;
        }
    }
    true
}

#[cycle(placed)]
fn arm_at(arm: &Arm, graph: &Whole, place: u32) -> bool
    requires within { place < length graph.now }
    ensures { result ≡ alike_at graph.now (arm_entry arm.now).shape place }
{
    same_at(&arm.code, graph, place)
}
