//! The nodes of a TypeCode that was read with indirections, as those of a graph.

ghost use Rattle.std.specs.Prelude.{◌≡◌, ◌∷◌, ◌++◌, [], pos, map, IfOk, OnOk};
ghost use Rattle.tc_graph.specs.Nodes.{blank};
ghost use Rattle.td_typecode.specs.GraphNodes.{layer_node, node_of, with_names, with_members};
ghost use Rattle.td_typecode.specs.GraphNodes.{with_arms};
ghost use Rattle.td_typecode.specs.Kinds.{number_of};
ghost use Rattle.td_typecode.specs.Labels.{label_of};
ghost use Rattle.td_typecode.specs.NodeLayers.{known_node, known_nodes, numbers_of};
ghost use Rattle.td_typecode.specs.Same.{label_number};
ghost use Rattle.td_typecode.specs.WholeGraphs.{AreRead, graph_of};

use crate::code::Value;
use crate::kinds::CodeKind;
use crate::label::{Label, label_of};
use crate::node_layer::{BegunNode, NodeLayer};
use std::alloc::Global;
use tc_graph::{Edges, GraphFault, Name, Names, Node, Numbers, Whole};
use td_cdr::Text;

/// The graph of nodes that were read whole.
///
/// # Errors
///
/// `Memory` only when out of memory.
#[tactic(auto, using(crate::proofs::OfGraphNodes::graph_again))]
pub(crate) fn whole_of(alloc: Global, nodes: &[BegunNode]) -> Result<Whole, GraphFault>
    requires { AreRead (known_nodes nodes.now) }
    ensures { IfOk result (λ w. w ≡ graph_of (known_nodes nodes.now)) }
{
    let made = nodes_of(alloc, nodes)?;
    Ok(Whole::of(made))
}

fn nodes_of(alloc: Global, nodes: &[BegunNode]) -> Result<Vec<Node>, GraphFault>
    ensures { IfOk result (λ made. made.items ≡ map (λ b. node_of (known_node b)) nodes.now) }
{
    let mut made = Vec::new(alloc);
    for begun in nodes {
        let node = node_of(alloc, begun)?;
        made.push(node)?;
    }
    Ok(made)
}

fn node_of(alloc: Global, begun: &BegunNode) -> Result<Node, GraphFault>
    ensures { IfOk result (λ node. node ≡ node_of (known_node begun.now)) }
{
    let mut node = blank_node(alloc, begun.kind);
    match &begun.layer {
        Some(layer) => put_layer(alloc, &mut node, begun.kind, layer)?,
        None => (),
    }
    Ok(node)
}

/// A node that has its kind alone.
fn blank_node(alloc: Global, kind: CodeKind) -> Node
    ensures { result ≡ blank (number_of kind) }
{
    Node {
        kind: kind.number(),
        id: Name::new(alloc),
        names: Names::new(alloc),
        numbers: Numbers::new(alloc),
        edges: Edges::new(alloc),
    }
}

/// A layer of a kind, into a node that has this kind alone.
#[tactic(auto, using(crate::proofs::OfGraphNodes::leaf_blank, crate::proofs::OfGraphNodes::fields_node, crate::proofs::OfGraphNodes::items_node))]
fn put_layer(
    alloc: Global,
    node: &mut Node,
    kind: CodeKind,
    layer: &NodeLayer,
) -> Result<(), GraphFault>
    requires { node.old ≡ blank (number_of kind) }
    ensures { OnOk result (node.new ≡ layer_node (number_of kind) (numbers_of layer.now kind)) }
{
    match layer {
        NodeLayer::Leaf => Ok(()),
        NodeLayer::Str { bound } => add_number(node, i128::from(*bound)),
        NodeLayer::Items { item, size } => add_item(node, *item, *size),
        NodeLayer::ObjRef { id, name } => add_header(alloc, node, id, name),
        NodeLayer::Alias { id, name, item } => add_front(alloc, node, id, name, *item),
        NodeLayer::Enum { id, name, labels } => {
            add_header(alloc, node, id, name)?;
            add_names(alloc, node, labels.as_slice())
        }
        NodeLayer::Fields { id, name, members } => {
            add_header(alloc, node, id, name)?;
            add_members(alloc, node, members.as_slice())
        }
        NodeLayer::Union {
            id,
            name,
            switch,
            default,
            arms,
        } => {
            add_front(alloc, node, id, name, *switch)?;
            add_number(node, i128::from(*default))?;
            add_arms(alloc, node, arms.as_slice())
        }
    }
}

/// The bytes of a text.
fn name_of(alloc: Global, text: &Text) -> Result<Name, GraphFault>
    ensures { IfOk result (λ name. name ≡ text.now) }
{
    Name::from_slice(alloc, text.as_slice())
}

fn add_number(node: &mut Node, number: i128) -> Result<(), GraphFault>
    ensures { OnOk result (node.new ≡ record {
      kind = node.old.kind;
      id = node.old.id;
      names = node.old.names;
      numbers = node.old.numbers ++ number ∷ [];
      edges = node.old.edges;
    }) }
{
    node.numbers.push(number)
}

/// An edge, and a bound or length.
fn add_item(node: &mut Node, item: u32, size: u32) -> Result<(), GraphFault>
    ensures { OnOk result (node.new ≡ record {
      kind = node.old.kind;
      id = node.old.id;
      names = node.old.names;
      numbers = node.old.numbers ++ pos size ∷ [];
      edges = node.old.edges ++ item ∷ [];
    }) }
{
    node.edges.push(item)?;
    node.numbers.push(i128::from(size))
}

/// An id and a name.
fn add_header(alloc: Global, node: &mut Node, id: &Text, name: &Text) -> Result<(), GraphFault>
    ensures { OnOk result (node.new ≡ record {
      kind = node.old.kind;
      id = id.now;
      names = node.old.names ++ name.now ∷ [];
      numbers = node.old.numbers;
      edges = node.old.edges;
    }) }
{
    node.id = name_of(alloc, id)?;
    add_name(alloc, node, name)
}

fn add_name(alloc: Global, node: &mut Node, name: &Text) -> Result<(), GraphFault>
    ensures { OnOk result (node.new ≡ with_names node.old (name.now ∷ [])) }
{
    let name = name_of(alloc, name)?;
    node.names.push(name)
}

/// An id, a name and an edge.
fn add_front(
    alloc: Global,
    node: &mut Node,
    id: &Text,
    name: &Text,
    item: u32,
) -> Result<(), GraphFault>
    ensures { OnOk result (node.new ≡ record {
      kind = node.old.kind;
      id = id.now;
      names = node.old.names ++ name.now ∷ [];
      numbers = node.old.numbers;
      edges = node.old.edges ++ item ∷ [];
    }) }
{
    add_header(alloc, node, id, name)?;
    node.edges.push(item)
}

fn add_names(alloc: Global, node: &mut Node, names: &[Text]) -> Result<(), GraphFault>
    ensures { OnOk result (node.new ≡ with_names node.old names.now) }
{
    for name in names {
        add_name(alloc, node, name)?;
    }
    Ok(())
}

/// The names of members, and edges to their nodes.
fn add_members(alloc: Global, node: &mut Node, members: &[(Text, u32)]) -> Result<(), GraphFault>
    ensures { OnOk result (node.new ≡ with_members node.old members.now) }
{
    for member in members {
        add_member(alloc, node, member)?;
    }
    Ok(())
}

fn add_member(alloc: Global, node: &mut Node, member: &(Text, u32)) -> Result<(), GraphFault>
    ensures { OnOk result (node.new ≡ with_members node.old (member.now ∷ [])) }
{
    add_name(alloc, node, &member.0)?;
    node.edges.push(member.1)
}

/// The labels and the names of arms, and edges to their nodes.
fn add_arms(alloc: Global, node: &mut Node, arms: &[(Value, (Text, u32))]) -> Result<(), GraphFault>
    ensures { OnOk result (node.new ≡ with_arms node.old arms.now) }
{
    for arm in arms {
        add_arm(alloc, node, arm)?;
    }
    Ok(())
}

fn add_arm(alloc: Global, node: &mut Node, arm: &(Value, (Text, u32))) -> Result<(), GraphFault>
    ensures { OnOk result (node.new ≡ with_arms node.old (arm.now ∷ [])) }
{
    add_number(node, spelling(label_of(&arm.0)))?;
    add_member(alloc, node, &arm.1)
}

/// The number that spells a label.
fn spelling(label: Label) -> i128
    ensures { result ≡ pos (label_number label) }
{
    match label {
        Label::One(n) => i128::from(n),
        Label::Two(n) => i128::from(n),
        Label::Four(n) => i128::from(n),
        Label::Eight(n) => i128::from(n),
    }
}
