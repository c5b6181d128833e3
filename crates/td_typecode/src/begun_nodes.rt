//! The nodes of a TypeCode with indirections that were begun so far. A node's number is how many
//! were begun before it.

ghost use Rattle.std.specs.Prelude.{◌≡◌, ◌<◌, ◌≤◌, ◌^◌, length, map, slice_index};
ghost use Rattle.std.specs.Prelude.{Option, None, Some, option_copied, slice_get, if◌then◌else◌};
ghost use Rattle.td_indirection.specs.States.{put};
ghost use Rattle.td_indirection.specs.Indirections.{number_from};
ghost use Rattle.td_typecode.specs.GraphCodes.{most_nodes};
ghost use Rattle.td_typecode.specs.Known.{node_with_layer, kind_known, item_of, is_alias, bare_number};
ghost use Rattle.td_typecode.specs.NodeLayers.{numbers_of, known_node, begun_slot, known_nodes};
ghost use Rattle.td_typecode.specs.NodeLayers.{node_places};
ghost use Rattle.td_typecode.specs.NodeReading.{alias_at, item_read, read_alias, discriminator_of};
ghost use Rattle.td_typecode.specs.NodeReading.{discriminator_in};
ghost use Rattle.td_typecode.specs.NodeReading.{bare_discriminator, discriminator_read, refused_target};
ghost use Rattle.td_typecode.specs.NodeLayers.{leaf_numbers};
ghost use Rattle.td_cdr.specs.Format.{nth};

use crate::kinds::{CodeKind, may_stand};
use crate::mode::Mode;
use crate::node_layer::{BegunNode, Discriminator, NodeLayer};

/// How many nodes a TypeCode with indirections has at most.
pub(crate) const MOST_NODES: usize = 4096;

/// The first of these nodes from which so many bytes lead to a place.
pub(crate) fn first_leading(nodes: &[BegunNode], place: u32, distance: u64) -> Option<u32>
    requires few { length nodes.now ≤ most_nodes }
    requires short { distance ≤ 2 ^ 32 }
    ensures { result ≡ number_from 0 (map (λ b. b.place) nodes.now) distance place }
{
    for number in 0..nodes.len() {
        if u64::from(nodes[number].place) + distance == u64::from(place) {
            return Some(number as u32);
        }
    }
    None
}

/// The node of a number, where there is one.
fn node_of(nodes: &[BegunNode], number: u32) -> Option<&BegunNode>
    ensures { option_copied result ≡ slice_get nodes.now number }
{
    nodes.get(number as usize)
}

/// Where a node's kind stands, counted as its place is; 0 for a number that no node has.
#[tactic(auto, using(crate::proofs::OfBegunNodes::place_got, crate::proofs::OfBegunNodes::place_none))]
pub(crate) fn place_of(nodes: &[BegunNode], number: u32) -> u32
    ensures { result ≡ slice_index (node_places nodes.now) number }
{
    match node_of(nodes, number) {
        Some(node) => node.place,
        None => 0,
    }
}

/// The kind of a node; null for a number that no node has.
#[tactic(auto, using(crate::proofs::OfBegunNodes::kind_got, crate::proofs::OfBegunNodes::kind_none))]
fn kind_of(nodes: &[BegunNode], number: u32) -> CodeKind
    ensures { result ≡ kind_known (nth (known_nodes nodes.now) number) }
{
    match node_of(nodes, number) {
        Some(node) => node.kind,
        None => CodeKind::Null,
    }
}

/// The item of a node that is an alias; of one that is being read, the node that begins next.
#[tactic(auto, using(crate::proofs::OfBegunNodes::alias_got, crate::proofs::OfBegunNodes::alias_none, crate::proofs::OfBegunNodes::number_low))]
fn alias_of(nodes: &[BegunNode], number: u32) -> Option<u32>
    requires few { length nodes.now ≤ most_nodes }
    ensures { result ≡ alias_at (known_nodes nodes.now) number }
{
    match node_of(nodes, number) {
        Some(node) => alias_item(node, number),
        None => None,
    }
}

/// The item of an alias; of one that is being read, the node that begins next.
fn alias_item(node: &BegunNode, number: u32) -> Option<u32>
    requires { number < most_nodes }
    ensures { result ≡ (if is_alias node.now.kind
        then Some (item_of (known_node node.now).layer number) else None) }
{
    match node.kind {
        CodeKind::Alias => match &node.layer {
            Some(layer) => match layer {
                NodeLayer::Alias { item, .. } => Some(*item),
                _ => Some(number + 1),
            },
            None => Some(number + 1),
        },
        _ => None,
    }
}

/// The node without aliases, behind so many of them at most.
#[tactic(auto, using(crate::proofs::OfBegunNodes::bare_on, crate::proofs::OfBegunNodes::bare_off))]
fn bare(nodes: &[BegunNode], aliases: usize, number: u32) -> u32
    requires few { length nodes.now ≤ most_nodes }
    ensures { result ≡ bare_number aliases (known_nodes nodes.now) number }
{
    if aliases == 0 {
        return number;
    }
    match alias_of(nodes, number) {
        Some(item) => bare(nodes, aliases - 1, item),
        None => number,
    }
}

/// The node without aliases, where an indirection to this node may not stand.
pub(crate) fn refused_target(nodes: &[BegunNode], mode: Mode, number: u32) -> Option<u32>
    requires few { length nodes.now ≤ most_nodes }
    ensures { result ≡ refused_target mode (known_nodes nodes.now) number }
{
    match mode {
        Mode::Switch => {
            let last = bare(nodes, nodes.len(), number);
            if may_stand(Mode::Switch, kind_of(nodes, last)) {
                None
            } else {
                Some(last)
            }
        }
        Mode::Inner => None,
        Mode::Outer => None,
    }
}

/// The item of an alias that was read whole.
#[tactic(auto, using(crate::proofs::OfBegunNodes::leaf_none, crate::proofs::OfBegunNodes::fields_none, crate::proofs::OfBegunNodes::items_none))]
fn item_read(node: &BegunNode) -> Option<u32>
    ensures { result ≡ item_read (known_node node.now).layer }
{
    match &node.layer {
        Some(layer) => match layer {
            NodeLayer::Leaf => None,
            NodeLayer::Str { .. } => None,
            NodeLayer::ObjRef { .. } => None,
            NodeLayer::Enum { .. } => None,
            NodeLayer::Fields { .. } => None,
            NodeLayer::Union { .. } => None,
            NodeLayer::Items { .. } => None,
            NodeLayer::Alias { item, .. } => Some(*item),
        },
        None => None,
    }
}

/// The item of a node that is an alias and was read whole.
#[tactic(auto, using(crate::proofs::OfBegunNodes::read_got, crate::proofs::OfBegunNodes::read_none))]
fn read_alias(nodes: &[BegunNode], number: u32) -> Option<u32>
    ensures { result ≡ read_alias (known_nodes nodes.now) number }
{
    match node_of(nodes, number) {
        Some(node) => item_read(node),
        None => None,
    }
}

/// What discriminates a union whose discriminator is this node, behind so many aliases at most.
#[tactic(auto, using(crate::proofs::OfBegunNodes::switch_on, crate::proofs::OfBegunNodes::switch_off))]
pub(crate) fn discriminator(nodes: &[BegunNode], aliases: usize, number: u32) -> Discriminator
    ensures { result ≡ discriminator_in aliases (known_nodes nodes.now) number }
{
    if aliases == 0 {
        return Discriminator::Other;
    }
    match read_alias(nodes, number) {
        Some(item) => discriminator(nodes, aliases - 1, item),
        None => bare_discriminator(nodes, number),
    }
}

/// The same of a node that is no alias.
#[tactic(auto, using(crate::proofs::OfBegunNodes::switch_got, crate::proofs::OfBegunNodes::switch_none))]
fn bare_discriminator(nodes: &[BegunNode], number: u32) -> Discriminator
    ensures { result ≡ bare_discriminator (known_nodes nodes.now) number }
{
    match node_of(nodes, number) {
        Some(node) => node_discriminator(node),
        None => Discriminator::Other,
    }
}

fn node_discriminator(node: &BegunNode) -> Discriminator
    ensures { result ≡ discriminator_read (known_node node.now).layer }
{
    match &node.layer {
        Some(layer) => layer_discriminator(node.kind, layer),
        None => Discriminator::Other,
    }
}

#[tactic(auto, using(crate::proofs::OfBegunNodes::fields_other, crate::proofs::OfBegunNodes::items_other))]
fn layer_discriminator(kind: CodeKind, layer: &NodeLayer) -> Discriminator
    ensures { result ≡ discriminator_of (numbers_of layer.now kind) }
{
    match layer {
        NodeLayer::Leaf => leaf_discriminator(kind),
        NodeLayer::Str { .. } => Discriminator::Other,
        NodeLayer::ObjRef { .. } => Discriminator::Other,
        NodeLayer::Enum { labels, .. } => Discriminator::Names(labels.len()),
        NodeLayer::Fields { .. } => Discriminator::Other,
        NodeLayer::Union { .. } => Discriminator::Other,
        NodeLayer::Items { .. } => Discriminator::Other,
        NodeLayer::Alias { .. } => Discriminator::Other,
    }
}

fn leaf_discriminator(kind: CodeKind) -> Discriminator
    ensures { result ≡ discriminator_of (leaf_numbers kind) }
{
    match kind {
        CodeKind::Short => Discriminator::Plain(kind),
        CodeKind::Long => Discriminator::Plain(kind),
        CodeKind::UShort => Discriminator::Plain(kind),
        CodeKind::ULong => Discriminator::Plain(kind),
        CodeKind::LongLong => Discriminator::Plain(kind),
        CodeKind::ULongLong => Discriminator::Plain(kind),
        CodeKind::Boolean => Discriminator::Plain(kind),
        CodeKind::Char => Discriminator::Plain(kind),
        _ => Discriminator::Other,
    }
}

/// The parameters of a node that was begun are read.
#[tactic(auto, using(crate::proofs::OfBegunNodes::put_set))]
pub(crate) fn fill_node(nodes: &mut Vec<BegunNode>, number: u32, kind: CodeKind, layer: NodeLayer)
    requires { number < length nodes.old.items }
    ensures filled { map begun_slot nodes.new.items
        ≡ put (map begun_slot nodes.old.items) number
        (node_with_layer kind (numbers_of layer kind)) }
    ensures many { length nodes.new.items ≡ length nodes.old.items }
{
    let place = nodes[number as usize].place;
    nodes[number as usize] = BegunNode {
        place,
        kind,
        layer: Some(layer),
    };
}
