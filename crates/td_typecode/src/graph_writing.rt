//! TypeCodes with indirections to bytes. Where a call fails, some bytes may be written behind the
//! others.

ghost use Rattle.std.specs.Prelude.{◌≡◌, ◌+◌, ◌-◌, ◌<◌, ◌^◌, IfOk, length, map, slice_index};
ghost use Rattle.std.specs.Int.{w32, cast_unsigned};
ghost use Rattle.std.specs.Int.RustNames.{FitsSigned};
ghost use Rattle.td_cdr.specs.Format.{row, ◌then◌, number, text, Puts};
ghost use Rattle.tc_graph.specs.Nodes.{edge};
ghost use Rattle.td_typecode.specs.GraphKnown.{known_of, kind_of_number, own_name, behind_first};
ghost use Rattle.td_typecode.specs.GraphKnown.{natural, number_or_zero};
ghost use Rattle.td_typecode.specs.GraphKnown.{members_of, switch_in};
ghost use Rattle.td_typecode.specs.Labels.{label_of, label_piece};
ghost use Rattle.td_typecode.specs.NodeWriting.{PutsPlaced, long_place, long_placed};
ghost use Rattle.td_typecode.specs.NodeWriting.{indirection_placed, edge_placed};
ghost use Rattle.td_typecode.specs.NodeWriting.{node_placed, layer_placed, inside_placed};
ghost use Rattle.td_typecode.specs.NodeWriting.{enclosed_piece, enum_piece};
ghost use Rattle.td_typecode.specs.NodeWriting.{and_then, fields_placed, members_placed};
ghost use Rattle.td_typecode.specs.NodeWriting.{member_placed, front_placed};
ghost use Rattle.td_typecode.specs.NodeWriting.{items_placed, arms_placed, row_of_members};
ghost use Rattle.td_typecode.specs.NodeWriting.{row_of_arms, node_layer};
ghost use Rattle.td_typecode.specs.NodeWriting.{name_at, arms_in, arm_total, label_number_at};
ghost use Rattle.td_typecode.specs.ReadNodes.{value_of_number};
ghost use Rattle.td_typecode.specs.WritingCodes.{header_piece, head_piece};
ghost use Rattle.td_typecode.specs.declared.label.Label.TheVariants as spelled;

use crate::kinds::{CodeKind, INDIRECTION, kind_of_number};
use crate::label::Label;
use crate::writing::{write_count, write_label};
use std::alloc::Global;
use tc_graph::{Name, Names, Node, Whole};
use td_cdr::{List, Memory, Writer};

/// Where the places of the present encapsulation begin, counted from where alignment does outside
/// the outermost TypeCode, and how many levels may stand in it.
#[derive(Clone, Copy)]
pub(crate) struct Inside {
    pub(crate) alloc: Global,
    pub(crate) base: u64,
    pub(crate) levels: u32,
}

/// Where the next unsigned long stands.
fn long_place(w: &Writer, base: u64) -> Result<u64, Memory>
    ensures { IfOk result (λ p. p ≡ long_place base (length w.now.bytes)) }
{
    let len = w.len();
    let padding = (4 - len % 4) % 4;
    match base.checked_add((len + padding) as u64) {
        Some(place) => Ok(place),
        None => Err(Memory),
    }
}

/// The kind of a number; null where no kind has it.
fn kind_by(number: u32) -> CodeKind
    ensures { result ≡ kind_of_number number }
{
    match kind_of_number(number) {
        Some(kind) => kind,
        None => CodeKind::Null,
    }
}

/// An edge: a node that has the next number is spelled, any other edge is an indirection. `places`
/// are those of the kinds that were written.
///
/// # Errors
///
/// `Memory` when out of memory or of room, and for numbers that no graph has that was read.
#[cycle(graph_writing)]
pub(crate) fn write_edge(
    w: &mut Writer,
    places: &mut List<u64>,
    graph: &Whole,
    at: Inside,
    number: u32,
) -> Result<(), Memory>
    ensures { PutsPlaced (edge_placed at.levels (known_of graph.now) number) at.base
        places.old places.new w.old w.new result }
{
    if at.levels == 0 {
        return w.u32(CodeKind::Null.number());
    }
    if number as usize != places.len() {
        return write_indirection(w, places, at.base, number);
    }
    match graph.node(number) {
        Some(node) => write_node(w, places, graph, at, node),
        None => write_indirection(w, places, at.base, number),
    }
}

/// The number that an indirection begins with, and the long that leads to the node.
fn write_indirection(
    w: &mut Writer,
    places: &List<u64>,
    base: u64,
    number: u32,
) -> Result<(), Memory>
    ensures { PutsPlaced (indirection_placed number) base places.now places.now w.old w.new result }
{
    w.u32(INDIRECTION)?;
    write_long(w, places, base, number)
}

/// The long that leads to the node.
fn write_long(w: &mut Writer, places: &List<u64>, base: u64, number: u32) -> Result<(), Memory>
    ensures { PutsPlaced (long_placed number) base places.now places.now w.old w.new result }
{
    let here = long_place(w, base)?;
    let there = place_at(places, number);
    w.u32(long_to(here, there)?)
}

/// Where the kind of a node stands; 0 for one that was not written.
#[tactic(auto, using(crate::proofs::PlacedWriting::place_there, crate::proofs::PlacedWriting::place_gone))]
fn place_at(places: &List<u64>, number: u32) -> u64
    ensures { result ≡ slice_index places.now number }
{
    match places.get(number as usize) {
        Some(place) => *place,
        None => 0,
    }
}

/// The long that leads from one place to another before it, in two's complement.
fn long_to(here: u64, there: u64) -> Result<u32, Memory>
    ensures { IfOk result (λ n. n ≡ 2 ^ 32 - (here - there)) }
{
    if here <= there {
        return Err(Memory);
    }
    Ok((1u64 << 32).saturating_sub(here - there) as u32)
}

#[cycle(graph_writing)]
fn write_node(
    w: &mut Writer,
    places: &mut List<u64>,
    graph: &Whole,
    at: Inside,
    node: &Node,
) -> Result<(), Memory>
    requires { 0 < at.levels }
    ensures { PutsPlaced (node_placed (edge_placed (at.levels - 1) (known_of graph.now)) graph.now
        node.now)
        at.base places.old places.new w.old w.new result }
{
    let place = long_place(w, at.base)?;
    places.push(place)?;
    w.u32(kind_by(node.kind).number())?;
    let inside = Inside {
        alloc: at.alloc,
        base: at.base,
        levels: at.levels - 1,
    };
    write_parameters(w, places, graph, inside, node)
}

/// What stands behind the kind of a node.
#[cycle(graph_writing)]
fn write_parameters(
    w: &mut Writer,
    places: &mut List<u64>,
    graph: &Whole,
    at: Inside,
    node: &Node,
) -> Result<(), Memory>
    ensures { PutsPlaced (layer_placed (edge_placed at.levels (known_of graph.now))
        (node_layer graph.now node.now))
        at.base places.old places.new w.old w.new result }
{
    match kind_by(node.kind) {
        CodeKind::Null => Ok(()),
        CodeKind::Void => Ok(()),
        CodeKind::Short => Ok(()),
        CodeKind::Long => Ok(()),
        CodeKind::UShort => Ok(()),
        CodeKind::ULong => Ok(()),
        CodeKind::Boolean => Ok(()),
        CodeKind::Char => Ok(()),
        CodeKind::Octet => Ok(()),
        CodeKind::AnyCode => Ok(()),
        CodeKind::Code => Ok(()),
        CodeKind::LongLong => Ok(()),
        CodeKind::ULongLong => Ok(()),
        CodeKind::Str => write_size(w, node),
        _ => write_enclosed(w, places, graph, at, node),
    }
}

/// The encapsulation behind the kind of a node.
#[cycle(graph_writing)]
fn write_enclosed(
    w: &mut Writer,
    places: &mut List<u64>,
    graph: &Whole,
    at: Inside,
    node: &Node,
) -> Result<(), Memory>
    ensures { PutsPlaced (enclosed_piece (inside_placed (edge_placed at.levels (known_of graph.now))
        (node_layer graph.now node.now)))
        at.base places.old places.new w.old w.new result }
{
    let inside = Inside {
        alloc: at.alloc,
        base: base_behind(w, at.base)?,
        levels: at.levels,
    };
    let mut inner = Writer::inside(at.alloc, w.order())?;
    write_inside(&mut inner, places, graph, inside, node)?;
    w.octets(inner.bytes())
}

/// Where the places of the encapsulation begin whose length stands next.
fn base_behind(w: &Writer, base: u64) -> Result<u64, Memory>
    ensures { IfOk result (λ p. p ≡ long_place base (length w.now.bytes) + 4) }
{
    let place = long_place(w, base)?;
    match place.checked_add(4) {
        Some(base) => Ok(base),
        None => Err(Memory),
    }
}

/// What stands in the encapsulation behind the kind of a node.
#[cycle(graph_writing)]
fn write_inside(
    w: &mut Writer,
    places: &mut List<u64>,
    graph: &Whole,
    at: Inside,
    node: &Node,
) -> Result<(), Memory>
    ensures { PutsPlaced (inside_placed (edge_placed at.levels (known_of graph.now))
        (node_layer graph.now node.now))
        at.base places.old places.new w.old w.new result }
{
    match kind_by(node.kind) {
        CodeKind::ObjRef => write_header(w, node),
        CodeKind::Struct => write_fields(w, places, graph, at, node),
        CodeKind::Except => write_fields(w, places, graph, at, node),
        CodeKind::Union => write_union(w, places, graph, at, node),
        CodeKind::Enum => write_enum(w, node),
        CodeKind::Sequence => write_items(w, places, graph, at, node),
        CodeKind::Array => write_items(w, places, graph, at, node),
        CodeKind::Alias => write_front(w, places, graph, at, node),
        _ => Ok(()),
    }
}

/// The id and the name of its own.
fn write_header(w: &mut Writer, node: &Node) -> Result<(), Memory>
    ensures { Puts (header_piece node.now.id (own_name node.now.names)) w.old w.new result }
{
    w.string(node.id.as_slice())?;
    w.string(own_name(node))
}

/// The name of its own, or an empty one.
#[tactic(auto, using(crate::proofs::PlacedWriting::own_there, crate::proofs::PlacedWriting::own_gone))]
fn own_name(node: &Node) -> &[u8]
    ensures { result.now ≡ own_name node.now.names }
{
    match node.names.get(0) {
        Some(name) => name.as_slice(),
        None => &[],
    }
}

/// An enumeration's id, name and names.
fn write_enum(w: &mut Writer, node: &Node) -> Result<(), Memory>
    ensures { Puts (enum_piece node.now.id (own_name node.now.names) (behind_first node.now.names))
        w.old w.new result }
{
    write_header(w, node)?;
    write_names(w, node)
}

fn write_names(w: &mut Writer, node: &Node) -> Result<(), Memory>
    ensures { Puts ((number 4).writes (length (behind_first node.now.names))
        then row (map text.writes (behind_first node.now.names))) w.old w.new result }
{
    let names = names_behind(&node.names);
    put_count(w, names.len())?;
    write_each_name(w, names)
}

/// A number of items.
#[tactic(auto, using(crate::proofs::PlacedWriting::puts_appended))]
fn put_count(w: &mut Writer, count: usize) -> Result<(), Memory>
    ensures { Puts ((number 4).writes count) w.old w.new result }
{
    write_count(w, count)
}

/// A default index, and the number of arms.
fn write_head(w: &mut Writer, default: &i32, count: usize) -> Result<(), Memory>
    ensures { Puts (head_piece default.now count) w.old w.new result }
{
    put_index(w, default)?;
    put_count(w, count)
}

/// A default index, in two's complement.
fn put_index(w: &mut Writer, default: &i32) -> Result<(), Memory>
    ensures { Puts ((number 4).writes (cast_unsigned w32 default.now)) w.old w.new result }
{
    let index = *default;
    w.u32(index.cast_unsigned())
}

/// The names of a node behind its own.
fn names_behind(names: &Names) -> &[Name]
    ensures { result.now ≡ behind_first names.now }
{
    match names.as_slice().split_first() {
        Some((_own, names)) => names,
        None => &[],
    }
}

fn write_each_name(w: &mut Writer, names: &[Name]) -> Result<(), Memory>
    ensures { Puts (row (map text.writes names.now)) w.old w.new result }
{
    for name in names {
        write_name(w, name)?;
    }
    Ok(())
}

fn write_name(w: &mut Writer, name: &Name) -> Result<(), Memory>
    ensures { Puts (text.writes name.now) w.old w.new result }
{
    w.string(name.as_slice())
}

/// The name at an index, or an empty one.
#[tactic(auto, using(crate::proofs::PlacedWriting::name_there, crate::proofs::PlacedWriting::name_gone))]
fn name_of(names: &Names, index: usize) -> &[u8]
    ensures { result.now ≡ name_at names.now index }
{
    match names.get(index) {
        Some(name) => name.as_slice(),
        None => &[],
    }
}

/// The node to which an edge leads.
#[tactic(auto, using(crate::proofs::PlacedWriting::place_there, crate::proofs::PlacedWriting::place_gone))]
fn edge_of(node: &Node, index: usize) -> u32
    ensures { result ≡ edge node.now index }
{
    match node.edges.get(index) {
        Some(number) => *number,
        None => 0,
    }
}

/// A string's bound.
fn write_size(w: &mut Writer, node: &Node) -> Result<(), Memory>
    ensures { Puts ((number 4).writes (natural (number_or_zero node.now.numbers)))
        w.old w.new result }
{
    w.u32(size_of(node)?)
}

/// The bound or length.
fn size_of(node: &Node) -> Result<u32, Memory>
    ensures { IfOk result (λ n. n ≡ natural (number_or_zero node.now.numbers)) }
{
    let size = natural(first_number(node))?;
    if size > u64::from(u32::MAX) {
        return Err(Memory);
    }
    Ok(size as u32)
}

/// The first number, or 0.
#[tactic(auto, using(crate::proofs::PlacedWriting::first_there, crate::proofs::PlacedWriting::first_gone))]
fn first_number(node: &Node) -> i128
    ensures { result ≡ number_or_zero node.now.numbers }
{
    match node.numbers.get(0) {
        Some(number) => *number,
        None => 0,
    }
}

/// The parameters of a sequence or an array.
#[cycle(graph_writing)]
fn write_items(
    w: &mut Writer,
    places: &mut List<u64>,
    graph: &Whole,
    at: Inside,
    node: &Node,
) -> Result<(), Memory>
    ensures { PutsPlaced (items_placed (edge_placed at.levels (known_of graph.now))
        (edge node.now 0)
        (natural (number_or_zero node.now.numbers)))
        at.base places.old places.new w.old w.new result }
{
    write_edge(w, places, graph, at, edge_of(node, 0))?;
    write_size(w, node)
}

/// An alias's parameters, and a union's up to its discriminator.
#[cycle(graph_writing)]
fn write_front(
    w: &mut Writer,
    places: &mut List<u64>,
    graph: &Whole,
    at: Inside,
    node: &Node,
) -> Result<(), Memory>
    ensures { PutsPlaced (front_placed (edge_placed at.levels (known_of graph.now)) node.now.id
        (own_name node.now.names) (edge node.now 0))
        at.base places.old places.new w.old w.new result }
{
    write_header(w, node)?;
    write_edge(w, places, graph, at, edge_of(node, 0))
}

/// The parameters of a structure or an exception.
#[cycle(graph_writing)]
fn write_fields(
    w: &mut Writer,
    places: &mut List<u64>,
    graph: &Whole,
    at: Inside,
    node: &Node,
) -> Result<(), Memory>
    ensures { PutsPlaced (fields_placed (edge_placed at.levels (known_of graph.now)) node.now.id
        (own_name node.now.names) (members_of (behind_first node.now.names) node.now.edges))
        at.base places.old places.new w.old w.new result }
{
    write_header(w, node)?;
    write_members(w, places, graph, at, node)
}

/// Counted members.
#[cycle(graph_writing)]
fn write_members(
    w: &mut Writer,
    places: &mut List<u64>,
    graph: &Whole,
    at: Inside,
    node: &Node,
) -> Result<(), Memory>
    ensures { PutsPlaced (members_placed (edge_placed at.levels (known_of graph.now))
        (members_of (behind_first node.now.names) node.now.edges))
        at.base places.old places.new w.old w.new result }
{
    put_count(w, member_count(node))?;
    write_each_member(w, places, graph, at, node)
}

/// How many members there are: as many as names behind its own, and edges.
#[tactic(auto, using(crate::proofs::PlacedWriting::member_count))]
fn member_count(node: &Node) -> usize
    ensures { result ≡ length (members_of (behind_first node.now.names) node.now.edges) }
{
    let names = node.names.len().saturating_sub(1);
    names.min(node.edges.len())
}

#[cycle(graph_writing)]
fn write_each_member(
    w: &mut Writer,
    places: &mut List<u64>,
    graph: &Whole,
    at: Inside,
    node: &Node,
) -> Result<(), Memory>
    ensures { PutsPlaced (row_of_members (edge_placed at.levels (known_of graph.now))
        (members_of (behind_first node.now.names) node.now.edges))
        at.base places.old places.new w.old w.new result }
{
    for index in 0..member_count(node) {
        let name = name_of(&node.names, index + 1);
        write_member(w, places, graph, at, name, edge_of(node, index))?;
    }
    Ok(())
}

/// A name and an edge.
#[cycle(graph_writing)]
fn write_member(
    w: &mut Writer,
    places: &mut List<u64>,
    graph: &Whole,
    at: Inside,
    name: &[u8],
    number: u32,
) -> Result<(), Memory>
    ensures { PutsPlaced (member_placed (edge_placed at.levels (known_of graph.now))
        (name.now, number))
        at.base places.old places.new w.old w.new result }
{
    w.string(name)?;
    write_edge(w, places, graph, at, number)
}

/// The parameters of a union.
#[cycle(graph_writing)]
fn write_union(
    w: &mut Writer,
    places: &mut List<u64>,
    graph: &Whole,
    at: Inside,
    node: &Node,
) -> Result<(), Memory>
    ensures { PutsPlaced (and_then (front_placed (edge_placed at.levels (known_of graph.now))
        node.now.id
        (own_name node.now.names) (edge node.now 0))
        (arms_placed (edge_placed at.levels (known_of graph.now))
        (number_or_zero node.now.numbers) (arms_in (switch_in graph.now node.now) node.now)))
        at.base places.old places.new w.old w.new result }
{
    write_front(w, places, graph, at, node)?;
    write_arms(w, places, graph, at, node)
}

/// A default index, and counted arms.
#[cycle(graph_writing)]
fn write_arms(
    w: &mut Writer,
    places: &mut List<u64>,
    graph: &Whole,
    at: Inside,
    node: &Node,
) -> Result<(), Memory>
    ensures { PutsPlaced (arms_placed (edge_placed at.levels (known_of graph.now))
        (number_or_zero node.now.numbers) (arms_in (switch_in graph.now node.now) node.now))
        at.base places.old places.new w.old w.new result }
{
    let default = default_of(node)?;
    write_head(w, &default, arm_count(node))?;
    write_each_arm(w, places, graph, at, node, switch_kind(graph, node))
}

/// How many arms there are: as many as labels, names behind its own, and edges behind the
/// discriminator's.
fn arm_count(node: &Node) -> usize
    ensures { result ≡ arm_total node.now }
{
    let labels = node.numbers.len().saturating_sub(1);
    let names = node.names.len().saturating_sub(1);
    let edges = node.edges.len().saturating_sub(1);
    labels.min(names).min(edges)
}

/// The index of the default arm, or -1.
fn default_of(node: &Node) -> Result<i32, Memory>
    ensures value { IfOk result (λ n. n ≡ number_or_zero node.now.numbers) }
    ensures fits { IfOk result (λ n. FitsSigned w32 n) }
{
    match i32::try_from(first_number(node)) {
        Ok(index) => Ok(index),
        Err(_) => Err(Memory),
    }
}

/// The kind of a union's discriminator without aliases.
#[tactic(auto, using(crate::proofs::PlacedWriting::switch_out, crate::proofs::PlacedWriting::switch_got, crate::proofs::PlacedWriting::switch_gone))]
fn switch_kind(graph: &Whole, node: &Node) -> CodeKind
    ensures { result ≡ switch_in graph.now node.now }
{
    let number = edge_of(node, 0);
    if number as usize >= graph.len() {
        return CodeKind::Null;
    }
    match graph.node(graph.bare(number)) {
        Some(switch) => kind_by(switch.kind),
        None => CodeKind::Null,
    }
}

#[cycle(graph_writing)]
fn write_each_arm(
    w: &mut Writer,
    places: &mut List<u64>,
    graph: &Whole,
    at: Inside,
    node: &Node,
    switch: CodeKind,
) -> Result<(), Memory>
    ensures { PutsPlaced (row_of_arms (edge_placed at.levels (known_of graph.now))
        (arms_in switch node.now))
        at.base places.old places.new w.old w.new result }
{
    for index in 0..arm_count(node) {
        put_label(w, label_at(node, index + 1, switch)?)?;
        let name = name_of(&node.names, index + 1);
        write_member(w, places, graph, at, name, edge_of(node, index + 1))?;
    }
    Ok(())
}

/// The number that spells a label.
#[tactic(auto, using(crate::proofs::PlacedWriting::puts_appended))]
fn put_label(w: &mut Writer, label: Label) -> Result<(), Memory>
    ensures { Puts (label_piece label) w.old w.new result }
{
    write_label(w, label)
}

/// The label of an arm, under a discriminator of a kind.
fn label_at(node: &Node, index: usize, switch: CodeKind) -> Result<Label, Memory>
    ensures { IfOk result
        (λ l. l ≡ label_of (value_of_number switch
        (natural (label_number_at node.now.numbers index)))) }
{
    let number = natural(number_at(node, index))?;
    label_by(switch, number)
}

/// The number at an index, or 0.
#[tactic(auto, using(crate::proofs::PlacedWriting::number_there, crate::proofs::PlacedWriting::number_gone))]
fn number_at(node: &Node, index: usize) -> i128
    ensures { result ≡ label_number_at node.now.numbers index }
{
    match node.numbers.get(index) {
        Some(number) => *number,
        None => 0,
    }
}

/// A number that is none below 0; 0 for one that is.
fn natural(number: i128) -> Result<u64, Memory>
    ensures { IfOk result (λ n. n ≡ natural number) }
{
    match u64::try_from(number) {
        Ok(number) => Ok(number),
        Err(_) => { if number < 0 { Ok(0) } else { Err(Memory) } }
    }
}

/// The label that a number spells, under a discriminator of a kind.
#[tactic(auto, using(crate::proofs::PlacedWriting::label_short, crate::proofs::PlacedWriting::label_ushort, crate::proofs::PlacedWriting::label_long, crate::proofs::PlacedWriting::label_ulong, crate::proofs::PlacedWriting::label_enum, crate::proofs::PlacedWriting::label_longlong, crate::proofs::PlacedWriting::label_ulonglong, crate::proofs::PlacedWriting::label_boolean, crate::proofs::PlacedWriting::label_char))]
fn label_by(switch: CodeKind, number: u64) -> Result<Label, Memory>
    ensures { IfOk result (λ l. l ≡ label_of (value_of_number switch number)) }
{
    match switch {
        CodeKind::Short => Ok(two(number)?),
        CodeKind::UShort => Ok(two(number)?),
        CodeKind::Long => Ok(four(number)?),
        CodeKind::ULong => Ok(four(number)?),
        CodeKind::Enum => Ok(four(number)?),
        CodeKind::LongLong => Ok(Label::Eight(number)),
        CodeKind::ULongLong => Ok(Label::Eight(number)),
        CodeKind::Boolean => Ok(Label::One(u8::from(number == 1))),
        CodeKind::Char => Ok(one(number)?),
        _ => Ok(Label::One(0)),
    }
}

fn one(number: u64) -> Result<Label, Memory>
    ensures { IfOk result (λ l. (l ≡ spelled.One number) × (number < 2 ^ 8)) }
{
    if number > u64::from(u8::MAX) {
        return Err(Memory);
    }
    Ok(Label::One(number as u8))
}

fn two(number: u64) -> Result<Label, Memory>
    ensures { IfOk result (λ l. (l ≡ spelled.Two number) × (number < 2 ^ 16)) }
{
    if number > u64::from(u16::MAX) {
        return Err(Memory);
    }
    Ok(Label::Two(number as u16))
}

fn four(number: u64) -> Result<Label, Memory>
    ensures { IfOk result (λ l. (l ≡ spelled.Four number) × (number < 2 ^ 32)) }
{
    if number > u64::from(u32::MAX) {
        return Err(Memory);
    }
    Ok(Label::Four(number as u32))
}
