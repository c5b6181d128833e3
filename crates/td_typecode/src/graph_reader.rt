//! A reader of a TypeCode with indirections, with the nodes that were begun so far.

ghost use Rattle.std.specs.Prelude.{◌≡◌, ◌+◌, ◌-◌, ◌<◌, ◌≤◌, ◌^◌, List, [], ◌∷◌, IfOk, OnOk};
ghost use Rattle.std.specs.Prelude.{length, map};
ghost use Rattle.std.specs.Prelude.{slice_index};
ghost use Rattle.std.specs.Int.{w32};
ghost use Rattle.std.specs.Int.RustNames.{FitsSigned};
ghost use Rattle.td_cdr.specs.Format.{Gives};
ghost use Rattle.td_cdr.specs.Lawful.{AreOctets};
ghost use Rattle.td_cdr.specs.Reading.{next_aligned, padding};
ghost use Rattle.td_cdr.specs.Sound.{ulong, text};
ghost use Rattle.td_cdr.specs.ValueFaults.{is_memory};
ghost use Rattle.td_indirection.specs.States.{empty, nodes, places, with_slots, with_node};
ghost use Rattle.td_indirection.specs.States.{with_link, behind_state};
ghost use Rattle.td_indirection.specs.Pairs.{lift};
ghost use Rattle.td_indirection.specs.Indirections.{target};
ghost use Rattle.td_typecode.specs.Codes.{header, positive, head};
ghost use Rattle.td_typecode.specs.Formats.{nonempty_sequence};
ghost use Rattle.td_typecode.specs.GraphCodes.{most_nodes, kind_or_indirection, led_to};
ghost use Rattle.td_typecode.specs.Known.{KnownNode, node_with_layer, leaves_chain, message_place};
ghost use Rattle.td_typecode.specs.NodeLayers.{Passes, GivesOn, numbers_of, begun_slot, known_nodes};
ghost use Rattle.td_typecode.specs.NodeLayers.{node_places};
ghost use Rattle.td_typecode.specs.NodeReading.{BeginsNode, EntersEncapsulation, refused_target, allowed_node};
ghost use Rattle.td_typecode.specs.NodeReading.{discriminator_in};
ghost use Rattle.td_typecode.specs.NodeReading.{discriminator_label, kind_label};

use crate::begun_nodes::{
    MOST_NODES, discriminator, fill_node, first_leading, place_of, refused_target,
};
use crate::code::Value;
use crate::kinds::{CodeKind, place_at};
use crate::labels::one_of;
use crate::mode::Mode;
use crate::node_layer::{BegunNode, Discriminator, NodeLayer};
use crate::plain::{
    boolean_at, char_at, long_at, longlong_at, short_at, ulong_at, ulonglong_at, ushort_at,
};
use crate::reading::{count_of, head_of, names_of};
use std::alloc::Global;
use std::marker::Model;
use td_cdr::{List, Memory, Reader, Spelled, Text, ValueFault};

/// A place in a TypeCode with indirections, and the nodes that were begun before it. A node's
/// number is how many were begun before it.
pub(crate) struct GraphReader<'a> {
    reader: Reader<'a>,
    /// Where the places of nodes count from: where alignment does outside the outermost TypeCode.
    first: u32,
    nodes: Vec<BegunNode>,
    /// Whether an indirection was followed.
    linked: bool,
}

impl<'a> Model for GraphReader<'a> {
    ghost use Rattle.std.specs.Prelude.{◌-◌, ◌≤◌, map, length};
    ghost use Rattle.std.specs.Coded.{codes};
    ghost use Rattle.td_typecode.specs.contracts.code.Any as any;
    ghost use Rattle.td_typecode.specs.contracts.code.TypeCode as code;
    ghost use Rattle.td_typecode.specs.contracts.code.Value as value;
    ghost use Rattle.td_typecode.specs.GraphCodes.{most_nodes};
    ghost use Rattle.td_typecode.specs.NodeLayers.{GraphAt, begun_slot};

    ghost Value = { GraphAt };

    ghost coded = { Prim.hlevel
        (codes, code.the_row.coded, value.the_row.coded, any.the_row.coded) };

    ghost view = { λ g. record {
      at = g.reader;
      state = record {
        base = g.reader.origin - g.first;
        table = map begun_slot g.nodes.items;
        linked = g.linked;
      };
    } };

    ghost invariant = { λ g. (g.first ≤ g.reader.origin) × (length g.nodes.items ≤ most_nodes) };
}

// By hand, since a derived drop is written out at each exit.
impl<'a> Drop for GraphReader<'a> {
    fn drop(self) {
        let GraphReader {
            reader: _reader,
            first: _first,
            nodes: _nodes,
            linked: _linked,
        } = self;
    }
}

impl<'a> GraphReader<'a> {
    /// A reader of an outermost TypeCode. `origin` is where alignment counts from.
    pub(crate) fn new(alloc: Global, reader: Reader<'a>, origin: u32) -> GraphReader<'a>
        requires { origin ≡ reader.origin }
        ensures { result ≡ record { at = reader.entry; state = empty } }
    {
        GraphReader {
            reader,
            first: origin,
            nodes: Vec::new(alloc),
            linked: false,
        }
    }

    /// Where it stands, outside any encapsulation that it went into.
    pub(crate) fn reader(&self) -> Reader<'a>
        ensures same { result ≡ self.now.at }
        ensures inside { self.now.at.origin ≤ self.now.at.place }
        ensures base { self.now.state.base ≤ self.now.at.origin }
        ensures octets { AreOctets self.now.at.rest }
    {
        self.reader.copied()
    }

    /// Where the next unsigned long stands.
    pub(crate) fn aligned(&self) -> u32
        ensures value { result ≡ next_aligned 4 self.now.at }
        ensures inside { self.now.at.origin ≤ self.now.at.place }
        ensures above { self.now.at.origin ≤ result }
    {
        let here = self.reader();
        let _place = here.place();
        here.aligned()
    }

    /// How many nodes were begun.
    pub(crate) fn count(&self) -> usize
        ensures value { result ≡ length self.now.state.table }
        ensures few { result ≤ most_nodes }
    {
        self.nodes.len()
    }

    /// Goes on to where another reader stands, in the same encapsulation.
    fn advance(&mut self, reader: Reader<'a>)
        requires { reader.origin ≡ self.old.at.origin }
        ensures { self.new ≡ record { at = reader.entry; state = self.old.state } }
    {
        self.reader = reader;
    }

    pub(crate) fn ulong(&mut self) -> Result<u32, ValueFault>
        ensures passes { Passes self.old self.new result (ulong.format.reads self.old.at) }
        ensures gives { GivesOn self.new result
            ((lift ulong).format.reads self.old.state self.old.at) }
        ensures place { IfOk result (λ n. self.new.at.place ≡ next_aligned 4 self.old.at + 4) }
    {
        let mut next = self.reader();
        let n = next.u32()?;
        self.advance(next);
        Ok(n)
    }

    pub(crate) fn text(&mut self, alloc: Global) -> Result<Text, ValueFault>
        ensures { GivesOn self.new result
            ((lift text).format.reads self.old.state self.old.at) }
    {
        let mut next = self.reader();
        let text = Text::read(alloc, &mut next)?;
        self.advance(next);
        Ok(text)
    }

    pub(crate) fn header(&mut self, alloc: Global) -> Result<(Text, Text), ValueFault>
        ensures { GivesOn self.new result
            ((lift header).format.reads self.old.state self.old.at) }
    {
        let mut next = self.reader();
        let header = <(Text, Text)>::read(alloc, &mut next)?;
        self.advance(next);
        Ok(header)
    }

    /// One name at least.
    pub(crate) fn names(&mut self, alloc: Global) -> Result<List<Text>, ValueFault>
        ensures { GivesOn self.new result
            ((lift (nonempty_sequence text)).format.reads self.old.state self.old.at) }
    {
        let mut next = self.reader();
        let names = names_of(alloc, &mut next)?;
        self.advance(next);
        Ok(names)
    }

    /// A count that is not 0.
    pub(crate) fn positive(&mut self) -> Result<u32, ValueFault>
        ensures { GivesOn self.new result
            ((lift positive).format.reads self.old.state self.old.at) }
    {
        let mut next = self.reader();
        let count = count_of(&mut next)?;
        self.advance(next);
        Ok(count)
    }

    /// A union's default index and the count of its arms.
    pub(crate) fn head(&mut self) -> Result<(i32, u32), ValueFault>
        ensures passes { Passes self.old self.new result (head.format.reads self.old.at) }
        ensures fits { IfOk result (λ h. FitsSigned w32 h.0) }
    {
        let mut next = self.reader();
        let head = head_of(&mut next)?;
        self.advance(next);
        Ok(head)
    }

    /// The next kind, which may stand there, or `None` for an indirection.
    pub(crate) fn kind(&mut self, mode: Mode) -> Result<Option<CodeKind>, ValueFault>
        ensures passes { Passes self.old self.new result
            ((kind_or_indirection mode).format.reads self.old.at) }
        ensures place { IfOk result (λ k. self.new.at.place ≡ next_aligned 4 self.old.at + 4) }
        ensures origin { IfOk result (λ k. self.new.at.origin ≡ self.old.at.origin) }
    {
        let mut next = self.reader();
        let kind = place_at(&mut next, mode)?;
        self.advance(next);
        Ok(kind)
    }

    fn add(&mut self, node: BegunNode) -> Result<(), Memory>
        requires { length self.old.state.table < most_nodes }
        ensures { OnOk result (self.new ≡ record {
          at = self.old.at;
          state = with_slots self.old.state (begun_slot node ∷ []);
        }) }
    {
        self.nodes.push(node)?;
        Ok(())
    }

    /// Begins a node whose kind stands at this place of the message, and gives its number.
    ///
    /// # Errors
    ///
    /// `Depth` at that place where there are 4,096 nodes already; `Memory` when out of memory.
    pub(crate) fn begin(&mut self, kind: CodeKind, place: u32) -> Result<u32, ValueFault>
        requires { self.old.at.origin ≤ place }
        ensures { BeginsNode kind place self.old self.new result }
    {
        let count = self.nodes.len();
        if count >= MOST_NODES {
            return Err(ValueFault::Depth(place));
        }
        self.add(BegunNode {
            place: place - self.first,
            kind,
            layer: None,
        })?;
        Ok(count as u32)
    }

    /// The parameters of a node that was begun are read.
    pub(crate) fn fill(&mut self, number: u32, kind: CodeKind, layer: NodeLayer)
        requires { number < length self.old.state.table }
        ensures { self.new ≡ record {
          at = self.old.at;
          state = with_node self.old.state number (node_with_layer kind (numbers_of layer kind));
        } }
    {
        fill_node(&mut self.nodes, number, kind, layer);
    }

    /// A reader of the inside of the next encapsulation, which takes the nodes along. This one
    /// moves on behind the encapsulation.
    pub(crate) fn enter(&mut self, alloc: Global) -> Result<GraphReader<'a>, ValueFault>
        ensures { EntersEncapsulation self.old self.new result }
    {
        let mut next = self.reader();
        let inner = next.encapsulation()?;
        self.advance(next);
        Ok(self.taken(alloc, inner))
    }

    /// A reader inside an encapsulation, to which the nodes go over.
    fn taken(&mut self, alloc: Global, inner: Reader<'a>) -> GraphReader<'a>
        requires { self.old.at.origin ≤ inner.origin }
        ensures inner { result ≡ record {
          at = inner.entry;
          state = record {
            base = self.old.state.base + (inner.entry.origin - self.old.at.origin);
            table = self.old.state.table;
            linked = self.old.state.linked;
          };
        } }
        ensures stays { self.new.at ≡ self.old.at }
        ensures base { self.new.state.base ≡ self.old.state.base }
    {
        let nodes = std::mem::replace(&mut self.nodes, Vec::new(alloc));
        GraphReader {
            reader: inner,
            first: self.first,
            nodes,
            linked: self.linked,
        }
    }

    /// Takes back the nodes from a reader of an encapsulation.
    pub(crate) fn leave(&mut self, inner: GraphReader<'a>)
        ensures { self.new ≡ record {
          at = self.old.at;
          state = behind_state self.old.state inner.entry.state;
        } }
    {
        let GraphReader {
            reader: _reader,
            first: _first,
            nodes,
            linked,
        } = inner;
        self.nodes = nodes;
        self.linked = linked;
    }

    /// The nodes so far.
    pub(crate) fn begun(&self) -> &[BegunNode]
        ensures known { known_nodes result.now ≡ nodes self.now.state }
        ensures stand { node_places result.now ≡ places self.now.state }
        ensures few { length result.now ≤ most_nodes }
    {
        self.nodes.as_slice()
    }

    /// What discriminates a union whose discriminator is this node.
    pub(crate) fn discriminator(&self, number: u32) -> Discriminator
        ensures { result ≡ discriminator_in (length self.now.state.table + 1)
            (nodes self.now.state) number }
    {
        discriminator(self.begun(), self.count() + 1, number)
    }

    /// A place of the message, counted as the places of nodes are.
    fn counted(&self, place: u32) -> u32
        requires { self.now.at.origin ≤ place }
        ensures { result ≡ self.now.state.base + (place - self.now.at.origin) }
    {
        place - self.first
    }

    /// Where a node's kind stands in the message.
    fn message_place(&self, number: u32) -> u32
        ensures { result ≡ message_place self.now.state self.now.at
            (slice_index (places self.now.state) number) }
    {
        let _here = self.reader();
        place_of(self.begun(), number).saturating_add(self.first)
    }

    /// The node to which this long leads, which stands next.
    fn target(&self, long: u32) -> Option<u32>
        requires { next_aligned 4 self.now.at ≡ self.now.at.place + padding 4 self.now.at }
        ensures { result ≡ target self.now.state (self.now.at.place - self.now.at.origin) long }
    {
        let place = self.counted(self.aligned());
        first_leading(self.begun(), place, (1 << 32) - u64::from(long))
    }

    /// The node without aliases, where an indirection to this node may not stand.
    fn refused_target(&self, mode: Mode, number: u32) -> Option<u32>
        ensures { result ≡ refused_target mode (nodes self.now.state) number }
    {
        refused_target(self.begun(), mode, number)
    }

    /// The node, where an indirection to it may stand.
    #[tactic(auto, using(crate::proofs::GraphParts::stands_chain, crate::proofs::GraphParts::stands_kind, crate::proofs::GraphParts::stands_free))]
    fn allowed_node(&self, mode: Mode, chain: Option<u32>, number: u32) -> Result<u32, ValueFault>
        ensures { result ≡ allowed_node mode chain self.now.state self.now.at number }
    {
        if !leaves_chain(chain, number) {
            return Err(ValueFault::BadValue(self.message_place(number)));
        }
        match self.refused_target(mode, number) {
            Some(bare) => Err(ValueFault::BadValue(self.message_place(bare))),
            None => Ok(number),
        }
    }

    /// Goes on behind an indirection.
    fn link(&mut self, reader: Reader<'a>)
        requires { reader.origin ≡ self.old.at.origin }
        ensures { self.new ≡ record { at = reader.entry; state = with_link self.old.state } }
    {
        self.reader = reader;
        self.linked = true;
    }

    /// The node to which the next long leads, and which may stand there.
    ///
    /// # Errors
    ///
    /// `Indirection` where the long leads to no node, at the number in front of it; `BadValue` at
    /// the kind of the first alias of a loop, or of what may be no discriminator; `Cdr` where the
    /// input ends.
    pub(crate) fn led_to(&mut self, mode: Mode, chain: Option<u32>) -> Result<u32, ValueFault>
        ensures { GivesOn self.new result
            ((led_to mode chain).format.reads self.old.state self.old.at) }
    {
        let mut next = self.reader();
        let long = next.u32()?;
        let number = match self.target(long) {
            Some(number) => self.allowed_node(mode, chain, number)?,
            None => return Err(ValueFault::Indirection(self.aligned().saturating_sub(4))),
        };
        self.link(next);
        Ok(number)
    }

    /// A label of a union.
    ///
    /// # Errors
    ///
    /// `BadValue` for what is no value of the discriminator, `Cdr` where the input ends.
    pub(crate) fn label(&mut self, switch: Discriminator) -> Result<Value, ValueFault>
        ensures { GivesOn self.new result
            ((lift (discriminator_label switch)).format.reads self.old.state self.old.at) }
    {
        let mut next = self.reader();
        let label = label_by(&mut next, switch)?;
        self.advance(next);
        Ok(label)
    }
}

/// Whether a node isn't in the chain of aliases that began so.
fn leaves_chain(chain: Option<u32>, number: u32) -> bool
    ensures { (ns : List KnownNode) → result ≡ leaves_chain chain ns number }
{
    match chain {
        Some(first) => number < first,
        None => true,
    }
}

/// A value of what discriminates a union.
fn label_by(r: &mut Reader, switch: Discriminator) -> Result<Value, ValueFault>
    ensures { Gives is_memory r.new result ((discriminator_label switch).format.reads r.old) }
{
    match switch {
        Discriminator::Plain(kind) => plain_label(r, kind),
        Discriminator::Names(count) => one_of(r, count),
        Discriminator::Other => Err(ValueFault::BadValue(r.aligned())),
    }
}

/// A value of a kind that may discriminate a union.
fn plain_label(r: &mut Reader, kind: CodeKind) -> Result<Value, ValueFault>
    ensures { Gives is_memory r.new result ((kind_label kind).format.reads r.old) }
{
    match kind {
        CodeKind::Short => short_at(r),
        CodeKind::Long => long_at(r),
        CodeKind::UShort => ushort_at(r),
        CodeKind::ULong => ulong_at(r),
        CodeKind::LongLong => longlong_at(r),
        CodeKind::ULongLong => ulonglong_at(r),
        CodeKind::Boolean => boolean_at(r),
        CodeKind::Char => char_at(r),
        _ => Err(ValueFault::BadValue(r.aligned())),
    }
}
