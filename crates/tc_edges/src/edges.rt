//! The edges of a graph, and which of them are spelled as indirections (CORBA's chapter on the General Inter-ORB
//! Protocol, "TypeCode").

ghost use Rattle.std.specs.Prelude.{◌≡◌, ◌<◌, IfOk, None, length, not, slice_index, slice_index_or};
ghost use Rattle.tc_graph.specs.Nodes.{node_at};
ghost use Rattle.tc_graph.specs.Whole.{IsWhole};
ghost use Rattle.tc_edges.specs.Edges.{edge_of, is_edge};

use crate::spellings::spellings_of;
use std::alloc::{AllocError, Global};
use std::marker::Model;
use tc_graph::{Node, Whole};

/// An edge of a node.
#[derive(Clone, Copy)]
pub struct Edge {
    /// The place of the node to which it leads.
    pub place: u32,
    /// Whether it is spelled as an indirection.
    pub is_indirection: bool,
}

/// The edge that spells a node.
#[derive(Clone, Copy)]
pub struct Spelling {
    /// The place of the node that has the edge.
    pub place: u32,
    /// The number of the edge, from 0.
    pub edge: usize,
}

/// A graph, with the edge that spells each of its nodes.
#[derive(Drop)]
pub struct SpelledGraph<'a> {
    graph: &'a Whole,
    table: Vec<Option<Spelling>>,
}

impl<'a> Model for SpelledGraph<'a> {
    ghost use Rattle.std.specs.Prelude.{◌≡◌, List};
    ghost use Rattle.tc_graph.specs.declared.node.Node.{Node};
    ghost use Rattle.tc_edges.specs.Edges.{spellings};

    ghost Value = { List Node };

    ghost view = { λ s. s.graph.now };

    ghost invariant = { λ s. s.table.items ≡ spellings s.graph.now };
}

impl<'a> SpelledGraph<'a> {
    /// A graph with the edges that spell its nodes, which takes some 24 bytes a node.
    ///
    /// # Errors
    ///
    /// For running out of memory alone.
    pub fn new(alloc: Global, graph: &'a Whole) -> Result<SpelledGraph<'a>, AllocError>
        ensures value { IfOk result (λ s. s ≡ graph.now) }
        ensures some { IfOk result (λ _. 0 < length graph.now) }
    {
        let table = spellings_of(alloc, graph)?;
        Ok(SpelledGraph { graph, table })
    }

    /// The node at a place.
    pub fn node(&self, place: u32) -> &'a Node
        requires there { place < length self.now }
        ensures value { result.now ≡ node_at self.now place }
        ensures whole { IsWhole self.now }
    {
        let graph = self.graph;
        match graph.node(place) {
            Some(node) => node,
            None => unreachable!(),
        }
    }

    /// The edge of this number of the node at a place.
    pub fn edge(&self, place: u32, number: usize) -> Edge
        requires there { place < length self.now }
        requires some { number < length (node_at self.now place).edges }
        ensures value { result ≡ edge_of self.now place number }
        ensures within { result.place < length self.now }
    {
        let edges = self.node(place).edges.as_slice();
        let table = self.table.as_slice();
        edge_by(table, edges, place, number)
    }
}

/// The edge of this number, of these of the node at a place, by the edges that spell the nodes.
fn edge_by(table: &[Option<Spelling>], edges: &[u32], place: u32, number: usize) -> Edge
    requires some { number < length edges.now }
    requires within { slice_index edges.now number < length table.now }
    ensures { result ≡ record {
      place = slice_index edges.now number;
      is_indirection = not (is_edge
          (slice_index_or table.now (slice_index edges.now number) None) place number);
    } }
{
    let target = edges[number];
    let is_indirection = !is_edge(table[target as usize], place, number);
    Edge {
        place: target,
        is_indirection,
    }
}

/// Whether the edge of this number of the node at a place spells a node.
fn is_edge(spelling: Option<Spelling>, place: u32, number: usize) -> bool
    ensures { result ≡ is_edge spelling place number }
{
    match spelling {
        Some(it) => it.place == place && it.edge == number,
        None => false,
    }
}
