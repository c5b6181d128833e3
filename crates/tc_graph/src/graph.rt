//! Graphs that are being made, node by node.

ghost use Rattle.std.specs.Prelude.{ℕ, slice_index_or, ◌≡◌, ◌<◌, ◌≤◌, ◌↔◌, true, false, length, IsTrue};
ghost use Rattle.std.specs.Prelude.{IfOk, IfErr, OnOk, OnErr, IfSome, IfNone, IsNone, Err};
ghost use Rattle.tc_graph.specs.Nodes.{most_nodes, node_at, is_alias};
ghost use Rattle.tc_graph.specs.Drafts.{empty, with_blank, with_node, first_outside, fill_answer, AllFilled};
ghost use Rattle.tc_graph.specs.Drafts.{IsLeast, IsUnfinished};
ghost use Rattle.tc_graph.specs.Whole.{IsWhole};

use crate::fault::GraphFault;
use crate::list::List;
use crate::loops::least_in_loop;
use crate::node::Node;
use crate::whole::Whole;
use std::alloc::Global;
use std::marker::Model;

/// How many nodes a graph has at most.
const MOST_NODES: usize = 4096;

/// A graph that is being made. A node is started first, which gives it a place, and filled later, so that
/// what it holds may lead back to it: as the TypeCode of a struct is begun before its members, one of
/// which may hold the struct (CORBA's chapter on GIOP, "TypeCode": indirections).
pub struct Graph {
    alloc: Global,
    nodes: Vec<Node>,
    /// Of each node whether it is filled.
    filled: Vec<bool>,
}

// By hand, since a derived drop is written out at each exit, and proved again in each crate above.
impl Drop for Graph {
    fn drop(self) {
        let Graph {
            alloc: _alloc,
            nodes: _nodes,
            filled: _filled,
        } = self;
    }
}

impl Model for Graph {
    ghost use Rattle.tc_graph.specs.Drafts.{GraphDraft, IsValidDraft};

    ghost Value = { GraphDraft };

    ghost view = { λ g. record { nodes = g.nodes.items; filled = g.filled.items } };

    ghost invariant = { λ g.
        IsValidDraft (record { nodes = g.nodes.items; filled = g.filled.items }) };
}

/// The first edge that leads to none of so many nodes.
fn first_outside(edges: &[u32], count: usize) -> Option<u32>
    ensures { result ≡ first_outside count edges.now }
{
    for edge in edges {
        if *edge as usize >= count {
            return Some(*edge);
        }
    }
    None
}

/// The least place that isn't filled.
fn least_open(filled: &[bool]) -> Option<u32>
    requires { length filled.now ≤ most_nodes }
    ensures some { IfSome result
        (λ p. IsLeast (length filled.now) (λ i. slice_index_or filled.now i false ≡ false) p) }
    ensures none { IfNone result ((i : ℕ) → i < length filled.now
        → slice_index_or filled.now i false ≡ true) }
{
    for place in 0..filled.len() {
        if !filled[place] {
            return Some(place as u32);
        }
    }
    None
}

impl Graph {
    /// A graph without nodes.
    ///
    /// # Errors
    ///
    /// `Memory` only when out of memory.
    pub fn new(alloc: Global) -> Result<Graph, GraphFault>
        ensures value { IfOk result (λ g. g ≡ empty) }
        ensures err { IfErr result (λ e. e ≡ GraphFault.Memory) }
    {
        Ok(Graph {
            alloc,
            nodes: Vec::new(alloc),
            filled: Vec::new(alloc),
        })
    }

    /// The kind with which the node at a place was started, or `None` where none was.
    pub fn kind(&self, place: u32) -> Option<u32>
        ensures some { IfSome result (λ kind. kind ≡ (node_at self.now.nodes place).kind) }
        ensures none { IsNone result ↔ (length self.now.nodes ≤ place) }
    {
        self.nodes.get(place as usize).map(|node| node.kind)
    }

    /// Starts a node of a kind, and gives its place: 0 for the first, the root, and one more for each
    /// later one.
    ///
    /// # Errors
    ///
    /// `Full` exactly where there are 4,096 nodes, and else `Memory` only when out of memory. The graph
    /// is then unchanged.
    pub fn start(&mut self, kind: u32) -> Result<u32, GraphFault>
        ensures place { IfOk result (λ place. place ≡ length self.old.nodes) }
        ensures ok { OnOk result (self.new ≡ with_blank self.old kind) }
        ensures err { OnErr result (self.new ≡ self.old) }
        ensures full { length self.old.nodes ≡ most_nodes → result ≡ Err GraphFault.Full }
        ensures room { length self.old.nodes < most_nodes
            → IfErr result (λ e. e ≡ GraphFault.Memory) }
    {
        let place = self.nodes.len();
        if place >= MOST_NODES {
            return Err(GraphFault::Full);
        }
        let node = Node {
            kind,
            id: List::new(self.alloc),
            names: List::new(self.alloc),
            numbers: List::new(self.alloc),
            edges: List::new(self.alloc),
        };
        self.filled.push(false)?;
        match self.nodes.push(node) {
            Ok(()) => Ok(place as u32),
            Err(_fault) => {
                self.filled.pop();
                Err(GraphFault::Memory)
            }
        }
    }

    /// Fills the node that was started at a place. The node has the kind with which it was started, and an
    /// alias has one edge. It takes no memory.
    ///
    /// # Errors
    ///
    /// `NoPlace` of the place or else of the first edge at which no node was started, and else `Twice`
    /// where the node is filled already. The graph is then unchanged.
    pub fn fill(&mut self, place: u32, node: Node) -> Result<(), GraphFault>
        requires kind { place < length self.old.nodes
            → node.kind ≡ (node_at self.old.nodes place).kind }
        requires alias { is_alias node ≡ true → length node.edges ≡ 1 }
        ensures value { result ≡ fill_answer self.old place node }
        ensures ok { OnOk result (self.new ≡ with_node self.old place node) }
        ensures err { OnErr result (self.new ≡ self.old) }
    {
        let count = self.nodes.len();
        let at = place as usize;
        if at >= count {
            return Err(GraphFault::NoPlace(place));
        }
        if let Some(edge) = first_outside(node.edges.as_slice(), count) {
            return Err(GraphFault::NoPlace(edge));
        }
        if self.filled[at] {
            return Err(GraphFault::Twice(place));
        }
        self.nodes[at] = node;
        self.filled[at] = true;
        Ok(())
    }

    /// The whole graph, where at least one node was started, all are filled, and no aliases make a loop. It
    /// takes no memory.
    ///
    /// # Errors
    ///
    /// `Open` of the least node that isn't filled, and else `Loop` of the least alias from which edges over
    /// aliases alone lead back to it. The graph is given back as it was.
    pub fn finish(self) -> Result<Whole, (Graph, GraphFault)>
        requires { 0 < length self.nodes }
        ensures whole { IfOk result (λ w. (w ≡ self.nodes) × AllFilled self × IsWhole self.nodes) }
        ensures unfinished { IfErr result (λ e. (e.0 ≡ self) × IsUnfinished self e.1) }
    {
        if let Some(place) = least_open(self.filled.as_slice()) {
            return Err((self, GraphFault::Open(place)));
        }
        if let Some(place) = least_in_loop(self.nodes.as_slice()) {
            return Err((self, GraphFault::Loop(place)));
        }
        let Graph {
            alloc: _alloc,
            nodes,
            filled: _filled,
        } = self;
        Ok(Whole::of(nodes))
    }
}
