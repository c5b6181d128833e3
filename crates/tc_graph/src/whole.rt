//! Graphs that stand for a TypeCode.

ghost use Rattle.std.specs.Prelude.{◌≡◌, ◌<◌, ◌*◌, ◌↔◌, false, length, IsTrue, IfOk, IfErr, slice_get, option_copied};
ghost use Rattle.tc_graph.specs.Nodes.{node_at, is_alias};
ghost use Rattle.tc_graph.specs.Aliases.{bare};
ghost use Rattle.tc_graph.specs.Sameness.{Alike, alike, Same};
ghost use Rattle.tc_graph.specs.Whole.{IsWhole};

use crate::aliases::bare;
use crate::fault::GraphFault;
use crate::node::Node;
use crate::same::same_nodes;
use std::alloc::Global;
use std::marker::Model;

/// A graph of 1 to 4,096 nodes, the first of which is the root. All are filled, each edge leads to one of
/// them, and no aliases make a loop.
pub struct Whole {
    nodes: Vec<Node>,
}

// By hand, since a derived drop is written out at each exit, and proved again in each crate above.
impl Drop for Whole {
    fn drop(self) {
        let Whole { nodes: _nodes } = self;
    }
}

impl Model for Whole {
    ghost use Rattle.std.specs.Prelude.{List};
    ghost use Rattle.tc_graph.specs.declared.node.Node.{Node};
    ghost use Rattle.tc_graph.specs.Whole.{IsWhole};

    ghost Value = { List Node };

    ghost view = { λ w. w.nodes.items };

    ghost invariant = { λ w. IsWhole w.nodes.items };
}

/// The nodes in order, copied.
fn nodes_copy(alloc: Global, nodes: &[Node]) -> Result<Vec<Node>, GraphFault>
    ensures value { IfOk result (λ twin. twin.items ≡ nodes.now) }
    ensures err { IfErr result (λ e. e ≡ GraphFault.Memory) }
{
    let mut twin = Vec::with_capacity(alloc, nodes.len())?;
    for node in nodes {
        twin.push(node.copy(alloc)?)?;
    }
    Ok(twin)
}

impl Whole {
    /// The graph of these nodes, which are whole. It takes no memory. [`crate::Graph`] is for nodes of which that
    /// isn't known.
    pub fn of(nodes: Vec<Node>) -> Whole
        requires { IsWhole nodes.items }
        ensures { result ≡ nodes.items }
    {
        Whole { nodes }
    }

    /// The node at a place, where there is one.
    pub fn node(&self, place: u32) -> Option<&Node>
        ensures value { option_copied result ≡ slice_get self.now place }
        ensures whole { IsWhole self.now }
    {
        self.nodes.get(place as usize)
    }

    /// How many nodes there are.
    pub fn len(&self) -> usize
        ensures value { result ≡ length self.now }
        ensures whole { IsWhole self.now }
    {
        self.nodes.len()
    }

    /// The place that a place stands for once all aliases are removed: its own where its node is none.
    pub fn bare(&self, place: u32) -> u32
        requires { place < length self.now }
        ensures value { result ≡ bare self.now place }
        ensures within { result < length self.now }
        ensures no_alias { is_alias (node_at self.now result) ≡ false }
    {
        bare(self.nodes.as_slice(), place)
    }

    /// A copy of the graph.
    ///
    /// # Errors
    ///
    /// `Memory` only when out of memory.
    pub fn copy(&self, alloc: Global) -> Result<Whole, GraphFault>
        ensures value { IfOk result (λ twin. twin ≡ self.now) }
        ensures err { IfErr result (λ e. e ≡ GraphFault.Memory) }
    {
        let nodes = nodes_copy(alloc, self.nodes.as_slice())?;
        Ok(Whole { nodes })
    }

    /// Whether two graphs are the same TypeCode: their roots are alike at every depth (CORBA's chapter on
    /// the interface repository, "The TypeCode Interface": `equivalent`). For graphs of `n` and `m` nodes it
    /// looks at each of the `n * m` pairs of nodes once at most. It takes as many bytes, two for each node,
    /// and up to eight for each pair that is reached; all are given back.
    ///
    /// # Errors
    ///
    /// `Memory` only when out of memory.
    pub fn same(&self, alloc: Global, other: &Whole) -> Result<bool, GraphFault>
        ensures value { IfOk result (λ yes. IsTrue yes ↔ Same self.now other.now) }
        ensures depth { IfOk result
            (λ yes. IsTrue yes ↔ Alike (length self.now * length other.now)
            self.now 0 other.now 0) }
        ensures decided { IfOk result
            (λ yes. yes ≡ alike (length self.now * length other.now) self.now 0 other.now 0) }
        ensures err { IfErr result (λ e. e ≡ GraphFault.Memory) }
    {
        same_nodes(alloc, self.nodes.as_slice(), other.nodes.as_slice())
    }
}
