//! The places of a graph without aliases.

ghost use Rattle.std.specs.Prelude.{ℕ, ◌≡◌, ◌<◌, length, slice_index, IfOk, IfErr};
ghost use Rattle.tc_graph.specs.Aliases.{bare};
ghost use Rattle.tc_graph.specs.Whole.{EdgesLeadInside};

use crate::fault::GraphFault;
use crate::node::Node;
use std::alloc::Global;

/// The kind tk_alias (CORBA's chapter on the interface repository, "TypeCodes").
pub const ALIAS: u32 = 21;

/// The place after all aliases are removed.
pub(crate) fn bare(nodes: &[Node], place: u32) -> u32
    requires closed { EdgesLeadInside nodes.now }
    requires within { place < length nodes.now }
    ensures value { result ≡ bare nodes.now place }
    ensures within { result < length nodes.now }
{
    let mut place = place;
    for _step in 0..nodes.len() {
        let node = &nodes[place as usize];
        if node.kind != ALIAS {
            return place;
        }
        place = node.edges.as_slice()[0];
    }
    place
}

/// Of each place the place after all aliases are removed, in two bytes.
pub(crate) fn bare_places(alloc: Global, nodes: &[Node]) -> Result<Vec<u16>, GraphFault>
    requires { EdgesLeadInside nodes.now }
    ensures len { IfOk result (λ t. length t.items ≡ length nodes.now) }
    ensures each { IfOk result (λ t. (k : ℕ) → k < length nodes.now → slice_index t.items k
        ≡ bare nodes.now k) }
    ensures within { IfOk result (λ t. (k : ℕ) → k < length nodes.now → slice_index t.items k
        < length nodes.now) }
    ensures err { IfErr result (λ e. e ≡ GraphFault.Memory) }
{
    let mut places = Vec::with_capacity(alloc, nodes.len())?;
    for place in 0..nodes.len() as u32 {
        places.push(bare(nodes, place) as u16)?;
    }
    Ok(places)
}
