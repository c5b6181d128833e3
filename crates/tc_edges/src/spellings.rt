//! Which edge spells each node of a graph.

ghost use Rattle.std.specs.Prelude.{◌≡◌, ◌<◌, IfOk, length};
ghost use Rattle.tc_graph.specs.Nodes.{node_at};
ghost use Rattle.tc_edges.specs.Edges.{spellings, IsBlank, Notes, LeadWithin};

use crate::edges::Spelling;
use std::alloc::{AllocError, Global};
use tc_graph::Whole;

/// Of each node the edge that spells it. It takes one look at each edge.
///
/// # Errors
///
/// For running out of memory alone.
pub(crate) fn spellings_of(
    alloc: Global,
    graph: &Whole,
) -> Result<Vec<Option<Spelling>>, AllocError>
    ensures value { IfOk result (λ table. table.items ≡ spellings graph.now) }
    ensures some { IfOk result (λ _. 0 < length graph.now) }
{
    let mut table = blank_table(alloc, graph.len())?;
    note_all(table.as_mut_slice(), graph);
    Ok(table)
}

/// A table of so many nodes, of none of which it is known which edge spells it.
fn blank_table(alloc: Global, count: usize) -> Result<Vec<Option<Spelling>>, AllocError>
    ensures size { IfOk result (λ table. length table.items ≡ count) }
    ensures blank { IfOk result (λ table. IsBlank table.items) }
{
    let mut table: Vec<Option<Spelling>> = Vec::with_capacity(alloc, count)?;
    for _ in 0..count {
        table.push(None)?;
    }
    Ok(table)
}

/// Notes of each node which edge spells it.
fn note_all(table: &mut [Option<Spelling>], graph: &Whole)
    requires size { length table.old ≡ length graph.now }
    requires blank { IsBlank table.old }
    ensures { table.new ≡ spellings graph.now }
{
    let count = graph.len() as u32;
    for place in 0..count {
        note_edges(table, place, edges_of(graph, place));
    }
}

/// The edges of the node at a place.
fn edges_of(graph: &Whole, place: u32) -> &[u32]
    requires there { place < length graph.now }
    ensures value { result.now ≡ (node_at graph.now place).edges }
    ensures within { LeadWithin (length graph.now) result.now }
{
    match graph.node(place) {
        Some(node) => node.edges.as_slice(),
        None => unreachable!(),
    }
}

/// Notes that the node at a place spells those behind it to which it has an edge. The last edge comes first,
/// so that the first of those to one node stays.
fn note_edges(table: &mut [Option<Spelling>], place: u32, edges: &[u32])
    requires within { LeadWithin (length table.old) edges.now }
    ensures { Notes place edges.now table.old table.new }
{
    let count = edges.len();
    for done in 0..count {
        let edge = count - 1 - done;
        let target = edges[edge];
        if target > place {
            table[target as usize] = Some(Spelling { place, edge });
        }
    }
}
