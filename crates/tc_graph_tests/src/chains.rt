//! Graphs of many nodes: chains that differ at their end, and rings of which each pair of nodes is reached.

use crate::making::{fill, finished, node_of};
use std::alloc::Global;
use tc_graph::{Graph, GraphFault, List, Node, Whole};

const SEQUENCE: u32 = 19;

/// A sequence of the node at a place, with an id that no sequence of the wire has.
fn sequence(alloc: Global, id: &[u8], place: u32) -> Result<Node, GraphFault> {
    let mut edges = List::new(alloc);
    edges.push(place)?;
    Ok(Node {
        kind: SEQUENCE,
        id: List::from_slice(alloc, id)?,
        names: List::new(alloc),
        numbers: List::new(alloc),
        edges,
    })
}

/// Sequences of each other, so many less one, and a node at the end.
fn chain(alloc: Global, count: u32, end: &str) -> Result<Whole, GraphFault> {
    let mut graph = Graph::new(alloc)?;
    let last = count.saturating_sub(1);
    for _place in 0..last {
        graph.start(SEQUENCE)?;
    }
    let end = node_of(alloc, end)?;
    graph.start(end.kind)?;
    for place in 0..last {
        fill(&mut graph, place, sequence(alloc, b"", place + 1)?)?;
    }
    fill(&mut graph, last, end)?;
    finished(graph)
}

/// Whether chains of so many nodes are the same where their ends are, and only there.
fn ends_count(alloc: Global, count: u32) -> Result<bool, GraphFault> {
    let long = chain(alloc, count, "3 - - - -")?;
    let short = chain(alloc, count, "2 - - - -")?;
    let copy = long.copy(alloc)?;
    Ok(copy.same(alloc, &long)? && !long.same(alloc, &short)? && !short.same(alloc, &long)?)
}

/// Two graphs that differ at depth 1, 10, 4,000 and at the last depth that a chain can have.
#[test]
fn depths(rt: HostRuntime) {
    let alloc = rt.alloc();
    for count in [1, 2, 10, 4000, 4096] {
        assert!(rt; ends_count(alloc, count) == Ok(true), "{count}");
    }
}

/// Sequences of each other of which the last is one of the first again, so many in front of those that come again.
/// One of them has an id.
fn ring(alloc: Global, front: u32, count: u32, named: (u32, &[u8])) -> Result<Whole, GraphFault> {
    let mut graph = Graph::new(alloc)?;
    for _place in 0..count {
        graph.start(SEQUENCE)?;
    }
    for place in 0..count {
        let next = if place + 1 < count { place + 1 } else { front };
        let id = if place == named.0 { named.1 } else { b"" };
        fill(&mut graph, place, sequence(alloc, id, next)?)?;
    }
    finished(graph)
}

/// Whether a ring of 4,096 nodes and one of 4,095 behind a node are the same, where the pair of nodes that is reached
/// last have these ids. All 16,773,121 pairs but that one agree.
fn rings_are_same(alloc: Global, left: &[u8], right: &[u8]) -> Result<bool, GraphFault> {
    let left = ring(alloc, 0, 4096, (0, left))?;
    let right = ring(alloc, 1, 4096, (4095, right))?;
    left.same(alloc, &right)
}

/// The pair that costs most: each node of the one is compared with each of the other, and the last two differ.
#[test]
fn last_pair(rt: HostRuntime) {
    let alloc = rt.alloc();
    assert!(rt; rings_are_same(alloc, b"A", b"B") == Ok(false));
}

#[test]
fn every_pair(rt: HostRuntime) {
    let alloc = rt.alloc();
    assert!(rt; rings_are_same(alloc, b"A", b"A") == Ok(true));
}
