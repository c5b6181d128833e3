//! Which edges of a graph spell a node, and which are indirections.

ghost use Rattle.std.specs.Prelude.{◌<◌, length};

use crate::making::whole_of;
use std::alloc::{AllocError, Global};
use tc_edges::SpelledGraph;
use tc_graph::GraphFault;

/// A graph whose nodes are in the order in which they are begun, and of each edge, node by node, whether it spells a
/// node (`s`) or is an indirection (`i`).
const EDGES: &str = "15 IDL:N:1.0 N,next - 1;19 - - 0 0|si
15 N N,next - 1;19 - - 0 2;15 N N,next - 3;19 - - 0 0|sssi
15 IDL:S:1.0 S,a,b,c - 1,1,1;15 IDL:P:1.0 P,x,y - 2,2;3 - - - -|siisi
15 IDL:A:1.0 A,bs - 1;19 - - 0 2;15 IDL:B:1.0 B,as,self - 3,4;19 - - 7 0;19 - - 0 2|ssssii
16 IDL:U:1.0 U,more,one -1,0,1 1,2,3;17 IDL:E:1.0 E,many,few - -;19 - - 0 0;15 - -,e,u - 1,4;19 - - 0 0|sssiisi
15 IDL:S:1.0 S,d,u - 1,3;21 IDL:D:1.0 D - 2;8 - - - -;16 IDL:U:1.0 U,yes 0,1 1,1|sssii
15 N N,a,b - 1,2;3 - - - -;3 - - - -|ss
15 S S,a,b,c - 1,3,2;15 P P,x,y - 2,2;3 - - - -;19 - - 0 1|ssisii
3 - - - -|";

/// Adds a letter for each edge of the node at a place.
fn add_marks(graph: &SpelledGraph, place: u32, content: &mut Vec<u8>) -> Result<(), AllocError>
    requires { place < length graph.now }
{
    let count = graph.node(place).edges.len();
    for number in 0..count {
        let edge = graph.edge(place, number);
        content.push(if edge.is_indirection { b'i' } else { b's' })?;
    }
    Ok(())
}

/// Whether the edges of the nodes are as they are told.
fn are_reported(alloc: Global, nodes: &str, marks: &str) -> Result<bool, GraphFault> {
    let graph = whole_of(alloc, nodes)?;
    let count = graph.len() as u32;
    let spelled = SpelledGraph::new(alloc, &graph)?;
    let mut content = Vec::new(alloc);
    for place in 0..count {
        add_marks(&spelled, place, &mut content)?;
    }
    Ok(content.as_slice() == marks.as_bytes())
}

fn is_content(alloc: Global, line: &str) -> Result<bool, GraphFault> {
    let (nodes, marks) = line.split_once('|').unwrap_or(("", ""));
    are_reported(alloc, nodes, marks)
}

#[test]
fn edges(rt: HostRuntime) {
    let alloc = rt.alloc();
    for line in EDGES.lines() {
        assert!(rt; is_content(alloc, line) == Ok(true), "{line}");
    }
}
